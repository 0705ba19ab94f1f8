//! Books of accounts.
ghost use Rattle.std.specs.Prelude.{◌≡◌, ◌≤◌, ◌<◌, ◌-◌, ◌^◌, Ok, IfOk, IsTrue, OnOk, false, length, true};
ghost use Rattle.coordinator_log.specs.Slots.{open_records as logged};
ghost use Rattle.kv_resource.specs.Store.{open_records, table_of};
ghost use Rattle.ledger_book.specs.Accounts.{CanMove, amount_of, at_side};
ghost use Rattle.ledger_book.specs.Recovered.{AreEnded, EndsOne, LeavesOne};
ghost use Rattle.ledger_book.specs.Whole.{AreFree, IsFound, IsWholeBook, LeavesWhole};
ghost use Rattle.ledger_book.specs.declared.account.Side.TheVariants.{Left};
ghost use Rattle.coordinator_log.specs.declared.layout.TheConstants.{LOG_BYTES};
ghost use Rattle.kv_resource.specs.declared.layout.TheConstants.{KV_BYTES};

use crate::account::{Account, Side};
use crate::disks::Disks;
use crate::moves::moving;
use crate::recovery::Recovery;
use crate::stores::Stores;
use crate::trouble::{Part, Trouble};
use coordinator_log::LOG_BYTES;
use dtx_values::RmNo;
use kv_holding::kv_holds;
use kv_resource::{KV_BYTES, Kv, KvRefusal};
use outside::{Clock, Disk};
use recovery_laws::recovery_one_by_one;
use std::alloc::{AllocError, Global};
use transactions::{CommitError, RecoverRefusal, Recovered, RecoveryDesk, TransactionManager};

/// A book of accounts: a transaction manager over a log, and two stores.
#[derive(Drop)]
pub struct Book<D: Disk + Drop, C: Clock + Drop> {
    /// The manager, over the log.
    pub manager: TransactionManager<D, C>,
    /// The stores, whose keys are the numbers of the accounts.
    pub stores: Stores<D>,
}

impl<D: Disk + Drop, C: Clock + Drop> Book<D, C> {
    /// A book with no account: the log is made anew, then the left store, then the right one. What was on the disks is lost.
    ///
    /// # Errors
    ///
    /// The disks are handed back with [`Trouble::Fault`] or [`Trouble::Memory`].
    pub fn make(alloc: Global, disks: Disks<D>, clock: C) -> Result<Book<D, C>, (Trouble, Disks<D>)>
        requires log { LOG_BYTES ≤ D.size disks.log }
        requires left { KV_BYTES ≤ D.size disks.left }
        requires right { KV_BYTES ≤ D.size disks.right }
        ensures whole { IsTrue D.honest → IfOk result (λ b. IsWholeBook D.honest D.image b) }
    {
        kv_holds::<D>();
        let Disks { log, left, right } = disks;
        let manager = match TransactionManager::create(alloc, log, clock) {
            Ok(manager) => manager,
            Err((e, log, _)) => return Err((Trouble::of_log(e), Disks { log, left, right })),
        };
        match Kv::format(alloc, left) {
            Ok(left) => Book::with_right(manager, left, Kv::format(alloc, right)),
            Err((e, left)) => {
                let log = manager.into_disk();
                Err((Trouble::of_store(Part::Left, e), Disks { log, left, right }))
            }
        }
    }

    /// The book that is on the disks. It opens the log, then the left store, then the right one, and only syncs and reads each.
    ///
    /// # Errors
    ///
    /// The disks are handed back, with any [`Trouble`] but [`Trouble::Others`].
    pub fn open(alloc: Global, disks: Disks<D>, clock: C) -> Result<Book<D, C>, (Trouble, Disks<D>)>
        requires log { LOG_BYTES ≤ D.size disks.log }
        requires left { KV_BYTES ≤ D.size disks.left }
        requires right { KV_BYTES ≤ D.size disks.right }
        ensures found { IsTrue D.honest → D.faults disks.left < 2 ^ 64 - 1 → D.faults disks.right < 2 ^ 64 - 1 → IfOk result (λ b. IsFound D.honest D.image D.faults b) }
    {
        let Disks { log, left, right } = disks;
        let manager = match TransactionManager::open(alloc, log, clock) {
            Ok(manager) => manager,
            Err((e, log, _)) => return Err((Trouble::of_log(e), Disks { log, left, right })),
        };
        match Kv::from_disk(alloc, left) {
            Ok(left) => Book::with_right(manager, left, Kv::from_disk(alloc, right)),
            Err((e, left)) => {
                let log = manager.into_disk();
                Err((Trouble::of_store(Part::Left, e), Disks { log, left, right }))
            }
        }
    }

    /// The book of this manager and its stores, where the right one is there too.
    fn with_right(
        manager: TransactionManager<D, C>,
        left: Kv<D>,
        right: Result<Kv<D>, (KvRefusal, D)>,
    ) -> Result<Book<D, C>, (Trouble, Disks<D>)>
        ensures manager { IfOk result (λ b. b.manager ≡ manager) }
        ensures left { IfOk result (λ b. b.stores.left ≡ left) }
        ensures right { IfOk result (λ b. right ≡ Ok b.stores.right) }
        ensures many { IfOk result (λ b. (length b.stores.left.memory.slots ≡ 1024) × (length b.stores.right.memory.slots ≡ 1024)) }
        ensures free { IfOk result (λ b. AreFree Left b.stores) }
    {
        match right {
            Ok(right) => {
                let _ = left.is_stopped();
                let _ = right.is_stopped();
                Ok(Book {
                    manager,
                    stores: Stores::new(left, right),
                })
            }
            Err((e, right)) => {
                let (log, left) = (manager.into_disk(), left.into_disk());
                Err((
                    Trouble::of_store(Part::Right, e),
                    Disks { log, left, right },
                ))
            }
        }
    }

    /// Hands the disks back.
    pub fn into_disks(self) -> Disks<D> {
        let Book { manager, stores } = self;
        let Stores {
            left,
            right,
            left_as: _,
            right_as: _,
        } = stores;
        Disks {
            log: manager.into_disk(),
            left: left.into_disk(),
            right: right.into_disk(),
        }
    }

    /// Finishes what earlier processes left in doubt: at the left store, then at the right one. An amount is read after that.
    ///
    /// All or nothing: each transaction of an earlier process is then ended at both stores alike, if it was whole in the log and at both.
    ///
    /// # Errors
    ///
    /// Any [`Trouble`] but [`Trouble::NotOne`].
    pub fn recover(&mut self, alloc: Global) -> Result<Recovery, Trouble>
        ensures leaves { IsTrue D.honest → IsFound D.honest D.image D.faults self.old → LeavesWhole D.honest D.image self.old → LeavesWhole D.honest D.image self.new }
        ensures whole { IsTrue D.honest → IsFound D.honest D.image D.faults self.old → LeavesWhole D.honest D.image self.old → OnOk result (IsWholeBook D.honest D.image self.new) }
        ensures ended { OnOk result (AreEnded (logged self.old.manager.log.slots) self.old.stores.left self.old.stores.right self.new.stores.left self.new.stores.right) }
    {
        recovery_one_by_one();
        kv_holds::<D>();
        let mut desk = RecoveryDesk::new(alloc);
        let mut recovery = Recovery::new(alloc);
        let rm = Side::Left.manager();
        let left = match recover_store(&mut self.manager, &mut desk, rm, &mut self.stores.left) {
            Ok(left) => left,
            Err(e) => return Err(Trouble::of_recovery(Part::Left, e)),
        };
        recovery.add(Side::Left, &left)?;
        let rm = Side::Right.manager();
        let right = match recover_store(&mut self.manager, &mut desk, rm, &mut self.stores.right) {
            Ok(right) => right,
            Err(e) => return Err(Trouble::of_recovery(Part::Right, e)),
        };
        recovery.add(Side::Right, &right)?;
        Ok(recovery)
    }

    /// The amount of an account, where there is such an account.
    pub fn amount(&self, account: Account) -> Option<u64>
        ensures { result ≡ amount_of account.number (at_side account.side self.now.stores.left self.now.stores.right) }
    {
        self.stores.store(account.side).get(account.number)
    }

    /// The accounts of a store and their amounts, by number.
    pub fn rows(&self, side: Side) -> &[(u32, u64)]
        ensures { result.now ≡ table_of (open_records (at_side side self.now.stores.left self.now.stores.right).memory.slots) }
    {
        self.stores.store(side).table()
    }

    /// All amounts together.
    pub fn sum(&self) -> u128 {
        sum_of(self.rows(Side::Left)).saturating_add(sum_of(self.rows(Side::Right)))
    }

    /// Makes accounts 1 to `count` in both stores, with this amount each; whether they are made.
    ///
    /// # Errors
    ///
    /// [`Trouble::Memory`].
    pub fn fill(&mut self, alloc: Global, count: u32, amount: u64) -> Result<bool, Trouble>
        ensures whole { IsTrue D.honest → IsWholeBook D.honest D.image self.old → IsWholeBook D.honest D.image self.new }
    {
        match all_accounts(alloc, count, amount) {
            Ok(writes) => self.write(&writes),
            Err(_) => Err(Trouble::Memory),
        }
    }

    /// Moves an amount from one account to another; whether it is moved. It isn't where one of them isn't there, where both are the same, where the first has less than that,
    /// where the second would have more than a `u64` tells, or where the transaction aborts.
    ///
    /// # Errors
    ///
    /// [`Trouble::Memory`].
    pub fn transfer(&mut self, from: Account, to: Account, amount: u64) -> Result<bool, Trouble>
        ensures moved { result ≡ Ok true → CanMove from to (amount_of from.number (at_side from.side self.old.stores.left self.old.stores.right)) (amount_of to.number (at_side to.side self.old.stores.left self.old.stores.right)) amount }
        ensures refused { (CanMove from to (amount_of from.number (at_side from.side self.old.stores.left self.old.stores.right)) (amount_of to.number (at_side to.side self.old.stores.left self.old.stores.right)) amount → ⊥) → (result ≡ Ok false) × (self.new ≡ self.old) }
        ensures whole { IsTrue D.honest → IsWholeBook D.honest D.image self.old → IsWholeBook D.honest D.image self.new }
    {
        match moving(from, to, self.amount(from), self.amount(to), amount) {
            Some(m) => self.write(&[(from, m.less), (to, m.more)]),
            None => Ok(false),
        }
    }

    /// Writes these amounts as one transaction; whether it committed. It doesn't where an earlier one of this book isn't over: then a disk failed, and the book is to be opened
    /// again and recovered.
    ///
    /// All or nothing: whatever a crash may leave of the three disks then, each transaction is whole in it, if so it was before; whichever call of whichever disk fails in it.
    ///
    /// # Errors
    ///
    /// [`Trouble::Memory`].
    pub fn write(&mut self, writes: &[(Account, u64)]) -> Result<bool, Trouble>
        ensures whole { IsTrue D.honest → IsWholeBook D.honest D.image self.old → IsWholeBook D.honest D.image self.new }
    {
        match self.write_as_one(writes) {
            Ok(()) => Ok(true),
            Err(CommitError::Memory) => Err(Trouble::Memory),
            Err(_) => Ok(false),
        }
    }
}

/// Finishes what earlier processes left in doubt at a store.
fn recover_store<D: Disk + Drop, C: Clock + Drop>(
    manager: &mut TransactionManager<D, C>,
    desk: &mut RecoveryDesk,
    rm: RmNo,
    store: &mut Kv<D>,
) -> Result<Recovered, RecoverRefusal>
    ensures leaves { LeavesOne D.honest D.image D.faults desk.old rm manager.old manager.new store.old store.new }
    ensures ends { OnOk result (EndsOne D.honest D.image D.faults desk.old desk.new rm manager.old manager.new store.old store.new) }
{
    let recovered = manager.recover(desk, rm, store);
    let _ = store.is_stopped();
    recovered
}

/// The sum of these amounts.
fn sum_of(rows: &[(u32, u64)]) -> u128 {
    let mut sum = 0u128;
    for row in rows {
        sum = sum.saturating_add(u128::from(row.1));
    }
    sum
}

/// Accounts 1 to `count` of both stores, with this amount each.
fn all_accounts(alloc: Global, count: u32, amount: u64) -> Result<Vec<(Account, u64)>, AllocError> {
    let mut writes = Vec::new(alloc);
    for side in Side::BOTH {
        for number in 1..=count {
            writes.push((Account { side, number }, amount))?;
        }
    }
    Ok(writes)
}
