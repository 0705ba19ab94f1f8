//! The writes of a book, as transactions.
ghost use Rattle.std.specs.Prelude.{◌≡◌, None, Ok, Err, IfOk, IsTrue, OnErr, OnOk};
ghost use Rattle.transactions.specs.Slots.{Standing};
ghost use Rattle.ledger_book.specs.Whole.{AreFree, IsWholeBook, IsWriting};
ghost use Rattle.ledger_book.specs.declared.account.Side.TheVariants.{Left, Right};

use crate::account::{Account, Side};
use crate::book::Book;
use crate::stores::Stores;
use all_or_nothing::{
    beginning_keeps_all_or_nothing, call_keeps_all_or_nothing, end_keeps_all_or_nothing,
    objects_keep_all_or_nothing, refusal_keeps_all_or_nothing,
};
use dtx_values::Timeout;
use kv_holding::kv_holds;
use kv_resource::KvRefusal;
use outside::{Clock, Disk};
use transactions::{CommitError, CommittableTransaction, Phases, TxError};

impl<D: Disk + Drop, C: Clock + Drop> Book<D, C> {
    /// Writes these amounts as one transaction.
    pub(crate) fn write_as_one(&mut self, writes: &[(Account, u64)]) -> Result<(), CommitError>
        ensures whole { IsTrue D.honest → IsWholeBook D.honest D.image self.old → IsWholeBook D.honest D.image self.new }
    {
        if self.stores.are_enlisted() {
            return Err(CommitError::Waits);
        }
        let tx = match self.begin() {
            Ok(tx) => tx,
            Err(e) => return Err(CommitError::from(e)),
        };
        let written = self.write_in(&tx, writes);
        self.finish(tx);
        written
    }

    /// Begins a transaction, in which neither store is enlisted yet.
    fn begin(&mut self) -> Result<CommittableTransaction, TxError>
        ensures begun { IfOk result (λ tx. IsTrue D.honest → AreFree Left self.old.stores → IsWholeBook D.honest D.image self.old → IsWriting D.honest D.image tx.number self.new) }
        ensures refused { OnErr result (IsTrue D.honest → IsWholeBook D.honest D.image self.old → IsWholeBook D.honest D.image self.new) }
        ensures stores { self.new.stores ≡ self.old.stores }
    {
        beginning_keeps_all_or_nothing::<D, C, Stores<D>>();
        refusal_keeps_all_or_nothing::<D, C, Stores<D>>();
        let tx = match self.manager.begin(Timeout::Default) {
            Ok(tx) => tx,
            Err(e) => return Err(e),
        };
        self.manager.has_run(&tx);
        Ok(tx)
    }

    /// Enlists and writes all, and commits; or rolls back.
    fn write_in(
        &mut self,
        tx: &CommittableTransaction,
        writes: &[(Account, u64)],
    ) -> Result<(), CommitError>
        ensures goes { IsTrue D.honest → AreFree Left self.old.stores → IsWriting D.honest D.image tx.now.number self.old → IsWriting D.honest D.image tx.now.number self.new }
    {
        match self.put_all(tx, writes) {
            Ok(()) => self.commit(tx),
            Err(e) => {
                self.roll_back(tx);
                Err(e)
            }
        }
    }

    /// Commits the transaction.
    fn commit(&mut self, tx: &CommittableTransaction) -> Result<(), CommitError>
        ensures goes { IsTrue D.honest → IsWriting D.honest D.image tx.now.number self.old → IsWriting D.honest D.image tx.now.number self.new }
    {
        call_keeps_all_or_nothing::<D, C, Stores<D>>();
        self.manager.has_run(tx);
        let done = self.manager.commit(tx, &mut self.stores);
        self.manager.has_run(tx);
        done
    }

    /// Rolls the transaction back. What it is refused for, if it is, changes nothing: no store has prepared.
    fn roll_back(&mut self, tx: &CommittableTransaction)
        ensures goes { IsTrue D.honest → IsWriting D.honest D.image tx.now.number self.old → IsWriting D.honest D.image tx.now.number self.new }
    {
        call_keeps_all_or_nothing::<D, C, Stores<D>>();
        self.manager.has_run(tx);
        let _ = self.manager.rollback(tx, &mut self.stores);
        self.manager.has_run(tx);
    }

    /// Enlists each store that one of these is in, the left one first, and puts them.
    fn put_all(
        &mut self,
        tx: &CommittableTransaction,
        writes: &[(Account, u64)],
    ) -> Result<(), CommitError>
        ensures goes { IsTrue D.honest → AreFree Left self.old.stores → IsWriting D.honest D.image tx.now.number self.old → IsWriting D.honest D.image tx.now.number self.new }
    {
        match self.enlist(tx, Side::Left, writes) {
            Ok(()) => {}
            Err(e) => return Err(e),
        }
        match self.enlist(tx, Side::Right, writes) {
            Ok(()) => {}
            Err(e) => return Err(e),
        }
        self.put_each(tx, writes)
    }

    /// Enlists a store that one of these is in.
    fn enlist(
        &mut self,
        tx: &CommittableTransaction,
        side: Side,
        writes: &[(Account, u64)],
    ) -> Result<(), CommitError>
        ensures goes { IsTrue D.honest → AreFree side self.old.stores → IsWriting D.honest D.image tx.now.number self.old → IsWriting D.honest D.image tx.now.number self.new }
        ensures next { IsTrue D.honest → side ≡ Left → AreFree Left self.old.stores → IsWriting D.honest D.image tx.now.number self.old → AreFree Right self.new.stores }
    {
        if !writes.iter().any(|w| w.0.side == side) {
            return Ok(());
        }
        call_keeps_all_or_nothing::<D, C, Stores<D>>();
        objects_keep_all_or_nothing::<D, C, Stores<D>>();
        self.manager.has_run(tx);
        let enlisted = self
            .manager
            .enlist_durable(tx, side.manager(), Phases::Single, &mut self.stores);
        self.manager.has_run(tx);
        match enlisted {
            Ok(e) => {
                self.stores.enlist(side, e);
                Ok(())
            }
            Err(e) => Err(CommitError::from(e)),
        }
    }

    /// Puts these amounts.
    fn put_each(
        &mut self,
        tx: &CommittableTransaction,
        writes: &[(Account, u64)],
    ) -> Result<(), CommitError>
        ensures goes { IsTrue D.honest → IsWriting D.honest D.image tx.now.number self.old → IsWriting D.honest D.image tx.now.number self.new }
    {
        for w in writes {
            match self.put(tx, *w) {
                Ok(()) => {}
                Err(e) => return Err(e),
            }
        }
        Ok(())
    }

    /// Puts an amount.
    fn put(&mut self, tx: &CommittableTransaction, w: (Account, u64)) -> Result<(), CommitError>
        ensures goes { IsTrue D.honest → IsWriting D.honest D.image tx.now.number self.old → IsWriting D.honest D.image tx.now.number self.new }
    {
        objects_keep_all_or_nothing::<D, C, Stores<D>>();
        kv_holds::<D>();
        let _ = tx;
        match self.stores.put(w.0, w.1) {
            Some(Ok(())) => Ok(()),
            Some(Err(KvRefusal::Memory)) => Err(CommitError::Memory),
            Some(Err(_)) => Err(CommitError::Aborted),
            None => Err(CommitError::Aborted),
        }
    }

    /// Ends the transaction, after which neither store is enlisted; or gives it up, where it isn't over.
    fn finish(&mut self, tx: CommittableTransaction)
        ensures whole { IsTrue D.honest → IsWriting D.honest D.image tx.number self.old → IsWholeBook D.honest D.image self.new }
    {
        end_keeps_all_or_nothing::<D, C, Stores<D>>();
        objects_keep_all_or_nothing::<D, C, Stores<D>>();
        match self.manager.end(tx) {
            Ok(()) => self.stores.leave(),
            Err(tx) => self.manager.release(tx),
        }
    }
}
