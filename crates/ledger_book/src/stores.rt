//! The two stores, as the objects of transactions.
ghost use Rattle.std.specs.Prelude.{◌≡◌, ◌↔◌, ◌⊎◌, None, Some, false, IsSome, IsTrue, IfErr, IfSome, IfNone, OnErr, OnOk};
ghost use Rattle.resource_managers.specs.Pairs.{pair_of};
ghost use Rattle.resource_managers.specs.declared.enlistment.Enlistment.{Enlistment};
ghost use Rattle.kv_resource.specs.Refusals.{why_of};
ghost use Rattle.kv_resource.specs.Store.{after_put, put_refusal};
ghost use Rattle.ledger_book.specs.Accounts.{at_side};

use crate::account::{Account, Side};
use all_or_nothing::Holder;
use dtx_values::{Note, Reply};
use kv_resource::{Kv, KvRefusal};
use outside::Disk;
use resource_managers::{Enlistment, ResourceManager};

/// The two stores. Each has the enlistment of the transaction that goes on, where it is enlisted there.
#[derive(Drop)]
pub struct Stores<D: Disk + Drop> {
    /// The store of resource manager 1.
    pub left: Kv<D>,
    /// The store of resource manager 2.
    pub right: Kv<D>,
    /// What the left store is enlisted as.
    pub left_as: Option<Enlistment>,
    /// What the right store is enlisted as.
    pub right_as: Option<Enlistment>,
}

impl<D: Disk + Drop> Stores<D> {
    /// Two stores, neither of which is enlisted.
    pub fn new(left: Kv<D>, right: Kv<D>) -> Stores<D>
        ensures { result ≡ record { left = left; right = right; left_as = None; right_as = None } }
    {
        Stores {
            left,
            right,
            left_as: None,
            right_as: None,
        }
    }

    /// The store of this side.
    pub fn store(&self, side: Side) -> &Kv<D>
        ensures { result.now ≡ at_side side self.now.left self.now.right }
    {
        match side {
            Side::Left => &self.left,
            Side::Right => &self.right,
        }
    }

    /// The store of this side is enlisted so.
    pub fn enlist(&mut self, side: Side, e: Enlistment)
        ensures { self.new ≡ at_side side (record self.old { left_as = Some e }) (record self.old { right_as = Some e }) }
    {
        match side {
            Side::Left => self.left_as = Some(e),
            Side::Right => self.right_as = Some(e),
        }
    }

    /// Whether a store is enlisted.
    pub fn are_enlisted(&self) -> bool
        ensures { result ≡ false → (self.now.left_as ≡ None) × (self.now.right_as ≡ None) }
    {
        self.left_as.is_some() || self.right_as.is_some()
    }

    /// Neither store is enlisted any more.
    pub fn leave(&mut self)
        ensures { self.new ≡ record self.old { left_as = None; right_as = None } }
    {
        self.left_as = None;
        self.right_as = None;
    }

    /// Puts an amount for the enlistment of the account's store, which nobody sees before that commits. `None` exactly where the store isn't enlisted.
    ///
    /// # Errors
    ///
    /// Those of `put_in` of [`Kv`].
    pub fn put(&mut self, account: Account, amount: u64) -> Option<Result<(), KvRefusal>>
        ensures left { (e : Enlistment) → account.side ≡ Side.Left → self.old.left_as ≡ Some e → IfSome result (λ r. OnOk r (self.new ≡ record self.old { left = after_put (pair_of e) account.number amount self.old.left })) }
        ensures right { (e : Enlistment) → account.side ≡ Side.Right → self.old.right_as ≡ Some e → IfSome result (λ r. OnOk r (self.new ≡ record self.old { right = after_put (pair_of e) account.number amount self.old.right })) }
        ensures enlisted { IfSome result (λ _. IsSome (at_side account.side self.old.left_as self.old.right_as)) }
        ensures kept { IfSome result (λ r. OnErr r (self.new ≡ self.old)) }
        ensures refused { IfSome result (λ r. IfErr r (λ x. (e : Enlistment) → at_side account.side self.old.left_as self.old.right_as ≡ Some e → put_refusal (at_side account.side self.old.left self.old.right).memory (pair_of e) account.number ≡ why_of x)) }
        ensures only { IfSome result (λ r. IfErr r (λ x. (x ≡ KvRefusal.Memory) ⊎ IsSome (why_of x))) }
        ensures none { IfNone result ((self.new ≡ self.old) × (at_side account.side self.old.left_as self.old.right_as ≡ None)) }
    {
        let key = account.number;
        match account.side {
            Side::Left => match self.left_as {
                Some(e) => Some(self.left.put_in(e.transaction(), e.number(), key, amount)),
                None => None,
            },
            Side::Right => match self.right_as {
                Some(e) => Some(self.right.put_in(e.transaction(), e.number(), key, amount)),
                None => None,
            },
        }
    }
}

/// Whether both are the same one.
#[tactic(auto, using(crate::proofs::Pairs::same_pair))]
fn are_same(a: Enlistment, b: Enlistment) -> bool
    ensures { IsTrue result ↔ (a ≡ b) }
{
    let (first, second) = (a.transaction().number(), b.transaction().number());
    first == second && a.number().get() == b.number().get()
}

/// Whether this is what is enlisted.
fn is_one(enlisted: Option<Enlistment>, e: Enlistment) -> bool
    ensures { IsTrue result ↔ (enlisted ≡ Some e) }
{
    match enlisted {
        Some(other) => are_same(other, e),
        None => false,
    }
}

impl<D: Disk + Drop> ResourceManager for Stores<D> {
    ghost use Rattle.std.specs.Prelude.{◌≡◌};
    ghost use Rattle.kv_holding.specs.TwoStores.{IsHandedOn};

    ghost gives = { λ old e n a new. IsHandedOn D.honest D.image D.faults old.left old.right old.left_as old.right_as e n a new.left new.right × ((new.left_as ≡ old.left_as) × (new.right_as ≡ old.right_as)) };

    fn on(&mut self, e: Enlistment, n: Note) -> Option<Reply> {
        if is_one(self.left_as, e) {
            return self.left.on(e, n);
        }
        if is_one(self.right_as, e) {
            return self.right.on(e, n);
        }
        None
    }
}

impl<D: Disk + Drop> Holder for Stores<D> {
    ghost use Rattle.ledger_book.specs.Holding.{stores_keep, stores_leave, stores_place, stores_sound};

    ghost place = { λ o e. stores_place o e };

    ghost keeps = { λ o e. stores_keep D.honest D.image o e };

    ghost leaves = { λ o ss. stores_leave D.honest D.image o ss };

    ghost sound = { λ o. stores_sound D.honest D.image o };

    fn hold() {}
}
