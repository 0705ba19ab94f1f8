//! The scopes of one thread of control, innermost last.
ghost use Rattle.std.specs.Prelude.{◌≡◌, [], Some, None, IfOk, IfErr, OnOk, OnErr, false};
ghost use Rattle.dtx_model.specs.Contexts.{asked_by};
ghost use Rattle.dtx_model.specs.Scopes.{ambient, is_scope, with_complete};
ghost use Rattle.dtx_model.specs.Words.{has, past_of};
ghost use Rattle.scope_context.specs.Refusals.{complete_refusal};
ghost use Rattle.transactions.specs.Scoping.{makes_one, place_of, refused_for};

use crate::error::{ScopeError, TxError};
use crate::handle::TransactionScope;
use dtx_values::{Iso, IsoWord, OpenScope, ScopeNo, ScopeOption, TxId, TxNo};
use scope_context::Context;
use std::alloc::{AllocError, Global};
use std::marker::Model;

/// The scopes of one thread of control, the innermost of which has the ambient transaction. (`Transaction.Current` of System.Transactions.)
///
/// A clause sees it as its scopes that are open, the innermost first, and the transactions that the last wrongly nested close is to roll back.
#[derive(Drop)]
pub struct Ambient {
    pub(crate) context: Context,
    /// The greatest number that was given to a scope.
    given: u32,
    /// How many scopes their holders haven't disposed.
    held: u32,
}

impl Model for Ambient {
    ghost use Rattle.scope_context.specs.Standing.{Standing};

    ghost Value = { Standing };

    ghost view = { λ a. a.context };
}

/// The isolation that a scope asks for.
pub(crate) fn isolation(i: IsoWord) -> Iso
    ensures { result ≡ asked_by i }
{
    match i {
        IsoWord::Default => Iso::Serializable,
        IsoWord::Level(i) => i,
    }
}

/// The place of a transaction, where there is one. The scopes know transactions by place.
pub(crate) fn place_of(t: Option<TxId>) -> Option<TxNo>
    ensures { result ≡ place_of t }
{
    match t {
        Some(t) => Some(t.t()),
        None => None,
    }
}

/// The ambient transaction, where these scopes are open, the innermost last.
fn current(scopes: &[OpenScope]) -> Option<TxNo>
    ensures { result ≡ ambient (past_of scopes.now) }
{
    scopes.last()?.entered.transaction()
}

impl Ambient {
    /// No scope, with room for 64.
    ///
    /// # Errors
    ///
    /// [`AllocError`] where memory ran out.
    pub fn new(alloc: Global) -> Result<Ambient, AllocError>
        ensures { IfOk result (λ a. a ≡ record { scopes = []; rolled = [] }) }
    {
        Ok(Ambient {
            context: Context::new(alloc)?,
            given: 0,
            held: 0,
        })
    }

    /// A number for a scope. Numbers come again only once each scope was disposed.
    pub(crate) fn give(&mut self) -> Result<ScopeNo, TxError>
        ensures closed { IfOk result (λ s. has (is_scope s.value) self.old.scopes ≡ false) }
        ensures kept { self.new ≡ self.old }
        ensures cause { IfErr result (λ e. e ≡ TxError.Many) }
    {
        if self.held == 0 {
            self.given = 0;
        }
        let Some(number) = self.given.checked_add(1) else {
            return Err(TxError::Many);
        };
        let Some(held) = self.held.checked_add(1) else {
            return Err(TxError::Many);
        };
        let Some(scope) = ScopeNo::new(number) else {
            return Err(TxError::Many);
        };
        if self.context.is_open(scope) {
            return Err(TxError::Many);
        }
        self.given = number;
        self.held = held;
        Ok(scope)
    }

    /// The holder of a scope doesn't have it any more.
    pub(crate) fn take(&mut self)
        ensures { self.new ≡ self.old }
    {
        self.held = self.held.saturating_sub(1);
    }

    /// Whether a scope that is opened so makes a transaction: Required where there is no ambient one, and RequiresNew.
    pub(crate) fn makes(&self, k: ScopeOption) -> bool
        ensures { result ≡ makes_one k self.now.scopes }
    {
        match k {
            ScopeOption::Required => current(self.context.scopes()).is_none(),
            ScopeOption::RequiresNew => true,
            ScopeOption::Suppress => false,
        }
    }
}

impl TransactionScope {
    /// Completes the scope, whose work is then to be committed.
    ///
    /// # Errors
    ///
    /// [`ScopeError::Refused`] exactly where the scope isn't open here, or is complete.
    pub fn complete(&mut self, a: &mut Ambient) -> Result<(), ScopeError>
        ensures allowed { OnOk result (complete_refusal self.old.scope a.old.scopes ≡ None) }
        ensures completed { OnOk result (a.new.scopes ≡ with_complete self.old.scope.value a.old.scopes) }
        ensures refused { IfErr result (λ e. refused_for (complete_refusal self.old.scope a.old.scopes) ≡ Some e) }
        ensures unchanged { OnErr result (a.new ≡ a.old) }
        ensures kept { self.new ≡ self.old }
    {
        match a.context.complete(self.scope) {
            Ok(()) => Ok(()),
            Err(e) => Err(ScopeError::Refused(e)),
        }
    }
}
