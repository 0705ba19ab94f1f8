//! The transactions and the enlistments that a script makes.
ghost use Rattle.std.specs.Prelude.{◌≡◌, ◌-◌, ◌==◌, ◌||◌, ℕ, IfOk, IfSome, IfNone, None, Some, false, if◌then◌else◌, length, slice_index_or};
ghost use Rattle.dtx_values.specs.declared.number.EnlNo.{EnlNo};
ghost use Rattle.dtx_values.specs.declared.number.TxNo.{TxNo};
ghost use Rattle.dtx_model.specs.Grammar.{IsScript, OfTransaction, makes, same_name};
ghost use Rattle.dtx_model.specs.Words.{has, or_else};
ghost use Rattle.heard_notes.specs.Whose.{whose};
ghost use Rattle.put_lines.specs.Names.{AreNames, made_here, named_at, naming_fault};

use dtx_values::{BadCause, Body, EnlNo, Line, Opening, TxNo};
use heard_notes::{Of, Put};
use std::alloc::{AllocError, Global};

/// What a script says of an enlistment: its transaction, and whether it has the object.
#[derive(Clone, Copy, PartialEq, Eq)]
pub struct Made {
    transaction: TxNo,
    has_object: bool,
}

/// Tables of the transactions that the script makes, and of its enlistments, each at the place of its number.
#[derive(Drop)]
pub struct Names {
    transactions: Vec<bool>,
    enlistments: Vec<Option<Made>>,
}

/// The enlistment that a command makes, and what is said of it.
fn made_by(body: Body, of: Of) -> Option<(EnlNo, Made)>
    ensures some { IfSome result (λ x. (e : ℕ) → made_here (whose of) e body ≡ (if e == x.0.value then Some x.1 else None)) }
    ensures none { IfNone result ((e : ℕ) → made_here (whose of) e body ≡ None) }
{
    let (e, transaction, has_object) = match body {
        Body::Volatile(t, e, _, _) => (e, t, of == Of::Volatiles),
        Body::Durable(t, e, r, _) | Body::Promotable(t, e, r, _, _, _) => {
            (e, t, of == Of::Manager(r))
        }
        _ => return None,
    };
    Some((
        e,
        Made {
            transaction,
            has_object,
        },
    ))
}

/// Keeps the enlistment that a command makes.
fn keep_enlistment(enlistments: &mut Vec<Option<Made>>, body: Body, of: Of)
    requires { length enlistments.old.items ≡ EnlNo.MAX }
    ensures full { length enlistments.new.items ≡ EnlNo.MAX }
    ensures kept { (e : EnlNo) → slice_index_or enlistments.new.items (e.value - 1) None
        ≡ or_else (made_here (whose of) e.value body) (slice_index_or enlistments.old.items (e.value - 1) None) }
{
    if let Some((e, made)) = made_by(body, of) {
        enlistments[e.index()] = Some(made);
    }
}

/// Keeps the transaction that a command makes.
fn keep_transaction(transactions: &mut Vec<bool>, body: Body)
    requires { length transactions.old.items ≡ TxNo.MAX }
    ensures full { length transactions.new.items ≡ TxNo.MAX }
    ensures kept { (t : TxNo) → slice_index_or transactions.new.items (t.value - 1) false
        ≡ (has (λ m. same_name (OfTransaction t.value) m) (makes body) || slice_index_or transactions.old.items (t.value - 1) false) }
{
    match body {
        Body::Begin(t, _)
        | Body::Open(_, Opening::Required(t, _, _) | Opening::RequiresNew(t, _, _)) => {
            transactions[t.index()] = true;
        }
        _ => {}
    }
}

impl Names {
    /// The names of a script.
    pub fn of_script(alloc: Global, lines: &[Line], of: Of) -> Result<Names, AllocError>
        requires { IsScript lines.now }
        ensures { IfOk result (λ n. AreNames lines.now (whose of) n) }
    {
        let mut transactions = Vec::new(alloc);
        transactions.resize(TxNo::MAX as usize, false)?;
        let mut enlistments = Vec::new(alloc);
        enlistments.resize(EnlNo::MAX as usize, None)?;
        for line in lines {
            keep_transaction(&mut transactions, line.body);
            keep_enlistment(&mut enlistments, line.body, of);
        }
        Ok(Names {
            transactions,
            enlistments,
        })
    }

    /// The first fault of a put's names.
    pub fn fault(&self, put: &Put) -> Option<BadCause>
        requires transactions { length self.now.transactions.items ≡ TxNo.MAX }
        requires enlistments { length self.now.enlistments.items ≡ EnlNo.MAX }
        ensures { result ≡ naming_fault (named_at self.now put.now) }
    {
        if !self.transactions[put.transaction.index()] {
            return Some(BadCause::NameUnknown);
        }
        match self.enlistments[put.enlistment.index()] {
            None => Some(BadCause::NameUnknown),
            Some(made) if made.transaction == put.transaction && made.has_object => None,
            Some(_) => Some(BadCause::WrongKind),
        }
    }
}
