//! The histories of a trace, with the numbers of their entries in it.
ghost use Rattle.std.specs.Prelude.{◌≡◌, ◌∷◌, ◌+◌, [], IfOk, List, OnOk, length};
ghost use Rattle.dtx_model.specs.Words.{past_of, put};
ghost use Rattle.outcome_reasons.specs.Histories.{all_histories};
ghost use Rattle.dtx_model.specs.Traces.{Placed};
ghost use Rattle.outcome_reasons.specs.Vetoes.{nested_in};
ghost use Rattle.outcome_reasons.specs.Whys.{nested_lines};

use dtx_values::{Answer, Entry, Place, ScopeNo, TxNo};
use entry_lists::Trace;
use std::alloc::{AllocError, Global};
use std::marker::Model;

/// The history of a transaction, and the number of each of its entries in the trace. A clause sees both newest first.
#[derive(Drop)]
pub struct History {
    pub entries: Vec<Entry>,
    pub numbers: Vec<u64>,
}

impl Model for History {
    ghost use Rattle.dtx_model.specs.Words.{past_of};
    ghost use Rattle.outcome_reasons.specs.Histories.{Numbered};

    ghost Value = { Numbered };

    ghost view = { λ m. record { entries = past_of m.entries.items; numbers = past_of m.numbers.items } };
}

impl History {
    /// A history without an entry.
    pub fn new(alloc: Global) -> History
        ensures { result ≡ record { entries = []; numbers = [] } }
    {
        History {
            entries: Vec::new(alloc),
            numbers: Vec::new(alloc),
        }
    }

    /// Adds an entry, with its number.
    ///
    /// # Errors
    ///
    /// [`AllocError`] where memory ran out.
    pub fn add(&mut self, number: u64, x: Entry) -> Result<(), AllocError>
        ensures { OnOk result (self.new ≡ record { entries = x ∷ self.old.entries; numbers = number ∷ self.old.numbers }) }
    {
        self.entries.push(x)?;
        self.numbers.push(number)?;
        Ok(())
    }
}

/// As many histories without an entry as there are transactions.
fn no_histories(alloc: Global) -> Result<Vec<History>, AllocError>
    ensures { IfOk result (λ v. v.items ≡ all_histories []) }
{
    let mut histories = Vec::with_capacity(alloc, TxNo::MAX as usize)?;
    for _ in 0..TxNo::MAX {
        histories.push(History::new(alloc))?;
    }
    Ok(histories)
}

/// Adds an entry with its number to the history of its transaction, where it is one's.
fn add_entry(histories: &mut Vec<History>, number: u64, z: (Place, Entry)) -> Result<(), AllocError>
    requires { length histories.old.items ≡ TxNo.MAX }
    ensures { OnOk result ((past : List Placed) → histories.old.items ≡ all_histories past → number ≡ length past + 1 → histories.new.items ≡ all_histories (z ∷ past)) }
{
    if let Place::Transaction(tx) = z.0 {
        histories[tx.index()].add(number, z.1)?;
    }
    Ok(())
}

/// The history of each transaction, from t1 to t256.
pub(crate) fn histories_of(alloc: Global, t: &Trace) -> Result<Vec<History>, AllocError>
    ensures { IfOk result (λ v. v.items ≡ all_histories (past_of t.now)) }
{
    let mut histories = no_histories(alloc)?;
    for i in 0..t.len() {
        add_entry(&mut histories, i as u64 + 1, t.at(i))?;
    }
    Ok(histories)
}

/// Adds the line that was answered so, with the scope beneath which that of the line is.
fn add_nested(nested: &mut Vec<(u32, ScopeNo)>, z: (Place, Entry)) -> Result<(), AllocError>
    ensures { OnOk result (past_of nested.new.items ≡ put (nested_in z) (past_of nested.old.items)) }
{
    if let Entry::Called(line, _, Answer::Nested(above)) = z.1 {
        nested.push((line, above))?;
    }
    Ok(())
}

/// The lines that were answered that their scope is beneath another, each with that one.
pub(crate) fn nested_lines(alloc: Global, t: &Trace) -> Result<Vec<(u32, ScopeNo)>, AllocError>
    ensures { IfOk result (λ v. past_of v.items ≡ nested_lines (past_of t.now)) }
{
    let mut nested = Vec::new(alloc);
    for i in 0..t.len() {
        add_nested(&mut nested, t.at(i))?;
    }
    Ok(nested)
}
