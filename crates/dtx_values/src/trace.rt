//! Traces. Their form is this project's own.
ghost use Rattle.std.specs.Prelude.{◌≡◌};

use crate::entry::Entry;
use crate::number::{ActorNo, TxNo};
use std::marker::Model;

/// Where an entry stands: at an actor's context, at a transaction, or at the log.
#[derive(Clone, Copy, PartialEq, Eq, Debug)]
pub enum Place {
    Context(ActorNo),
    Transaction(TxNo),
    Log,
}

/// A trace: entries with their places, oldest first, which contracts see as a list.
#[derive(Drop)]
pub struct Trace {
    entries: Vec<(Place, Entry)>,
}

impl Model for Trace {
    ghost use Rattle.std.specs.Prelude.{List};
    ghost use Rattle.dtx_values.specs.declared.trace.Place.{Place};
    ghost use Rattle.dtx_values.specs.declared.entry.Entry.{Entry};

    ghost Value = { List (Place × Entry) };

    ghost view = { λ t. t.entries.items };
}

impl Trace {
    /// The trace of these entries.
    pub fn new(entries: Vec<(Place, Entry)>) -> Trace
        ensures { result ≡ entries.items }
    {
        Trace { entries }
    }

    /// The entries in order.
    pub fn entries(&self) -> &[(Place, Entry)]
        ensures { result.now ≡ self.now }
    {
        self.entries.as_slice()
    }

    /// The entries again, without taking memory.
    pub fn into_entries(self) -> Vec<(Place, Entry)>
        ensures { result.items ≡ self }
    {
        self.entries
    }
}
