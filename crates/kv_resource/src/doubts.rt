//! The enlistments in doubt.
ghost use Rattle.std.specs.Prelude.{◌≡◌, [], IfNone};
ghost use Rattle.std.specs.Option.{option_map};
ghost use Rattle.dtx_model.specs.Words.{put};
ghost use Rattle.kv_resource.specs.Store.{in_doubt, numbers_of, open_records};

use crate::record::Record;
use dtx_values::{EnlNo, TxId};
use std::marker::Model;

/// The enlistments in doubt: those of the open slots that aren't marked, in order of slots.
///
/// A clause sees it as the list of the pairs that are left.
#[derive(Drop)]
pub struct InDoubt<'a> {
    slots: &'a [Option<Record>],
}

impl<'a> Model for InDoubt<'a> {
    ghost use Rattle.std.specs.Prelude.{List};
    ghost use Rattle.kv_resource.specs.Store.{Pair, in_doubt, open_records};

    ghost Value = { List Pair };

    ghost view = { λ d. in_doubt (open_records d.slots.now) };
}

impl<'a> InDoubt<'a> {
    /// Those of these slots.
    pub fn of(slots: &'a [Option<Record>]) -> InDoubt<'a>
        ensures { result ≡ in_doubt (open_records slots.now) }
    {
        InDoubt { slots }
    }
}

impl<'a> Iterator for InDoubt<'a> {
    ghost use Rattle.std.specs.Iterator.{YieldsFirstBy, item_count};
    ghost use Rattle.kv_resource.specs.Store.{numbers_of};

    type Item = (TxId, EnlNo);

    ghost next_gives = { YieldsFirstBy numbers_of (λ s. s) };

    ghost remaining = { item_count (λ s. s) };

    fn next(&mut self) -> Option<(TxId, EnlNo)> {
        let (pair, rest) = next_of(self.slots);
        self.slots = rest;
        pair
    }
}

// The first of these in doubt, and the slots after it.
fn next_of(slots: &[Option<Record>]) -> (Option<(TxId, EnlNo)>, &[Option<Record>])
    ensures first { put (option_map numbers_of result.0) (in_doubt (open_records result.1.now)) ≡ in_doubt (open_records slots.now) }
    ensures none { IfNone result.0 (in_doubt (open_records slots.now) ≡ []) }
{
    let mut rest = slots;
    while let Some((first, others)) = rest.split_first() {
        rest = others;
        if let Some(r) = first {
            if !r.is_marked() {
                return (Some(r.pair()), rest);
            }
        }
    }
    (None, rest)
}
