//! The drafts of a store.
ghost use Rattle.std.specs.Prelude.{◌≡◌, find, position};
ghost use Rattle.std.specs.Option.{option_map};
ghost use Rattle.dtx_values.specs.TxIds.{number_of};
ghost use Rattle.kv_resource.specs.Store.{is_busy_draft, is_draft_of, numbers_of, pair_of_draft};

use crate::draft::Draft;
use dtx_values::{EnlNo, TxId};

/// Where the draft of this enlistment is.
pub fn draft_at(drafts: &[Draft], t: TxId, e: EnlNo) -> Option<usize>
    ensures { result ≡ position (is_draft_of (number_of t, e.value)) drafts.now }
{
    drafts.iter().position(|d| d.is_of(t, e))
}

/// The first other enlistment whose draft wrote the key.
pub fn busy_draft(drafts: &[Draft], t: TxId, e: EnlNo, key: u32) -> Option<(TxId, EnlNo)>
    ensures { option_map numbers_of result ≡ option_map pair_of_draft (find (is_busy_draft (number_of t, e.value) key) drafts.now) }
{
    for d in drafts {
        if !d.is_of(t, e) && d.has(key) {
            return Some((d.transaction(), d.enlistment()));
        }
    }
    None
}
