//! The live writes: where a put goes, a pair's vote, and how they end.
ghost use Rattle.std.specs.Prelude.{◌≡◌, Some, None, IfErr, IfOk, OnOk, map, vec_capacity};
ghost use Rattle.tx_map.specs.Live.{others, write_key};
ghost use Rattle.tx_map.specs.Notes.{marked};
ghost use Rattle.tx_map.specs.Order.{IsAt, IsGapFor, IsRising};
ghost use Rattle.tx_map.specs.Pairs.{AreTallied};
ghost use Rattle.tx_map.specs.Puts.{put_refusal};

use crate::order::search;
use crate::pairs::{Tallies, tally};
use crate::refusal::{KEYS, MapRefusal};
use crate::write::LiveWrite;
use dtx_values::{EnlNo, TxNo};

/// Where a put of the key goes: to the place of the pair's own write of it, or of one that it would add. Else why the put is refused.
pub fn place(
    live: &[LiveWrite],
    pairs: &Tallies,
    t: TxNo,
    e: EnlNo,
    key: u32,
) -> Result<Result<usize, usize>, MapRefusal>
    requires rises { IsRising write_key live.now }
    requires tallied { AreTallied live.now pairs.now }
    ensures refused { IfErr result (λ r. put_refusal (t, e) key live.now ≡ Some r) }
    ensures allowed { OnOk result (put_refusal (t, e) key live.now ≡ None) }
    ensures own { IfOk result (λ at. IfOk at (IsAt write_key live.now key)) }
    ensures new { IfOk result (λ at. IfErr at (IsGapFor write_key live.now key)) }
{
    let tally = tally(pairs, t, e);
    if tally.voted {
        return Err(MapRefusal::Over(t, e));
    }
    let at = search(live, key);
    let others = match at {
        Ok(at) => {
            let w = live[at];
            if !w.is_of(t, e) {
                return Err(MapRefusal::Busy(w.transaction, w.enlistment));
            }
            tally.keys - 1
        }
        Err(_) => tally.keys,
    };
    if others >= KEYS {
        return Err(MapRefusal::TooMany(KEYS));
    }
    Ok(at)
}

/// The write, marked as voted where it is the pair's.
fn marked(w: LiveWrite, t: TxNo, e: EnlNo) -> LiveWrite
    ensures { result ≡ marked (t, e) w }
{
    LiveWrite {
        voted: w.voted || w.is_of(t, e),
        ..w
    }
}

/// Marks the pair's live writes as voted.
pub fn mark(live: &mut [LiveWrite], t: TxNo, e: EnlNo)
    ensures { live.new ≡ map (marked (t, e)) live.old }
{
    for w in live.iter_mut() {
        *w = marked(*w, t, e);
    }
}

/// Drops the pair's live writes.
pub fn forget(live: &mut Vec<LiveWrite>, t: TxNo, e: EnlNo)
    ensures items { live.new.items ≡ others (t, e) live.old.items }
    ensures capacity { vec_capacity live.new ≡ vec_capacity live.old }
{
    live.retain(|w| !w.is_of(t, e));
}
