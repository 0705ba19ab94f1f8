//! How many live writes each pair has: kept beside them, so that a put needs no pass over them.
ghost use Rattle.std.specs.Prelude.{◌≡◌, Some, None, OnErr, OnOk, is_some, unwrap_or};
ghost use Rattle.std.specs.BTreeMap.{IsUnchanged};
ghost use Rattle.tx_map.specs.Pairs.{SetsTally, marked_in, no_tally, tally_at, with_keys};

use dtx_values::{EnlNo, TxNo};
use std::alloc::AllocError;
use std::collections::BTreeMap;

/// What is kept of a pair that has live writes.
#[derive(Clone, Copy, PartialEq, Eq, Debug)]
pub struct PairTally {
    /// How many live writes it has: each is of another key.
    pub keys: usize,
    /// Whether it voted since one of them.
    pub voted: bool,
}

/// The tally of each pair that has live writes, by the numbers of its transaction and its enlistment.
pub type Tallies = BTreeMap<(u32, u32), PairTally>;

/// The pair's tally, or that of no live write.
pub fn tally(pairs: &Tallies, t: TxNo, e: EnlNo) -> PairTally
    ensures { result ≡ unwrap_or (tally_at pairs.now (t, e)) no_tally }
{
    let none = PairTally {
        keys: 0,
        voted: false,
    };
    pairs.get(&(t.get(), e.get())).copied().unwrap_or(none)
}

/// Keeps of the pair that it has so many live writes, and has not voted since.
pub fn keep_tally(pairs: &mut Tallies, t: TxNo, e: EnlNo, keys: usize) -> Result<(), AllocError>
    ensures counted { OnOk result (SetsTally pairs.old pairs.new (t, e) (Some (with_keys keys))) }
    ensures unchanged { OnErr result (IsUnchanged pairs.old pairs.new) }
{
    let tally = PairTally { keys, voted: false };
    pairs.insert((t.get(), e.get()), tally)?;
    Ok(())
}

/// Marks the pair's tally as voted, and answers whether it has one.
pub fn mark_tally(pairs: &mut Tallies, t: TxNo, e: EnlNo) -> bool
    ensures had { result ≡ is_some (tally_at pairs.old (t, e)) }
    ensures marked { SetsTally pairs.old pairs.new (t, e) (marked_in (tally_at pairs.old (t, e))) }
{
    match pairs.get_mut(&(t.get(), e.get())) {
        Some(tally) => {
            tally.voted = true;
            true
        }
        None => false,
    }
}

/// Drops the pair's tally.
pub fn forget_tally(pairs: &mut Tallies, t: TxNo, e: EnlNo)
    ensures { SetsTally pairs.old pairs.new (t, e) None }
{
    let _ = pairs.remove(&(t.get(), e.get()));
}
