//! A commit: the pair's live writes go into the base in one pass over both.
ghost use Rattle.std.specs.Prelude.{◌≡◌, ◌+◌, ◌<◌, ◌≤◌, ◌++◌, length, vec_len, vec_capacity};
ghost use Rattle.tx_map.specs.Live.{entry_key, own, write_key};
ghost use Rattle.tx_map.specs.Notes.{entry_of, moved};
ghost use Rattle.tx_map.specs.Order.{above, below, IsRising};

use crate::order::search;
use crate::write::{LiveWrite, MapEntry};
use dtx_values::{EnlNo, TxNo};

/// The entries below the key, and those above it.
fn split(base: &[MapEntry], key: u32) -> (&[MapEntry], &[MapEntry])
    requires { IsRising entry_key base.now }
    ensures below { result.0.now ≡ below entry_key key base.now }
    ensures above { result.1.now ≡ above entry_key key base.now }
{
    match search(base, key) {
        Ok(at) => (&base[..at], &base[at + 1..]),
        Err(at) => (&base[..at], &base[at..]),
    }
}

/// Adds the write's key with its value, where it has one. There is room for it.
fn push(out: &mut Vec<MapEntry>, w: &LiveWrite)
    requires { vec_len out.old < vec_capacity out.old }
    ensures items { out.new.items ≡ out.old.items ++ entry_of w.now }
    ensures capacity { vec_capacity out.old ≤ vec_capacity out.new }
{
    if let Some(value) = w.value {
        match out.push(MapEntry { key: w.key, value }) {
            Ok(()) => {}
            Err(_) => unreachable!(),
        }
    }
}

/// Adds the entries. There is room for them.
fn extend(out: &mut Vec<MapEntry>, xs: &[MapEntry])
    requires { vec_len out.old + length xs.now ≤ vec_capacity out.old }
    ensures items { out.new.items ≡ out.old.items ++ xs.now }
    ensures capacity { vec_capacity out.old ≤ vec_capacity out.new }
{
    match out.extend_from_slice(xs) {
        Ok(()) => {}
        Err(_) => unreachable!(),
    }
}

/// Adds the base with the pair's live writes moved into it. There is room for all of both.
pub fn merge(base: &[MapEntry], live: &[LiveWrite], t: TxNo, e: EnlNo, out: &mut Vec<MapEntry>)
    requires rises { IsRising entry_key base.now }
    requires in_order { IsRising write_key live.now }
    requires room { vec_len out.old + (length base.now + length live.now) ≤ vec_capacity out.old }
    ensures items { out.new.items ≡ out.old.items ++ moved (own (t, e) live.now) base.now }
    ensures capacity { vec_capacity out.old ≤ vec_capacity out.new }
{
    let mut rest = base;
    for w in live {
        if w.is_of(t, e) {
            let (below, above) = split(rest, w.key);
            extend(out, below);
            push(out, w);
            rest = above;
        }
    }
    extend(out, rest);
}
