//! The calls that wait, in order of their lines.
ghost use Rattle.std.specs.Prelude.{◌≡◌, ◌<◌, ◌≤◌, IfSome, length, find, slice_get, vec_len, vec_capacity};
ghost use Rattle.std.specs.List.{insert};
ghost use Rattle.dtx_values.specs.Table.{how_many, insert_by};
ghost use Rattle.dtx_model.specs.Waiting.{Waiter, class_by, is_place, is_place_of, waiter_line, wanted_by};
ghost use Rattle.half_parts.specs.Half.{is_awaited, waits_at};
ghost use Rattle.half_parts.specs.Waits.{without};

use dtx_model::Wanted;
use dtx_values::{Call, Class, EnlNo, Support};

/// The index at which a call of this line goes.
fn place_in_order(waits: &[(u32, Wanted)], n: u32) -> usize
    ensures within { result ≤ length waits.now }
    ensures there { (x : Waiter) → waiter_line x ≡ n → insert waits.now result x ≡ insert_by waiter_line x waits.now }
{
    for (i, w) in waits.iter().enumerate() {
        if w.0 >= n {
            return i;
        }
    }
    waits.len()
}

/// Adds a call. The list has room for it.
pub fn add(waits: &mut Vec<(u32, Wanted)>, n: u32, wanted: Wanted)
    requires { vec_len waits.old < vec_capacity waits.old }
    ensures items { waits.new.items ≡ insert_by waiter_line (n, wanted) waits.old.items }
    ensures capacity { vec_capacity waits.old ≤ vec_capacity waits.new }
{
    let at = place_in_order(waits, n);
    match waits.insert(at, (n, wanted)) {
        Ok(()) => {}
        Err(_) => unreachable!(),
    }
}

/// Takes the call of this line away.
pub fn remove(waits: &mut Vec<(u32, Wanted)>, n: u32)
    ensures items { waits.new.items ≡ without n waits.old.items }
    ensures capacity { vec_capacity waits.new ≡ vec_capacity waits.old }
{
    waits.retain(|w| w.0 != n);
}

/// The call that waits at an index.
pub fn get(waits: &[(u32, Wanted)], i: usize) -> Option<(u32, Wanted)>
    ensures value { result ≡ slice_get waits.now i }
    ensures within { IfSome result (λ w. i < length waits.now) }
{
    if i < waits.len() {
        Some(waits[i])
    } else {
        None
    }
}

/// Whether the call of this line waits.
pub fn waits_at(waits: &[(u32, Wanted)], n: u32) -> bool
    ensures { result ≡ waits_at waits.now n }
{
    waits.iter().any(|w| w.0 == n)
}

/// Whether it waits for a place.
fn is_place(w: &(u32, Wanted)) -> bool
    ensures { result ≡ is_place w.now }
{
    match w.1 {
        Wanted::Place(_, _, _) => true,
        Wanted::Identifier => false,
    }
}

/// Whether it waits for the place of this enlistment.
fn is_place_of(w: &(u32, Wanted), e: EnlNo) -> bool
    ensures { result ≡ is_place_of e.value w.now }
{
    match w.1 {
        Wanted::Place(f, _, _) => f == e,
        Wanted::Identifier => false,
    }
}

/// Whether a call waits for the place of this enlistment.
pub fn is_awaited(waits: &[(u32, Wanted)], e: EnlNo) -> bool
    ensures { result ≡ is_awaited waits.now e.value }
{
    waits.iter().any(|w| is_place_of(w, e))
}

/// The call that waits for the place of this enlistment.
pub fn place_of(waits: &[(u32, Wanted)], e: EnlNo) -> Option<(u32, Wanted)>
    ensures { result ≡ find (is_place_of e.value) waits.now }
{
    waits.iter().copied().find(|w| is_place_of(w, e))
}

/// How many calls wait for a place.
pub fn places(waits: &[(u32, Wanted)]) -> usize
    ensures { result ≡ how_many is_place waits.now }
{
    waits.iter().filter(|w| is_place(w)).count()
}

/// The class of a durable enlistment that is made at the coordinator.
fn class_by(support: Support) -> Class
    ensures { result ≡ class_by support }
{
    match support {
        Support::SinglePhase(_, _) => Class::DurableSingle,
        Support::TwoPhase(_) => Class::DurableTwo,
    }
}

/// What a call waits for that has to wait.
pub fn wanted_by(c: &Call) -> Wanted
    ensures { result ≡ wanted_by c.now }
{
    match *c {
        Call::Durable(_, e, r, support) => Wanted::Place(e, r, class_by(support)),
        _ => Wanted::Identifier,
    }
}
