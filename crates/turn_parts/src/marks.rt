//! The marks of replies that are out, and the replies that are pending.
ghost use Rattle.std.specs.Prelude.{◌≡◌, IfSome, is_some, true};
ghost use Rattle.dtx_model.specs.Steps.{pending};
ghost use Rattle.dtx_model.specs.Words.{kth};
ghost use Rattle.tx_world.specs.Stepping.{reply_in};
ghost use Rattle.turn_parts.specs.Marks.{is_due, is_out, is_that, is_to, same_note, taken_off};

use dtx_values::{EnlNo, Note};
use tx_world::TxWorld;

/// Whether both are the same note.
fn same_note(a: Note, b: Note) -> bool
    ensures { result ≡ same_note a b }
{
    a == b
}

/// Whether it is a reply of this enlistment to this note.
fn is_to(x: (EnlNo, Note), y: (EnlNo, Note)) -> bool
    ensures { result ≡ is_to x y }
{
    x.0 == y.0 && same_note(x.1, y.1)
}

/// Whether it is a reply of this enlistment to this note, where there is one.
fn is_that(x: (EnlNo, Note), y: Option<(EnlNo, Note)>) -> bool
    ensures { result ≡ is_that x y }
{
    match y {
        Some(y) => is_to(x, y),
        None => false,
    }
}

/// Whether the reply is out.
pub fn is_out(out: &[(EnlNo, Note)], x: (EnlNo, Note)) -> bool
    ensures { result ≡ is_out out.now x }
{
    out.iter().any(|y| is_to(x, *y))
}

/// Takes the mark of a reply off.
pub fn take_off(out: &mut Vec<(EnlNo, Note)>, x: (EnlNo, Note))
    ensures { out.new.items ≡ taken_off x out.old.items }
{
    out.retain(|y| !is_to(x, *y));
}

/// The place of the pending reply of the enlistment to this note, from 1; `None` where none is pending.
pub fn place_of(world: &TxWorld, x: (EnlNo, Note)) -> Option<u32>
    ensures due { is_some result ≡ is_due world.now.world x }
    ensures place { IfSome result (λ k. is_that x (reply_in world.now.world (kth (pending world.now.world) k)) ≡ true) }
{
    let count = world.pending();
    for k in 0..count {
        if is_that(x, world.due_at(k + 1)) {
            return Some(k + 1);
        }
    }
    None
}

/// Whether a reply of the enlistment to this note is pending.
pub fn is_due(world: &TxWorld, x: (EnlNo, Note)) -> bool
    ensures { result ≡ is_due world.now.world x }
{
    place_of(world, x).is_some()
}
