//! The enlistments and the clones that calls make.
ghost use Rattle.std.specs.Prelude.{◌≡◌, ◌==◌};
ghost use Rattle.dtx_model.specs.Caused.{made_by};
ghost use Rattle.dtx_model.specs.Words.{has};
ghost use Rattle.world_parts.specs.Names.{are_same, is_maker, named};

use dtx_model::EnteredCall;
use dtx_values::{Call, CloneNo, EnlNo};

/// What a call makes.
#[derive(Clone, Copy)]
pub(crate) enum Made {
    Enlistment(EnlNo),
    Clone(CloneNo),
}

/// What a call makes, where it makes something.
fn made_by(c: &Call) -> Option<Made>
    ensures { named result ≡ made_by c.now }
{
    match *c {
        Call::Volatile(_, e, _, _)
        | Call::Durable(_, e, _, _)
        | Call::Promotable(_, e, _, _, _, _) => Some(Made::Enlistment(e)),
        Call::Clone(_, c, _) => Some(Made::Clone(c)),
        _ => None,
    }
}

/// Whether both are the same enlistment, or the same clone.
fn are_same(x: Option<Made>, y: Option<Made>) -> bool
    ensures { result ≡ are_same x y }
{
    match (x, y) {
        (Some(Made::Enlistment(e)), Some(Made::Enlistment(f))) => e == f,
        (Some(Made::Clone(c)), Some(Made::Clone(d))) => c == d,
        _ => false,
    }
}

/// Whether the second call makes what the first makes.
fn makes(c: &Call, d: &Call) -> bool
    ensures { result ≡ is_maker (made_by c.now) d.now }
{
    are_same(made_by(c), made_by(d))
}

/// Whether one of these calls makes what the call makes.
pub fn is_made(calls: &[EnteredCall], c: &Call) -> bool
    ensures { result ≡ has (λ k. is_maker (made_by c.now) k.call) calls.now }
{
    calls.iter().any(|k| makes(c, &k.call))
}

/// Whether the call of a line is among these.
pub fn is_entered(calls: &[EnteredCall], line: u32) -> bool
    ensures { result ≡ has (λ k. k.line == line) calls.now }
{
    calls.iter().any(|k| k.line == line)
}
