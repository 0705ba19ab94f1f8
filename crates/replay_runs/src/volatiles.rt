//! The volatiles of a script.
ghost use Rattle.std.specs.Prelude.{◌-◌, ◌≡◌, ◌||◌, false, IfOk, length, slice_index_or};
ghost use Rattle.dtx_values.specs.declared.number.EnlNo.{EnlNo};
ghost use Rattle.replay_runs.specs.Volatiles.{AreVolatiles, volatile_in};

use dtx_values::{Body, EnlNo, Line};
use std::alloc::{AllocError, Global};

/// Keeps that a command makes a volatile.
fn keep(volatiles: &mut Vec<bool>, body: Body)
    requires { length volatiles.old.items ≡ EnlNo.MAX }
    ensures full { length volatiles.new.items ≡ EnlNo.MAX }
    ensures kept { (e : EnlNo) → slice_index_or volatiles.new.items (e.value - 1) false ≡ (volatile_in e.value body || slice_index_or volatiles.old.items (e.value - 1) false) }
{
    if let Body::Volatile(_, e, _, _) = body {
        volatiles[e.index()] = true;
    }
}

/// Whether the lines make an enlistment a volatile, at the place of its number.
pub fn volatiles_of(alloc: Global, lines: &[Line]) -> Result<Vec<bool>, AllocError>
    ensures full { IfOk result (λ v. length v.items ≡ EnlNo.MAX) }
    ensures volatiles { IfOk result (λ v. AreVolatiles lines.now lines.now v.items) }
{
    let mut volatiles = Vec::new(alloc);
    volatiles.resize(EnlNo::MAX as usize, false)?;
    for line in lines {
        keep(&mut volatiles, line.body);
    }
    Ok(volatiles)
}
