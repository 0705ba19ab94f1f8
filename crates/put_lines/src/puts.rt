//! Whether puts are good, by the script behind them.
ghost use Rattle.std.specs.Prelude.{◌≡◌, ◌≤◌, ◌∷◌, [], List, None, IfOk, IfErr, length, true};
ghost use Rattle.dtx_values.specs.declared.limits.TheConstants.{SCRIPT_BYTES};
ghost use Rattle.dtx_model.specs.Grammar.{IsScript};
ghost use Rattle.heard_notes.specs.Whose.{whose};
ghost use Rattle.put_lines.specs.Input.{are_good};
ghost use Rattle.heard_notes.specs.Puts.{put_fault};
ghost use Rattle.heard_notes.specs.declared.put.Put.{Put};
ghost use Rattle.put_lines.specs.Keys.{AreKeys};
ghost use Rattle.put_lines.specs.Names.{named_at};
ghost use Rattle.put_lines.specs.Refusals.{IsBadPut};

use crate::error::InputError;
use crate::keys::Keys;
use crate::names::Names;
use dtx_values::{BadCause, EnlNo, Line, TxNo};
use heard_notes::{Of, Put};
use std::alloc::{AllocError, Global};

/// The first fault of a put, which is added where it has none.
fn fault(
    names: &Names,
    keys: &mut Keys,
    put: &Put,
    most: usize,
) -> Result<Option<BadCause>, AllocError>
    requires transactions { length names.now.transactions.items ≡ TxNo.MAX }
    requires enlistments { length names.now.enlistments.items ≡ EnlNo.MAX }
    requires keys { length keys.old.counts.items ≡ EnlNo.MAX }
    ensures fault { IfOk result (λ f. (before : List Put) → AreKeys before keys.old → f ≡ put_fault most (named_at names.now put.now) before put.now) }
    ensures kept { IfOk result (λ f. (before : List Put) → AreKeys before keys.old → f ≡ None → AreKeys (put.now ∷ before) keys.new) }
{
    match names.fault(put) {
        Some(cause) => Ok(Some(cause)),
        None => keys.add(put, most),
    }
}

/// Looks at each put, in order.
///
/// # Errors
///
/// - [`InputError::Bad`] with the first bad one and its first cause.
/// - [`InputError::Memory`] where memory ran out.
pub fn check_puts(
    alloc: Global,
    puts: &[Put],
    lines: &[Line],
    most: usize,
    of: Of,
) -> Result<(), InputError>
    requires script { IsScript lines.now }
    requires few { length puts.now ≤ SCRIPT_BYTES }
    ensures ok { IfOk result (λ u. are_good most lines.now (whose of) [] puts.now ≡ true) }
    ensures bad { IfErr result (λ e. IsBadPut most lines.now (whose of) puts.now e) }
{
    let names = Names::of_script(alloc, lines, of)?;
    let mut keys = Keys::new(alloc)?;
    for (i, put) in puts.iter().enumerate() {
        match fault(&names, &mut keys, put, most)? {
            Some(cause) => return Err(InputError::Bad(i as u32 + 1, cause)),
            None => {}
        }
    }
    Ok(())
}
