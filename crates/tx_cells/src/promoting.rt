//! Which lines of the script may begin a promotion.
ghost use Rattle.std.specs.Prelude.{◌≡◌, IfOk, map};
ghost use Rattle.tx_cells.specs.Entering.{is_promoting_line};

use dtx_values::{Body, Line};
use std::alloc::{AllocError, Global};

/// Of each line, in order, whether it may begin a promotion.
pub(crate) fn promoting_of(alloc: Global, lines: &[Line]) -> Result<Vec<bool>, AllocError>
    ensures { IfOk result (λ v. v.items ≡ map (λ l. is_promoting_line l.body) lines.now) }
{
    let mut promoting = Vec::with_capacity(alloc, lines.len())?;
    for line in lines {
        promoting.push(matches!(line.body, Body::Durable(..) | Body::Marshal(_)))?;
    }
    Ok(promoting)
}
