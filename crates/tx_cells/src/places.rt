//! Where the cell of each transaction is.
ghost use Rattle.std.specs.Prelude.{◌-◌, ◌==◌, ◌≡◌, IfOk, None, Some, if◌then◌else◌, length, slice_index_or};
ghost use Rattle.tx_cells.specs.Places.{AreFound};

use crate::cells::TxCell;
use crate::run::Run;
use dtx_values::TxNo;
use std::alloc::{AllocError, Global};

/// Keeps where the cell of this transaction is.
fn put(places: &mut Vec<Option<usize>>, t: TxNo, place: usize)
    requires { length places.old.items ≡ TxNo.MAX }
    ensures full { length places.new.items ≡ TxNo.MAX }
    ensures put { (u : TxNo) → slice_index_or places.new.items (u.value - 1) None ≡ (if t.value == u.value then Some place else slice_index_or places.old.items (u.value - 1) None) }
{
    places[t.index()] = Some(place);
}

/// Of each transaction, at the place of its number, where its cell is among these.
pub(crate) fn places_of<N: Run>(
    alloc: Global,
    cells: &[TxCell<N>],
) -> Result<Vec<Option<usize>>, AllocError>
    ensures { IfOk result (λ v. AreFound cells.now v.items) }
{
    let mut places = Vec::new(alloc);
    places.resize(TxNo::MAX as usize, None)?;
    for place in (0..cells.len()).rev() {
        put(&mut places, cells[place].t(), place);
    }
    Ok(places)
}
