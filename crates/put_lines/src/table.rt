//! The text of a table.
ghost use Rattle.std.specs.Prelude.{◌≡◌, ◌≤◌, ◌∷◌, ◌++◌, [], IfOk, codes, decimal, length};
ghost use Rattle.heard_notes.specs.Tables.{table_text};
ghost use Rattle.put_lines.specs.Rows.{pairs_of};

use line_tail::Tail;
use std::alloc::{AllocError, Global};

/// A key with its value.
#[derive(Clone, Copy, PartialEq, Eq, Debug)]
pub struct TableRow {
    pub key: u32,
    pub value: u64,
}

/// Puts the line of a row.
fn put_row(tail: &mut Tail, row: &TableRow)
    requires { tail.old ≡ [] }
    ensures { tail.new ≡ decimal row.now.key ++ codes " " ++ decimal row.now.value ++ 10 ∷ [] }
{
    tail.put(b"\n");
    tail.put_number(row.value);
    tail.put(b" ");
    tail.put_number(u64::from(row.key));
}

/// The text of a table: a line KEY VALUE for each row.
///
/// # Errors
///
/// [`AllocError`] where memory ran out.
pub fn table_lines(alloc: Global, rows: &[TableRow]) -> Result<Vec<u8>, AllocError>
    ensures { IfOk result (λ v. v.items ≡ table_text (pairs_of rows.now)) }
{
    let mut text = Vec::new(alloc);
    let mut tail = Tail::new();
    for row in rows {
        tail.clear();
        put_row(&mut tail, row);
        text.extend_from_slice(tail.as_slice())?;
    }
    Ok(text)
}
