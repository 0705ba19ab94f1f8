//! Writes records.
ghost use Rattle.std.specs.Prelude.{◌≡◌, length, Ok, false};
ghost use Rattle.kv_resource.specs.Bytes.{kv_record_at};
ghost use Rattle.kv_resource.specs.Notes.{record_with};

use crate::draft::Draft;
use crate::layout::{COUNT, ENLISTMENT, EPOCH, FIRST_WRITE, FORMAT, TRANSACTION, WRITE_BYTES};
use slotted::{RECORD_BYTES, put};

/// The bytes of a draft's record after its gate. It isn't marked.
pub fn written_record(d: &Draft) -> [u8; RECORD_BYTES]
    ensures again { kv_record_at result ≡ Ok (record_with false d.now) }
    ensures long { length result ≡ RECORD_BYTES }
{
    let mut bytes = [0; RECORD_BYTES];
    put(&mut bytes, 0, &[FORMAT]);
    let writes = d.writes();
    put(&mut bytes, COUNT, &(writes.len() as u16).to_le_bytes());
    let transaction = d.transaction();
    put(
        &mut bytes,
        TRANSACTION,
        &transaction.t().get().to_le_bytes(),
    );
    put(&mut bytes, ENLISTMENT, &d.enlistment().get().to_le_bytes());
    for (i, w) in writes.iter().enumerate() {
        let at = FIRST_WRITE + WRITE_BYTES * i;
        put(&mut bytes, at, &w.0.to_le_bytes());
        put(&mut bytes, at + 4, &w.1.to_le_bytes());
    }
    put(&mut bytes, EPOCH, &transaction.epoch().to_le_bytes());
    bytes
}
