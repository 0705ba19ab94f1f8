//! Writes records.
ghost use Rattle.std.specs.Prelude.{◌≡◌, length};
ghost use Rattle.dtx_model.specs.Log.{record_of};
ghost use Rattle.coordinator_log.specs.Spelling.{record_bytes};

use crate::layout::{COUNT, FIRST_PAIR, FORMAT, IDENTIFIER, PAIR_BYTES};
use dtx_values::{LogRecord, write_pair};
use slotted::{RECORD_BYTES, put};

/// Writes the bytes of a record that come after its gate.
pub fn write_record(r: &LogRecord, into: &mut [u8])
    requires { length into.old ≡ RECORD_BYTES }
    ensures { into.new ≡ record_bytes (record_of r.now) }
{
    into.fill(0);
    let pairs = r.pairs();
    let counts = (pairs.len() as u16).to_le_bytes();
    let ids = r.id.to_be_bytes();
    put(into, 0, &[FORMAT]);
    put(into, COUNT, &counts);
    put(into, IDENTIFIER, &ids);
    for (i, pair) in pairs.iter().enumerate() {
        let bytes = write_pair(*pair);
        put(into, FIRST_PAIR + PAIR_BYTES * i, &bytes);
    }
}
