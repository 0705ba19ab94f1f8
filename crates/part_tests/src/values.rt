//! Identifiers and recovery information.
use dtx_values::{BadInfo, EnlNo, Info, RmNo, is_identifier, parse_info, write_info};

/// A number, and whether it is an identifier: it has two halves that are more than 0.
const IDENTIFIERS: [(u128, bool); 5] = [
    (0, false),
    (1, false),
    (1 << 64, false),
    ((1 << 64) + 1, true),
    (u128::MAX, true),
];

/// The information of enlistment 9,999 of manager 16 in transaction 512 of node 1, as bytes.
const BYTES: [u8; 36] = [
    0, 0, 0, 0, 0, 0, 0, 1, 0, 0, 0, 0, 0, 0, 2, 0, 0, 0, 0, 0, 0, 0, 0, 0, 0, 0, 0, 0, 0, 0, 0,
    16, 0x0f, 0x27, 0, 0,
];

/// The place of a byte, what stands there in place of what the information has, and the place of the field that is bad then.
const BAD_BYTES: [(usize, u8, u8); 6] = [
    (7, 0, 0),
    (14, 0, 8),
    (31, 17, 16),
    (31, 0, 16),
    (16, 1, 16),
    (33, 0x28, 32),
];

/// The information with another byte.
fn with_byte(at: usize, byte: u8) -> [u8; 36] {
    let mut bytes = BYTES;
    if at < 36 {
        bytes[at] = byte;
    }
    bytes
}

#[test]
fn information_is_read_as_it_was_written(rt: HostRuntime) {
    for (n, is) in IDENTIFIERS {
        assert!(rt; is_identifier(n) == is);
    }
    let i = Info {
        id: (1 << 64) + 512,
        rm: RmNo::new(16).expect(&rt, "no such number"),
        enl: EnlNo::new(9999).expect(&rt, "no such number"),
    };
    assert!(rt; write_info(&i) == BYTES && parse_info(&BYTES) == Ok(i));
    assert!(rt; parse_info(&BYTES[..35]) == Err(BadInfo::Length(35)));
    assert!(rt; parse_info(&[0; 37]) == Err(BadInfo::Length(37)));
    assert!(rt; parse_info(&[0; 36]) == Err(BadInfo::Value(0)));
    for (at, byte, field) in BAD_BYTES {
        assert!(rt; parse_info(&with_byte(at, byte)) == Err(BadInfo::Value(field)));
    }
}
