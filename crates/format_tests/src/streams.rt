//! Frames that come in pieces, by runs of calls whose answers were worked out by hand. Each run begins with a new reader.
use dtx_values::Message;
use oletx_frames::{Fed, FrameReader, FrameRefusal};
use std::process::Abort;

/// A piece, how many of its bytes are taken, the answer, and what the end of the bytes would mean then.
type Step = (&'static [u8], usize, Fed, Option<FrameRefusal>);

const BEGIN: Fed = Fed::Msg(Message::BeginBegin);

const COMMIT: Fed = Fed::Msg(Message::BeginCommit);

/// With transaction 5 of node 1.
const BEGUN: Fed = Fed::Msg(Message::BeginBegun((1 << 64) + 5));

const NO_TYPE: Fed = Fed::Bad(FrameRefusal::BadType(0));

const NO_TAG: Fed = Fed::Bad(FrameRefusal::BadTag(1));

const OTHER_LENGTH: Fed = Fed::Bad(FrameRefusal::BadLength(2));

const BAD_VALUE: Fed = Fed::Bad(FrameRefusal::BadValue(4));

/// Two frames, each in two pieces.
const HALVES: [Step; 4] = [
    (b"\x01\x01\0", 3, Fed::More, Some(FrameRefusal::Short(3))),
    (b"\0\x01\x02", 1, BEGIN, None),
    (b"\x01\x02", 2, Fed::More, Some(FrameRefusal::Short(2))),
    (b"\0\0", 2, COMMIT, None),
];

/// A piece without a byte, after a message.
const NO_BYTE: [Step; 3] = [
    (b"\x01\x02", 2, Fed::More, Some(FrameRefusal::Short(2))),
    (b"\0\0", 2, COMMIT, None),
    (b"", 0, Fed::More, None),
];

/// A type is told by one byte, and ends the reader.
const TYPE: [Step; 3] = [
    (b"\x05", 1, NO_TYPE, None),
    (b"\x01", 0, NO_TYPE, None),
    (b"", 0, NO_TYPE, None),
];

/// A tag is told by two.
const TAG: [Step; 3] = [
    (b"\x01", 1, Fed::More, Some(FrameRefusal::Short(1))),
    (b"\x63", 1, NO_TAG, None),
    (b"\x01", 0, NO_TAG, None),
];

/// A length is told by four.
const LENGTH: [Step; 3] = [
    (b"\x01\x01\x01", 3, Fed::More, Some(FrameRefusal::Short(3))),
    (b"\0", 1, OTHER_LENGTH, None),
    (b"\x01\x01", 0, OTHER_LENGTH, None),
];

/// A cause is told by its frame.
const CAUSE: [Step; 2] = [
    (
        b"\x02\x05\x01\0",
        4,
        Fed::More,
        Some(FrameRefusal::Short(4)),
    ),
    (b"\x03", 1, BAD_VALUE, None),
];

/// A piece of more than one frame, which is fed again.
const WHOLE: [Step; 3] = [
    (b"\x01\x01\0\0\x01\x02\0\0\x01\x04", 4, BEGIN, None),
    (b"\x01\x02\0\0\x01\x04", 4, COMMIT, None),
    (b"\x01\x04", 2, Fed::More, Some(FrameRefusal::Short(2))),
];

/// An identifier in pieces.
const IDENTIFIER: [Step; 7] = [
    (b"\x01\x04", 2, Fed::More, Some(FrameRefusal::Short(2))),
    (b"\x10\0", 2, Fed::More, Some(FrameRefusal::Short(4))),
    (
        b"\0\0\0\0\0\0\0",
        7,
        Fed::More,
        Some(FrameRefusal::Short(11)),
    ),
    (b"\x01", 1, Fed::More, Some(FrameRefusal::Short(12))),
    (
        b"\0\0\0\0\0\0\0",
        7,
        Fed::More,
        Some(FrameRefusal::Short(19)),
    ),
    (b"\x05\x01\x05", 1, BEGUN, None),
    (b"\x01\x05", 2, Fed::More, Some(FrameRefusal::Short(2))),
];

/// An identifier is told by its frame.
const ZEROS: [Step; 1] = [(
    b"\x01\x04\x10\0\0\0\0\0\0\0\0\0\0\0\0\0\0\0\0\0",
    20,
    BAD_VALUE,
    None,
)];

/// Feeds a piece, and looks at the answer and at what the end would mean.
fn takes(rt: &impl Abort, reader: &mut FrameReader, step: Step) {
    let (piece, bytes, answer, end) = step;
    let (taken, given) = reader.feed(piece);
    assert_eq!(rt; taken, bytes);
    assert_eq!(rt; given, answer);
    assert_eq!(rt; reader.end(), end);
}

#[test]
fn pieces_are_read_as_by_hand(rt: HostRuntime) {
    let runs: [&[Step]; 9] = [
        &HALVES,
        &NO_BYTE,
        &TYPE,
        &TAG,
        &LENGTH,
        &CAUSE,
        &WHOLE,
        &IDENTIFIER,
        &ZEROS,
    ];
    for run in runs {
        let mut reader = FrameReader::new();
        for step in run {
            takes(&rt, &mut reader, *step);
        }
    }
}
