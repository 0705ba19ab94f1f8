//! Frames, by tables of cases.
use dtx_values::{EnlNo, Info, Message, RmNo};
use oletx_frames::{FrameRefusal, decode, encode};
use std::test::Fail;

/// Transaction 1 of node 1.
const ID: u128 = (1 << 64) + 1;

const ENLIST: [u8; 40] = [
    3, 1, 36, 0, 0, 0, 0, 0, 0, 0, 0, 1, 0, 0, 0, 0, 0, 0, 0, 1, 0, 0, 0, 0, 0, 0, 0, 0, 0, 0, 0,
    0, 0, 0, 0, 1, 1, 0, 0, 0,
];

/// The frames of all messages, one after the other, with transaction 1 of node 1 and its enlistment 1 of manager 1.
const FRAMES: &[u8] = b"\x01\x01\0\0\x01\x02\0\0\x01\x03\0\0\
    \x01\x04\x10\0\0\0\0\0\0\0\0\x01\0\0\0\0\0\0\0\x01\x01\x05\0\0\x01\x06\0\0\
    \x01\x07\0\0\x01\x08\0\0\
    \x02\x01\x10\0\0\0\0\0\0\0\0\x01\0\0\0\0\0\0\0\x01\x02\x02\0\0\x02\x03\0\0\x02\x04\0\0\
    \x02\x05\x01\0\x02\x02\x06\0\0\x02\x07\0\0\x02\x08\0\0\x02\x09\0\0\
    \x03\x01\x24\0\0\0\0\0\0\0\0\x01\0\0\0\0\0\0\0\x01\0\0\0\0\0\0\0\0\0\0\0\0\0\0\0\x01\x01\0\0\0\
    \x03\x02\0\0\x03\x03\0\0\x03\x04\0\0\x03\x05\0\0\x03\x06\0\0\x03\x07\x01\0\x01\
    \x03\x08\0\0\x03\x09\0\0\x03\x0a\0\0\x03\x0b\0\0\x03\x0c\0\0\x03\x0d\0\0\x03\x0e\0\0\
    \x04\x01\x24\0\0\0\0\0\0\0\0\x01\0\0\0\0\0\0\0\x01\0\0\0\0\0\0\0\0\0\0\0\0\0\0\0\x01\x01\0\0\0\
    \x04\x02\0\0\x04\x03\0\0\x04\x04\0\0";

/// Whether the bytes are the frames of these messages, one after the other: each is written so, and read from them, whatever is after it.
fn go_both_ways(bytes: &[u8], messages: &[Message]) -> bool {
    let mut rest = bytes;
    for m in messages {
        let mut into = [7; 40];
        let length = encode(m, &mut into);
        if length > rest.len() || decode(rest) != Ok((*m, length)) {
            return false;
        }
        let (frame, after) = rest.split_at(length);
        if !into.starts_with(frame) {
            return false;
        }
        rest = after;
    }
    rest.is_empty()
}

#[test]
fn messages_go_both_ways(rt: HostRuntime) -> Result<(), Fail> {
    let rm = RmNo::new(1).ok_or("no such manager")?;
    let enl = EnlNo::new(1).ok_or("no such enlistment")?;
    let info = Info { id: ID, rm, enl };
    let messages = [
        Message::BeginBegin,
        Message::BeginCommit,
        Message::BeginAbort,
        Message::BeginBegun(ID),
        Message::BeginCommitted,
        Message::BeginAborted,
        Message::BeginCommitOne,
        Message::BeginInDoubt,
        Message::VoterVoter(ID),
        Message::VoterYes,
        Message::VoterNo,
        Message::VoterCreated,
        Message::VoterRefused(2),
        Message::VoterAsk,
        Message::VoterCommit,
        Message::VoterAbort,
        Message::VoterInDoubt,
        Message::EnlistEnlist(info),
        Message::EnlistPrepared,
        Message::EnlistNo,
        Message::EnlistReadonly,
        Message::EnlistAck,
        Message::EnlistEnlisted,
        Message::EnlistRefused(1),
        Message::EnlistPrepare,
        Message::EnlistCommit,
        Message::EnlistAbort,
        Message::EnlistSingle,
        Message::EnlistOneCommitted,
        Message::EnlistOneAborted,
        Message::EnlistOneInDoubt,
        Message::ReenlistReenlist(info),
        Message::ReenlistAck,
        Message::ReenlistCommitted,
        Message::ReenlistAborted,
    ];
    assert!(rt; go_both_ways(FRAMES, &messages));
    Ok(())
}

/// Bytes that don't begin with a frame, and why.
const REFUSED: [(&[u8], FrameRefusal); 17] = [
    (b"", FrameRefusal::Short(0)),
    (b"\0", FrameRefusal::BadType(0)),
    (b"\x05\x01\0\0", FrameRefusal::BadType(0)),
    (b"\x04", FrameRefusal::Short(1)),
    (b"\x01\0", FrameRefusal::BadTag(1)),
    (b"\x01\x09\0\0", FrameRefusal::BadTag(1)),
    (b"\x02\x0a", FrameRefusal::BadTag(1)),
    (b"\x03\x0f", FrameRefusal::BadTag(1)),
    (b"\x04\x05", FrameRefusal::BadTag(1)),
    (b"\x01\x01\0", FrameRefusal::Short(3)),
    (b"\x01\x01\0\x01", FrameRefusal::BadLength(2)),
    (b"\x01\x04\0\0", FrameRefusal::BadLength(2)),
    (b"\x01\x04\x10\0", FrameRefusal::Short(4)),
    (b"\x01\x04\x10\0\0", FrameRefusal::Short(5)),
    (
        b"\x04\x01\x24\0\0\0\0\0\0\0\0\x01\0\0\0\0\0\0\0\x01",
        FrameRefusal::Short(20),
    ),
    (b"\x02\x05\x01\0\x03", FrameRefusal::BadValue(4)),
    (b"\x03\x07\x01\0\0", FrameRefusal::BadValue(4)),
];

/// The place of a byte, another one there, and the place of the field that is bad then.
const BAD_BYTES: [(usize, u8, u8); 6] = [
    (11, 0, 4),
    (19, 0, 12),
    (35, 17, 20),
    (35, 0, 20),
    (36, 0, 36),
    (37, 0x28, 36),
];

/// The frame of an enlistment with another byte.
fn changed(at: usize, byte: u8) -> [u8; 40] {
    let mut enlist = ENLIST;
    if at < 40 {
        enlist[at] = byte;
    }
    enlist
}

#[test]
fn the_first_fault_is_told(rt: HostRuntime) {
    for (bytes, refusal) in REFUSED {
        assert!(rt; decode(bytes) == Err(refusal));
    }
    for (at, byte, field) in BAD_BYTES {
        assert!(rt;
            decode(&changed(at, byte)) == Err(FrameRefusal::BadValue(field)),
            "at {at}"
        );
    }
}
