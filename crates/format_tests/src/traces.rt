//! Texts of traces: bad lines, and the forms of entries, answers and messages that no example has.
use dtx_values::{Answer, Conn, Dir, EnlNo, Entry, Iso, Message, Outcome, Place, Request};
use std::alloc::{AllocError, Global};
use std::test::Fail;
use trace_text::{Trace, TraceError, print_trace, read_trace};

/// A text, and how many entries it has, or its first bad line.
const TEXTS: [(&str, Result<usize, TraceError>); 18] = [
    ("", Ok(0)),
    ("1 t1 sealed\n", Ok(1)),
    ("1 t1 sealed\n2 a16 late\n3 log logged\n", Ok(3)),
    ("2 t1 sealed\n", Err(TraceError::BadLine(1))),
    ("01 t1 sealed\n", Err(TraceError::BadLine(1))),
    ("1 t1 sealed", Err(TraceError::BadLine(1))),
    ("1 t1 sealed\n2 t1 late", Err(TraceError::BadLine(2))),
    ("1 t1 sealed\n\n", Err(TraceError::BadLine(2))),
    ("1 t1 sealed \n", Err(TraceError::BadLine(1))),
    ("1  t1 sealed\n", Err(TraceError::BadLine(1))),
    ("1 t257 sealed\n", Err(TraceError::BadLine(1))),
    ("1 t0 sealed\n", Err(TraceError::BadLine(1))),
    ("1 t01 sealed\n", Err(TraceError::BadLine(1))),
    ("1 t1 sent b up yes\n", Err(TraceError::BadLine(1))),
    ("1 t1 began 4294967295\n", Ok(1)),
    ("1 t1 began 4294967296\n", Err(TraceError::BadLine(1))),
    (
        "1 t1 promoted 00000000-0000-0001-0000-00000000000a two\n",
        Ok(1),
    ),
    (
        "1 t1 promoted 00000000-0000-0001-0000-00000000000A two\n",
        Err(TraceError::BadLine(1)),
    ),
];

/// How many entries a text has, or its first bad line.
fn found(alloc: Global, text: &str) -> Result<usize, TraceError> {
    match read_trace(alloc, text.as_bytes()) {
        Ok(trace) => Ok(trace.len()),
        Err(e) => Err(e),
    }
}

#[test]
fn finds_entries_and_bad_lines(rt: HostRuntime) {
    for (text, want) in TEXTS {
        assert!(rt; found(rt.alloc(), text) == want, "at {text}");
    }
}

/// The forms that no example has.
const OTHERS: &str =
    "1 log logfull\n2 log request e1 abort\n3 log cut x9999 999 0\n4 log down e1 up\n\
    5 log sent v down refused 2\n6 log sent e1 down refused 1\n7 log answer 7 fault\n\
    8 log answer 7 notalog 512\n9 log answer 7 connected e9999\n10 log answer 7 stopped\n\
    11 log answer 7 ended indoubt\n12 log answer 7 isolation repeatableread readcommitted\n\
    13 log answer 7 isolation readuncommitted chaos\n\
    14 log answer 7 isolation snapshot unspecified\n\
    15 log answer 7 id 01234567-89ab-cdef-0000-0000000000ff\n\
    16 log clock 18446744073709551615\n";

/// Whether these are the entries of a trace, all at the log.
fn are_of(trace: &Trace, entries: &[Entry]) -> bool {
    if trace.len() != entries.len() {
        return false;
    }
    for i in 0..entries.len() {
        if trace.at(i) != (Place::Log, entries[i]) {
            return false;
        }
    }
    true
}

/// Whether the text is that of these entries, read and printed again.
fn goes_both_ways(alloc: Global, text: &str, entries: &[Entry]) -> Result<bool, AllocError> {
    match read_trace(alloc, text.as_bytes()) {
        Ok(trace) => {
            let printed = print_trace(alloc, &trace, false)?;
            Ok(printed.as_slice() == text.as_bytes() && are_of(&trace, entries))
        }
        Err(_) => Ok(false),
    }
}

#[test]
fn what_no_example_has_goes_both_ways(rt: HostRuntime) -> Result<(), Fail> {
    let e1 = EnlNo::new(1).ok_or("no such number")?;
    let e9 = EnlNo::new(9999).ok_or("no such number")?;
    let entries = [
        Entry::LogFull,
        Entry::Requested(e1, Request::Abort),
        Entry::Cut(Conn::Again(e9), 999, 0),
        Entry::Down(Conn::Enl(e1), Dir::Up),
        Entry::Sent(Conn::Voter, Dir::Down, Message::VoterRefused(2)),
        Entry::Sent(Conn::Enl(e1), Dir::Down, Message::EnlistRefused(1)),
        Entry::Answered(7, Answer::Fault),
        Entry::Answered(7, Answer::NotALog(512)),
        Entry::Answered(7, Answer::Connected(e9)),
        Entry::Answered(7, Answer::Stopped),
        Entry::Answered(7, Answer::Ended(Outcome::InDoubt)),
        Entry::Answered(
            7,
            Answer::Isolation(Iso::RepeatableRead, Iso::ReadCommitted),
        ),
        Entry::Answered(7, Answer::Isolation(Iso::ReadUncommitted, Iso::Chaos)),
        Entry::Answered(7, Answer::Isolation(Iso::Snapshot, Iso::Unspecified)),
        Entry::Answered(7, Answer::Id(0x0123_4567_89ab_cdef_0000_0000_0000_00ff)),
        Entry::Clock(u64::MAX),
    ];
    let goes = goes_both_ways(rt.alloc(), OTHERS, &entries)?;
    assert!(rt; goes);
    Ok(())
}
