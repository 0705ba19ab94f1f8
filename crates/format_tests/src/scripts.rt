//! Texts of scripts: each form of a command is read, and printed as it was read, and the longest script is read. Why a text is refused is said by the runs of `fault_runs`.
use script_text::{BadCause, ScriptError, print_script, read_script};
use std::alloc::{AllocError, Global};
use std::test::Fail;

/// How many lines the bytes have, or why they are no script.
fn found(alloc: Global, bytes: &[u8]) -> Result<usize, ScriptError> {
    match read_script(alloc, bytes) {
        Ok(s) => Ok(s.lines().len()),
        Err(e) => Err(e),
    }
}

/// A script with each form of each command.
const FORMS: &str = "a1 begin t1 default\na2 begin t2 0\na3 begin t3 4294967295\n\
    a1 open s1 required t4 default default\na1 open s2 requiresnew t5 60000 readuncommitted\n\
    a1 open s3 required t6 0 serializable\na1 open s4 requiresnew t7 1 repeatableread\n\
    a1 open s5 required t8 2 readcommitted\na1 open s6 required t9 3 snapshot\n\
    a1 open s7 required t10 4 chaos\na1 open s8 required t11 5 unspecified\n\
    a1 open s9 suppress\na1 finish s9\na1 close s9\na1 current\n\
    a1 volatile t1 e1 none yes\na1 volatile t1 e2 during silent\n\
    a1 durable t1 e3 r1 single no committed\na1 durable t1 e4 r16 single done silent\n\
    a1 durable t1 e5 r2 two yes\na1 promotable t1 e6 r3 yes aborted ok\n\
    a1 promotable t1 e7 r3 yes indoubt fail\na1 promotable t1 e9999 r3 yes silent silent\n\
    a1 clone t1 c1 block\na1 clone t1 c9999 rollback\na1 complete c1\na1 commit t1\n\
    a1 rollback t1\na1 marshal t1\na1 status t1\na1 await t1\na16 tick t1 1000000000\n\
    a1 do t1 99 999\na1 lose t1 b 0 1\na1 lose t1 v 2 3\na1 lose t1 e3 4 5\na1 lose t1 x3 999 6\n\
    a1 gone e3\na1 reenlist e3\na1 recovered t1 r1\na1 stop 1 lose\na1 stop 2 keep\n\
    a1 stop 99 torn\na1 restart\na1 par\n\
    a16 begin t256 4294967295\na1 open s9999 requiresnew t12 default chaos\n\
    a1 volatile t1 e9998 none no\na1 volatile t1 e8 none done\na1 volatile t1 e17 during no\n\
    a1 durable t1 e10 r1 single yes committed\na1 durable t1 e11 r2 single done indoubt\n\
    a1 durable t1 e12 r2 single no aborted\na1 durable t1 e13 r2 single silent silent\n\
    a1 promotable t1 e14 r1 yes committed ok\na1 promotable t1 e15 r1 no silent fail\n\
    a1 promotable t1 e16 r1 done aborted silent\na1 tick t1 1\na1 do t1 1 1\na1 lose t1 b 0 999\n\
    a1 lose t1 v 0 0\na1 stop 5 torn\n";

/// Whether the text is a script that is printed as it was read.
fn is_printed(alloc: Global, text: &str) -> Result<bool, AllocError> {
    match read_script(alloc, text.as_bytes()) {
        Ok(script) => {
            let printed = print_script(alloc, &script)?;
            Ok(printed.as_slice() == text.as_bytes())
        }
        Err(_) => Ok(false),
    }
}

#[test]
fn prints_what_was_read(rt: HostRuntime) -> Result<(), Fail> {
    for (text, many) in [("", 0), (FORMS, 62)] {
        let printed = is_printed(rt.alloc(), text)?;
        assert!(rt;
            printed && found(rt.alloc(), text.as_bytes()) == Ok(many),
            "at {text}"
        );
    }
    Ok(())
}

/// A script of 1,048,576 bytes.
fn whole_script(alloc: Global) -> Result<Vec<u8>, AllocError> {
    let mut bytes = Vec::new(alloc);
    bytes.extend_from_slice(b"a1 begin t1 0\n")?;
    for _ in 0..80_654 {
        bytes.extend_from_slice(b"a1 status t1\n")?;
    }
    for _ in 0..5 {
        bytes.extend_from_slice(b"a1 await t1\n")?;
    }
    Ok(bytes)
}

/// How many bytes are left of that script, what comes behind them, how many bytes that are, and how many lines they have, or why they are no script.
const ENDS: [(usize, &str, usize, Result<usize, ScriptError>); 5] = [
    (1_048_576, "", 1_048_576, Ok(80_660)),
    (
        1_048_576,
        "a1 par\n",
        1_048_583,
        Err(ScriptError::BadScript(80_661, BadCause::TooLong)),
    ),
    (
        1_048_575,
        "",
        1_048_575,
        Err(ScriptError::BadScript(80_660, BadCause::NoNewline)),
    ),
    (
        1_048_575,
        " ",
        1_048_576,
        Err(ScriptError::BadScript(80_660, BadCause::NoNewline)),
    ),
    (
        1_048_575,
        " \n",
        1_048_577,
        Err(ScriptError::BadScript(80_660, BadCause::TooLong)),
    ),
];

/// The script, with another end.
fn ended(alloc: Global, left: usize, more: &str) -> Result<Vec<u8>, AllocError> {
    let mut bytes = whole_script(alloc)?;
    bytes.truncate(left);
    bytes.extend_from_slice(more.as_bytes())?;
    Ok(bytes)
}

#[test]
fn a_script_has_at_most_1048576_bytes(rt: HostRuntime) -> Result<(), Fail> {
    for (left, more, all, want) in ENDS {
        let bytes = ended(rt.alloc(), left, more)?;
        assert!(rt;
            bytes.len() == all && found(rt.alloc(), &bytes) == want,
            "at {all}"
        );
    }
    Ok(())
}
