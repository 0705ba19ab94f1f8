//! Where an entry stands.
ghost use Rattle.std.specs.Prelude.{◌≡◌, ◌++◌, OnOk};
ghost use Rattle.outcome_reasons.specs.Moments.{line_in};
ghost use Rattle.reason_text.specs.Phrases.{phrases_text};
ghost use Rattle.reason_text.specs.Sentences.{by_entry, by_line};

use crate::phrases::{Head, push_phrases};
use outcome_reasons::{Caller, Moment};
use std::alloc::AllocError;

/// The line of a call; 0 where there is none.
fn line_in(caller: Option<Caller>) -> u32
    ensures { result ≡ line_in caller }
{
    match caller {
        Some(caller) => caller.line,
        None => 0,
    }
}

/// Appends an entry's line and number.
pub(crate) fn push_by_line(text: &mut Vec<u8>, m: Moment) -> Result<(), AllocError>
    ensures { OnOk result (text.new.items ≡ text.old.items ++ phrases_text (by_line m)) }
{
    let line = u64::from(line_in(m.caller));
    push_phrases(
        text,
        &[
            (Head::Nothing, b" (line "),
            (Head::Number(line), b", entry "),
            (Head::Number(m.entry), b")"),
        ],
    )
}

/// Appends an entry's number.
pub(crate) fn push_by_entry(text: &mut Vec<u8>, n: u64) -> Result<(), AllocError>
    ensures { OnOk result (text.new.items ≡ text.old.items ++ phrases_text (by_entry n)) }
{
    push_phrases(
        text,
        &[(Head::Nothing, b" (entry "), (Head::Number(n), b")")],
    )
}
