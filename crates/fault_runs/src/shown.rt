//! What a line prints of what a run wrote.
use crate::items::{Key, item_of, number};
use crate::runs::Ending;
use dtx_values::{Entry, Outcome, Party, Place, TxNo};
use entry_lists::Trace;
use history_judge::{Verdict, judge};
use std::alloc::{AllocError, Global};
use std::io;
use std::str::from_utf8;
use trace_text::read_trace;

/// A line without the number in front.
fn unnumbered(line: &str) -> &str {
    match line.split_once(" ") {
        Some((_number, rest)) => rest,
        None => line,
    }
}

/// How many bytes there are.
fn show_bytes(rt: &impl Print, text: &str) -> io::Result<()> {
    let many = text.len();
    println!(rt; "{many} bytes")
}

/// The first lines.
fn show_first(rt: &impl Print, text: &str, many: u64) -> io::Result<()> {
    let mut left = many;
    for line in text.lines() {
        if left == 0 {
            break;
        }
        left -= 1;
        println!(rt; "{line}")?;
    }
    Ok(())
}

/// The lines that begin so.
fn show_lines(rt: &impl Print, text: &str, begin: &str) -> io::Result<()> {
    for line in text.lines() {
        let words = unnumbered(line);
        if words.starts_with(begin) {
            println!(rt; "{words}")?;
        }
    }
    Ok(())
}

/// How many lines there are.
fn show_many(rt: &impl Print, text: &str) -> io::Result<()> {
    let many = text.lines().count();
    println!(rt; "{many} lines")
}

/// The last line.
fn show_last(rt: &impl Print, text: &str) -> io::Result<()> {
    match text.lines().last() {
        Some(line) => {
            let last = unnumbered(line);
            println!(rt; "last {last}")
        }
        None => println!(rt; "last "),
    }
}

/// The history of a transaction in a trace.
fn history_of(alloc: Global, trace: &Trace, t: TxNo) -> Result<Vec<Entry>, AllocError> {
    let mut history = Vec::new(alloc);
    for i in 0..trace.len() {
        let (place, entry) = trace.at(i);
        if place == Place::Transaction(t) {
            history.push(entry)?;
        }
    }
    Ok(history)
}

/// What the client was told by a history in which a connection was cut, in a letter.
fn letter(h: &[Entry]) -> &'static str {
    let letters = [
        (Outcome::Committed, "c"),
        (Outcome::Aborted, "a"),
        (Outcome::InDoubt, "i"),
    ];
    if judge(h) != Verdict::Fine {
        return "?";
    }
    if !h.iter().any(|x| matches!(x, Entry::Cut(_, _, _))) {
        return "-";
    }
    for (outcome, letter) in letters {
        if h.contains(&Entry::Told(Party::Client, outcome)) {
            return letter;
        }
    }
    "?"
}

/// The verdict on the history of each transaction.
fn show_verdicts(rt: &impl Print, alloc: Global, trace: &Trace) -> io::Result<()> {
    for n in 1..=256 {
        if let Some(t) = TxNo::new(n) {
            let history = history_of(alloc, trace, t)?;
            if !history.is_empty() {
                let verdict = judge(history.as_slice());
                println!(rt; "t{n} {verdict:?}")?;
            }
        }
    }
    Ok(())
}

/// What the clients were told.
fn show_told(rt: &impl Print, alloc: Global, trace: &Trace) -> io::Result<()> {
    let mut letters = String::new(alloc);
    for n in 1..=256 {
        if let Some(t) = TxNo::new(n) {
            let history = history_of(alloc, trace, t)?;
            if !history.is_empty() {
                letters.push_str(letter(history.as_slice()))?;
            }
        }
    }
    println!(rt; "told {letters}")
}

/// The same of the trace that was written.
fn show_histories(rt: &impl Print, alloc: Global, text: &str, is_told: bool) -> io::Result<()> {
    match read_trace(alloc, text.as_bytes()) {
        Ok(trace) if is_told => show_told(rt, alloc, &trace),
        Ok(trace) => show_verdicts(rt, alloc, &trace),
        Err(_) => println!(rt; "no trace"),
    }
}

/// What an item prints.
fn show_item(rt: &impl Print, alloc: Global, text: &str, key: Key, rest: &str) -> io::Result<()> {
    match key {
        Key::All => show_first(rt, text, u64::MAX),
        Key::Bytes => show_bytes(rt, text),
        Key::First => show_first(rt, text, number(rest)),
        Key::Lines => show_lines(rt, text, rest),
        Key::Many => show_many(rt, text),
        Key::Last => show_last(rt, text),
        Key::Judged => show_histories(rt, alloc, text, false),
        Key::Told => show_histories(rt, alloc, text, true),
        _ => Ok(()),
    }
}

/// What each item of the line prints.
pub fn show(rt: &impl Print, alloc: Global, line: &str, ending: &Ending) -> io::Result<()> {
    let text = from_utf8(ending.written.as_slice()).unwrap_or("no text");
    let records = ending.records;
    for item in line.split("; ") {
        match item_of(item) {
            Some((Key::Log, _)) => {
                if let Some(records) = records {
                    println!(rt; "log {records:?}")?;
                }
            }
            Some((key, rest)) => show_item(rt, alloc, text, key, rest)?,
            None => (),
        }
    }
    Ok(())
}
