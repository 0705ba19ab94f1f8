//! What is printed.
use crate::fault::Fault;
use ledger_book::{Book, Part, Recovery, Side};
use outside::{Clock, Disk};
use std::fmt::Write;

/// Puts a line for each enlistment that recovery finished, and one for each record that it freed.
pub fn say_recovery(said: &mut String, recovery: &Recovery) -> Result<(), Fault> {
    for ended in &recovery.ended {
        let name = Part::of(ended.side);
        let outcome = if ended.committed {
            "committed"
        } else {
            "aborted"
        };
        let line = writeln!(
            said,
            "{name} {} e{} {outcome}",
            ended.transaction, ended.enlistment
        );
        if line.is_err() {
            return Err(Fault::Memory);
        }
    }
    for number in &recovery.freed {
        if writeln!(said, "freed {number}").is_err() {
            return Err(Fault::Memory);
        }
    }
    Ok(())
}

/// Puts a line with this word.
pub fn say(said: &mut String, word: &str) -> Result<(), Fault> {
    if writeln!(said, "{word}").is_err() {
        return Err(Fault::Memory);
    }
    Ok(())
}

/// Puts a line for each account of a store.
fn say_accounts(said: &mut String, letter: char, rows: &[(u32, u64)]) -> Result<(), Fault> {
    for row in rows {
        if writeln!(said, "{letter}{} {}", row.0, row.1).is_err() {
            return Err(Fault::Memory);
        }
    }
    Ok(())
}

/// Puts a line for each account, and one for their sum.
pub fn say_book<D: Disk + Drop, C: Clock + Drop>(
    said: &mut String,
    book: &Book<D, C>,
) -> Result<(), Fault> {
    say_accounts(said, 'l', book.rows(Side::Left))?;
    say_accounts(said, 'r', book.rows(Side::Right))?;
    if writeln!(said, "sum {}", book.sum()).is_err() {
        return Err(Fault::Memory);
    }
    Ok(())
}
