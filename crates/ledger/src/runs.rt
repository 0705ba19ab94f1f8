//! Runs a command over the disks of a book.
ghost use Rattle.std.specs.Prelude.{◌≤◌};
ghost use Rattle.coordinator_log.specs.declared.layout.TheConstants.{LOG_BYTES};
ghost use Rattle.kv_resource.specs.declared.layout.TheConstants.{KV_BYTES};

use crate::command::Command;
use crate::fault::Fault;
use crate::said::{say, say_book, say_recovery};
use coordinator_log::LOG_BYTES;
use kv_resource::KV_BYTES;
use ledger_book::{Account, Book, Disks, Stop};
use outside::{Clock, Disk};
use std::alloc::Global;

/// Runs the command, and puts what there is to print.
pub fn run_over<D: Disk + Drop, C: Clock + Drop>(
    alloc: Global,
    command: Command,
    disks: Disks<D>,
    clock: C,
    stop: &Stop,
    said: &mut String,
) -> Result<(), Fault>
    requires log { LOG_BYTES ≤ D.size disks.log }
    requires left { KV_BYTES ≤ D.size disks.left }
    requires right { KV_BYTES ≤ D.size disks.right }
{
    match command {
        Command::Make(count, amount) => {
            let mut book = match Book::make(alloc, disks, clock) {
                Ok(book) => book,
                Err((e, _)) => return Err(Fault::of(e)),
            };
            match book.fill(alloc, count, amount) {
                Ok(true) => say(said, "made"),
                Ok(false) => Err(Fault::Disk),
                Err(e) => Err(Fault::of(e)),
            }
        }
        Command::Move(from, to, amount) => {
            let mut book = recovered(alloc, disks, clock, said)?;
            transfer(&mut book, from, to, amount, stop, said)
        }
        Command::Show => {
            let book = recovered(alloc, disks, clock, said)?;
            say_book(said, &book)
        }
    }
}

/// Opens the book and recovers it, and puts what recovery did.
fn recovered<D: Disk + Drop, C: Clock + Drop>(
    alloc: Global,
    disks: Disks<D>,
    clock: C,
    said: &mut String,
) -> Result<Book<D, C>, Fault>
    requires log { LOG_BYTES ≤ D.size disks.log }
    requires left { KV_BYTES ≤ D.size disks.left }
    requires right { KV_BYTES ≤ D.size disks.right }
{
    let mut book = match Book::open(alloc, disks, clock) {
        Ok(book) => book,
        Err((e, _)) => return Err(Fault::of(e)),
    };
    match book.recover(alloc) {
        Ok(recovery) => say_recovery(said, &recovery)?,
        Err(e) => return Err(Fault::of(e)),
    }
    Ok(book)
}

/// Moves an amount, and puts whether it is moved. Where a disk failed in a transaction that aborted, that is the cause.
fn transfer<D: Disk + Drop, C: Clock + Drop>(
    book: &mut Book<D, C>,
    from: Account,
    to: Account,
    amount: u64,
    stop: &Stop,
    said: &mut String,
) -> Result<(), Fault> {
    match book.transfer(from, to, amount) {
        Ok(true) => say(said, "moved"),
        Ok(false) if stop.has_failed() => Err(Fault::Disk),
        Ok(false) => say(said, "refused"),
        Err(e) => Err(Fault::of(e)),
    }
}
