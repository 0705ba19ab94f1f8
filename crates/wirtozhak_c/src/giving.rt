//! What a call came to, as its answer and what is written through a pointer.
ghost use Rattle.std.specs.Option.{option_map};
ghost use Rattle.std.specs.Prelude.{Ok, Some};
ghost use Rattle.dtx_values.specs.declared.number.CloneNo.{CloneNo};
ghost use Rattle.dtx_values.specs.declared.number.EnlNo.{EnlNo};
ghost use Rattle.wirtozhak_c.specs.Codes.{code_of, host_code, number_or_none, outcome_word};
ghost use Rattle.wirtozhak_c.specs.Words.{GivesWork, IsCopied, IsDone, IsIdentifier, IsNext, IsWork, IsWritten};

use crate::code::{DISK, NOTHING, OK, UNASKED, code_of, host_code};
use crate::words::{EventWords, Sixteen, Work, event_words, outcome_word, work_of};
use dtx_values::{CloneNo, EnlNo, Outcome};
use host_disk::Request;
use host_manager::{HostError, HostManager};
use transactions::{Next, TxError};

/// Of a call of a transaction that gives nothing back.
pub fn done(r: Result<(), TxError>) -> i32
    ensures { IsDone code_of r result }
{
    match r {
        Ok(()) => OK,
        Err(e) => code_of(e),
    }
}

/// Of another call that gives nothing back.
pub fn host_done(r: Result<(), HostError>) -> i32
    ensures { IsDone host_code r result }
{
    match r {
        Ok(()) => OK,
        Err(e) => host_code(e),
    }
}

/// The number of a transaction.
pub fn give_number(r: Result<u64, HostError>, to: &mut u64) -> i32
    ensures { IsWritten host_code (λ x. x) r to.old to.new result }
{
    match r {
        Ok(x) => {
            *to = x;
            OK
        }
        Err(e) => host_code(e),
    }
}

/// The number of an enlistment.
pub fn give_enlistment(r: Result<EnlNo, TxError>, to: &mut u32) -> i32
    ensures { IsWritten code_of (λ (e : EnlNo). e.value) r to.old to.new result }
{
    match r {
        Ok(e) => {
            *to = e.get();
            OK
        }
        Err(e) => code_of(e),
    }
}

/// The number of an enlistment, or 0 for none.
pub fn give_taken(r: Result<Option<EnlNo>, TxError>, to: &mut u32) -> i32
    ensures { IsWritten code_of number_or_none r to.old to.new result }
{
    match r {
        Ok(Some(e)) => {
            *to = e.get();
            OK
        }
        Ok(None) => {
            *to = 0;
            OK
        }
        Err(e) => code_of(e),
    }
}

/// The number of a clone.
pub fn give_clone(r: Result<CloneNo, TxError>, to: &mut u32) -> i32
    ensures { IsWritten code_of (λ (c : CloneNo). c.value) r to.old to.new result }
{
    match r {
        Ok(c) => {
            *to = c.get();
            OK
        }
        Err(e) => code_of(e),
    }
}

/// An identifier.
pub fn give_identifier(r: Result<Option<u128>, TxError>, to: &mut Sixteen) -> i32
    ensures { IsIdentifier r to.old.bytes to.new.bytes result }
{
    match r {
        Ok(Some(id)) => {
            to.bytes = id.to_be_bytes();
            OK
        }
        Ok(None) => NOTHING,
        Err(e) => code_of(e),
    }
}

/// The outcome of an enlistment of an earlier life.
pub fn give_outcome(r: Result<Outcome, HostError>, to: &mut u32) -> i32
    ensures { IsWritten host_code (λ o. outcome_word (Some o)) r to.old to.new result }
{
    match r {
        Ok(o) => {
            *to = outcome_word(Some(o));
            OK
        }
        Err(e) => host_code(e),
    }
}

/// What a client was told.
pub fn give_told(r: Result<Option<Outcome>, HostError>, to: &mut u32) -> i32
    ensures { IsWritten host_code outcome_word r to.old to.new result }
{
    match r {
        Ok(o) => {
            *to = outcome_word(o);
            OK
        }
        Err(e) => host_code(e),
    }
}

/// What was found to come next.
fn give_event(next: Next, to: &mut EventWords) -> i32
    ensures { IsNext (Ok next) to.old to.new result }
{
    match next {
        Next::Found(x) => {
            *to = event_words(x);
            OK
        }
        Next::Nothing => NOTHING,
        Next::Disk => DISK,
    }
}

/// What comes next.
pub fn give_next(r: Result<Next, TxError>, to: &mut EventWords) -> i32
    ensures { IsNext r to.old to.new result }
{
    match r {
        Ok(next) => give_event(next, to),
        Err(e) => code_of(e),
    }
}

/// What the host is to do.
fn give_work(r: Option<&Request>, to: &mut Work) -> i32
    ensures { IsWork (option_map (λ x. x.now) r.entry) to.old to.new result }
{
    match r {
        Some(r) => {
            *to = work_of(r);
            OK
        }
        None => NOTHING,
    }
}

/// What the host is to do next.
pub fn next_work(m: &mut HostManager, to: &mut Work) -> i32
    ensures { GivesWork to.old to.new m.old m.new result }
{
    let more = m.next_request();
    if more {
        give_work(m.request(), to)
    } else {
        NOTHING
    }
}

/// The bytes that the host is to write.
pub fn copied(r: Option<&Request>, into: &mut [u8]) -> i32
    ensures { IsCopied (option_map (λ x. x.now) r.entry) into.old into.new result }
{
    match r {
        Some(Request::Write(_, bytes)) => {
            if into.len() != bytes.len() {
                return UNASKED;
            }
            into.copy_from_slice(bytes);
            OK
        }
        Some(Request::Zeros(_, _)) => UNASKED,
        Some(Request::Sync) => UNASKED,
        None => UNASKED,
    }
}
