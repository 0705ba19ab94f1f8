//! The program `ledger`: moves amounts between accounts in two stores, each move as one transaction over a log, whatever becomes of the process.
//!
//! | words | what is done |
//! |---|---|
//! | `make DIR N AMOUNT` | makes DIR/log, DIR/left and DIR/right anew, with accounts 1 to N in both stores |
//! | `move DIR FROM TO AMOUNT` | moves an amount from one account to another: `l3` is in the left store, `r7` in the right one |
//! | `show DIR` | shows the accounts, and their sum |
//!
//! A last word `--stop=K` ends the process before its K-th write or sync, with status 9, and with nothing printed.
#![tactic(auto)]

mod asking;
mod command;
mod fault;
mod files;
mod runs;
mod said;

use asking::asked_of;
use command::Asked;
use fault::Fault;
use files::disks_in;
use ledger_book::Stop;
use outside::SystemClock;
use runs::run_over;
use std::alloc::Global;
use std::env::args;
use std::io::ErrorKind;
use std::process::ExitCode;
use std::rc::Rc;
use std::rt::Env;

/// The words after the program's name. Words that are not UTF-8 are none of the program's.
fn words<R: Env + Alloc<A = Global>>(rt: &R) -> Result<Vec<String>, Fault> {
    let mut given = match args(rt) {
        Ok(given) => given,
        Err(e) if e.kind() == ErrorKind::OutOfMemory => return Err(Fault::Memory),
        Err(_) => return Err(Fault::Usage),
    };
    let _program = given.next();
    let mut words = Vec::new(rt.alloc());
    for word in given {
        if words.push(word).is_err() {
            return Err(Fault::Memory);
        }
    }
    Ok(words)
}

/// Runs the command over the files of this folder, and puts what there is to print.
fn run_in(
    rt: HostRuntime,
    asked: Asked,
    dir: &str,
    stop: &Rc<Stop, Global>,
    said: &mut String,
) -> Result<(), Fault> {
    let files = disks_in(&rt, dir, asked.command.makes())?;
    match files.stopping(stop) {
        Ok(disks) => {
            let clock = SystemClock::new(rt);
            run_over(rt.alloc(), asked.command, disks, clock, stop, said)
        },
        Err(_) => Err(Fault::Memory),
    }
}

/// Runs the program on its words, and puts what there is to print.
fn run(rt: HostRuntime, said: &mut String) -> Result<(), Fault> {
    let words = words(&rt)?;
    let (Some(asked), Some(dir)) = (asked_of(&words), words.get(1)) else {
        return Err(Fault::Usage);
    };
    let place = match asked.stop {
        Some(number) => Stop::before(number),
        None => Stop::never(),
    };
    let Ok(stop) = Rc::new(rt.alloc(), place) else {
        return Err(Fault::Memory);
    };
    let done = run_in(rt, asked, dir.as_str(), &stop, said);
    if stop.has_stopped() {
        return Err(Fault::Stopped);
    }
    done
}

fn main(rt: HostRuntime) -> ExitCode {
    let mut said = String::new(rt.alloc());
    let done = match run(rt, &mut said) {
        Ok(()) => rt.print(said).map_err(|_| Fault::Write),
        Err(fault) => Err(fault),
    };
    match done {
        Ok(()) => ExitCode::SUCCESS,
        Err(fault) => {
            let status = fault.status();
            if status != Fault::Stopped.status() {
                // Where standard error takes nothing, nobody can be told. The status still says what happened.
                let _ = rt.eprintln(fault);
            }
            ExitCode::from(status)
        }
    }
}
