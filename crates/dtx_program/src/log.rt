//! Where the coordinator's log stands.
use crate::fault::Fault;
use clap::error::ErrorKind;
use clap::{Arg, ArgAction, Command};
use outside::read_range;
use std::alloc::Global;
use std::fs;
use std::fs::File;
use std::rt::Files;

/// The beginning of the word that names the log's file.
const OPTION: &str = "--log=";

/// With what a log's head begins.
const LETTERS: &[u8; 8] = b"DTXLOG1\n";

/// Whether the log may stand in the file at this path: there is none yet, or it is a regular file that is empty or begins as a log does. Any other file is somebody's, and what is no file, as a pipe, can't keep a log.
pub fn may_be_log<R: Files<File = File>>(rt: &R, path: &str) -> bool {
    let Ok(found) = fs::metadata(rt, path) else {
        // It isn't there; or it can't be opened either, and who opens it says so.
        return true;
    };
    found.is_file() && (found.len() == 0 || begins_as_log(rt, path))
}

/// Whether a log can be read in the file at this path, whatever it holds: it is there, and it is a regular file.
pub fn is_file<R: Files<File = File>>(rt: &R, path: &str) -> bool {
    match fs::metadata(rt, path) {
        Ok(found) => found.is_file(),
        Err(_) => false,
    }
}

/// Whether the file at this path begins as a log does.
fn begins_as_log<R: Files<File = File>>(rt: &R, path: &str) -> bool {
    let Ok(mut file) = File::open(rt, path) else {
        return false;
    };
    let mut first = [0; 8];
    read_range(&mut file, 0, &mut first).is_ok() && first == *LETTERS
}

/// Takes the last word off where it is `--log=PATH`, and gives the path.
pub fn take_path(alloc: Global, words: &mut Vec<String>) -> Result<Option<String>, Fault> {
    let path = match words.last() {
        Some(word) if word.starts_with(OPTION) => path_in(alloc, word.as_str())?,
        _ => return Ok(None),
    };
    // The last word is the one that was read above.
    let _ = words.pop();
    Ok(Some(path))
}

/// The path in a word `--log=PATH`.
fn path_in(alloc: Global, word: &str) -> Result<String, Fault> {
    let option = Arg::new(alloc, "log").long("log").action(ArgAction::Set);
    let Ok(command) = Command::new(alloc, "dtx").arg(option) else {
        return Err(Fault::Memory);
    };
    match command.try_get_matches_from(&["dtx", word]) {
        Ok(matches) => match matches.get_str("log") {
            Some("") | None => Err(Fault::Usage),
            Some(path) => match String::from_str(alloc, path) {
                Ok(path) => Ok(path),
                Err(_) => Err(Fault::Memory),
            },
        },
        Err(e) if e.kind() == ErrorKind::OutOfMemory => Err(Fault::Memory),
        Err(_) => Err(Fault::Usage),
    }
}
