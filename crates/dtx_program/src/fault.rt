//! What the program says on standard error, and the status that it ends with.
use script_runner::{BadCause, Exit};
use thiserror::Error;

/// Why a line is bad, in words.
fn words_of(cause: BadCause) -> &'static str {
    match cause {
        BadCause::TooLong => "script too long",
        BadCause::LongLine => "line too long",
        BadCause::NoNewline => "no newline",
        BadCause::BadByte => "bad byte",
        BadCause::MissingWord => "missing word",
        BadCause::UnknownWord => "unknown word",
        BadCause::BadNumber => "bad number",
        BadCause::ExtraWord => "extra word",
        BadCause::NameTwice => "name made twice",
        BadCause::NameUnknown => "unknown name",
        BadCause::WrongKind => "wrong kind",
        BadCause::ParTwice => "par twice",
        BadCause::TooManyPuts => "too many puts",
        BadCause::KeyTaken => "key taken",
    }
}

/// Why the program ends with another status than 0. The texts and the statuses are this project's own.
#[derive(Debug, Drop, Error)]
pub enum Fault {
    #[error("dtx: usage")]
    Usage,
    #[error("dtx: line {0}: {1}")]
    BadScript(u32, &'static str),
    #[error("dtx: line {0}: bad trace")]
    BadTrace(u64),
    #[error("dtx: line {0}: do needs replay")]
    NotThreadable(u32),
    #[error("dtx: read fault")]
    Read,
    #[error("dtx: log fault")]
    Log,
    #[error("dtx: write fault")]
    Write,
    #[error("dtx: out of memory")]
    Memory,
    #[error("dtx: cannot open log")]
    NoLog,
    #[error("dtx: log is none, at place {0}")]
    NotALog(u64),
}

impl Fault {
    /// What an exit of the top call says; nothing where all went well.
    pub fn of(exit: Exit) -> Result<(), Fault> {
        match exit {
            Exit::Fine => Ok(()),
            Exit::Usage => Err(Fault::Usage),
            Exit::BadScript(line, cause) => Err(Fault::BadScript(line, words_of(cause))),
            Exit::BadTrace(line) => Err(Fault::BadTrace(line)),
            Exit::NotThreadable(line) => Err(Fault::NotThreadable(line)),
            Exit::ReadFault => Err(Fault::Read),
            Exit::LogFault => Err(Fault::Log),
            Exit::NotALog(place) => Err(Fault::NotALog(place)),
            Exit::WriteFault => Err(Fault::Write),
            Exit::Memory => Err(Fault::Memory),
        }
    }

    /// The status that the process ends with.
    pub fn status(&self) -> u8 {
        match self {
            Fault::Usage => 2,
            Fault::BadScript(_, _) => 3,
            Fault::NotThreadable(_) => 4,
            Fault::Read => 5,
            Fault::Write => 6,
            Fault::Log => 7,
            Fault::Memory => 8,
            Fault::BadTrace(_) => 10,
            Fault::NoLog => 11,
            Fault::NotALog(_) => 12,
        }
    }
}
