//! How the top call ends.
use script_text::BadCause;

/// How the top call ends. The order in which the answers are given is Usage, ReadFault, BadScript or BadTrace, NotThreadable, LogFault, NotALog, WriteFault; want of memory may
/// come at any point.
#[derive(Clone, Copy, PartialEq, Eq, Debug)]
pub enum Exit {
    /// All was read, run and written.
    Fine,
    /// The words are none of the program's.
    Usage,
    /// The first bad line, from 1, and its first cause.
    BadScript(u32, BadCause),
    /// The first line, from 1, that isn't a line of a trace there, or that goes beyond the longest trace that is checked.
    BadTrace(u64),
    /// The first `do` line, from 1, of a script that was to run on threads. Such a line says how many steps come next, which nobody can say of threads.
    NotThreadable(u32),
    /// The source met a fault.
    ReadFault,
    /// The disk met a fault while the log was formatted, or read for its listing.
    LogFault,
    /// What the disk holds is no log, which was to be listed; the first place, from 0, of another form.
    NotALog(u64),
    /// The sink met a fault.
    WriteFault,
    /// Memory ran out.
    Memory,
}
