//! What the program can do.

/// A form of a trace.
#[derive(Clone, Copy, PartialEq, Eq, Debug)]
pub enum Form {
    /// A line for each entry.
    Plain,
    /// The same, with its frame after each message that is sent.
    Wire,
    /// One array of objects.
    Json,
    /// Eight lines with numbers.
    Summary,
    /// Why each transaction was promoted, and why it ended as it did.
    Why,
    /// A page in HTML: the same, and a picture of each transaction.
    Html,
}

/// What the words ask for.
#[derive(Clone, Copy, PartialEq, Eq, Debug)]
pub enum Command {
    /// Replay the script that is read, and write the trace in this form.
    Replay(Form),
    /// Write the made script of so many transactions, from 1 to 256.
    Make(u16),
    /// Replay that script, and write the summary.
    Demo(u16),
    /// Run the script that is read on threads, each actor on one of its own and so many helpers beside them, from 1 to 16, and write the trace, as it is, its summary or why.
    Threads(u8, Form),
    /// List the log that is on the disk, and change nothing of it.
    Log,
    /// Check the trace that is read, and write whether it is fine, or its first bad entry.
    Check,
    /// Put the values that are read into a key store, replay the script after them with the store as manager r1, and write the store's table.
    Store,
    /// The same with a map in memory, which answers for all volatiles.
    Map,
}
