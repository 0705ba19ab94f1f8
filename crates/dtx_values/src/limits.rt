//! Limits that several crates name. They are a definition of this project.

/// The most enlistments that one transaction may have, waiting ones counted.
pub const ENLISTMENTS: usize = 32;

/// The most durable or promotable enlistments of one transaction, waiting ones counted.
pub const DURABLES: usize = 16;

/// The most connections of one transaction: b, v, and two of each durable or promotable enlistment.
pub const CONNECTIONS: usize = 34;

/// The most calls of one transaction that wait at a time.
pub const CALLS: usize = 32;

/// The most dependent clones of one transaction.
pub const CLONES: usize = 32;

/// The most scopes that are open in one context.
pub const SCOPES: usize = 64;

/// The most entries, and the most messages, that one step makes.
pub const ROOM: usize = 64;

/// The most bytes of a script.
pub const SCRIPT_BYTES: usize = 1_048_576;

/// The most bytes of a script's line, its end left out.
pub const LINE_BYTES: usize = 200;
