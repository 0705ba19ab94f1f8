//! The words that stand in place of a name. Each is spelled here alone: the printer and the reader take it from here.

/// The place of what is of the log.
pub const LOG: &[u8] = b"log";

/// The party that began the transaction.
pub const CLIENT: &[u8] = b"client";

/// No ambient transaction.
pub const NONE: &[u8] = b"none";
