//! How long words, names and identifiers are at most.

/// Room for the longest word.
pub const WORD_ROOM: usize = 16;

/// Room for the longest name.
pub const NAME_ROOM: usize = 21;

/// Room for an identifier.
pub const IDENTIFIER_ROOM: usize = 36;
