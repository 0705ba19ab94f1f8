//! How long the parts of a trace's line are at most.

use line_tail::NUMBER_ROOM;
use line_words::{NAME_ROOM, WORD_ROOM};

/// Room for the longest answer, of two isolations.
pub const ANSWER_ROOM: usize = 10 + WORD_ROOM + 1 + WORD_ROOM;

/// Room for the longest name of a message, a refusal with its cause.
pub const MESSAGE_ROOM: usize = 8 + NUMBER_ROOM;

/// Room for a message, its direction and its connection.
pub const SENT_ROOM: usize = NAME_ROOM + 1 + WORD_ROOM + 1 + MESSAGE_ROOM;

/// Room for the longest entry, the answer of a call.
pub const ENTRY_ROOM: usize = 5 + NUMBER_ROOM + 1 + NAME_ROOM + 1 + ANSWER_ROOM;
