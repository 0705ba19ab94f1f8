//! Identifiers in the hyphenated form.
ghost use Rattle.std.specs.Prelude.{◌≡◌, ◌≤◌, ◌<◌, ◌^◌, ◌+◌, ◌++◌, ℕ, Some, length, option_map};
ghost use Rattle.std.specs.Int.{from_be_bytes, w128};
ghost use Rattle.uuid.specs.Text.{parsed};
ghost use Rattle.dtx_model.specs.TraceText.{id_text};
ghost use Rattle.line_tail.specs.declared.tail.TheConstants.{LINE_ROOM};
ghost use Rattle.line_words.specs.declared.widths.TheConstants.{IDENTIFIER_ROOM};

use crate::widths::IDENTIFIER_ROOM;
use line_tail::Tail;
use uuid::Uuid;

/// Puts an identifier in the hyphenated form.
#[inline]
pub fn put_identifier(tail: &mut Tail, id: u128)
    requires { IDENTIFIER_ROOM + length tail.old ≤ LINE_ROOM }
    ensures text { tail.new ≡ id_text id ++ tail.old }
    ensures length { length tail.new ≤ IDENTIFIER_ROOM + length tail.old }
{
    let mut buffer = [0; IDENTIFIER_ROOM];
    let text = Uuid::from_u128(id).hyphenated().encode_lower(&mut buffer);
    tail.put(text.as_bytes());
}

/// Reads an identifier, in this form or in another one of a UUID.
pub fn identifier_of(word: &[u8]) -> Option<u128>
    ensures value { result ≡ option_map (from_be_bytes w128) (parsed word.now) }
    ensures of { (u : ℕ) → u < 2 ^ 128 → word.now ≡ id_text u → result ≡ Some u }
{
    match Uuid::try_parse_ascii(word) {
        Ok(x) => Some(x.as_u128()),
        Err(_) => None,
    }
}
