//! The line that is being printed. It is made from its end to its start, as the digits of its numbers are, and then
//! copied as a whole, which is quicker than copying each word.
ghost use Rattle.std.specs.Prelude.{◌≡◌, ◌≤◌, ◌+◌, [], ◌++◌, decimal, length};
ghost use Rattle.line_tail.specs.declared.tail.TheConstants.{LINE_ROOM, NUMBER_ROOM};

use itoa::write_digits;
use std::marker::Model;

/// Room for the longest line.
pub const LINE_ROOM: usize = 160;

/// Room for the longest number.
pub const NUMBER_ROOM: usize = 20;

/// The end of a line. Contracts see its bytes.
#[derive(Drop)]
pub struct Tail {
    bytes: [u8; LINE_ROOM],
    start: usize,
}

impl Model for Tail {
    ghost use Rattle.std.specs.Prelude.{ℕ, List, ◌≤◌, drop};
    ghost use Rattle.line_tail.specs.declared.tail.TheConstants.{LINE_ROOM};

    ghost Value = { List ℕ };

    ghost view = { λ t. drop t.start t.bytes };

    ghost invariant = { λ t. t.start ≤ LINE_ROOM };
}

impl Tail {
    /// The end of a line of which nothing is there yet.
    pub fn new() -> Tail
        ensures { result ≡ [] }
    {
        Tail {
            bytes: [0; LINE_ROOM],
            start: LINE_ROOM,
        }
    }

    /// Begins the next line.
    pub fn clear(&mut self)
        ensures { self.new ≡ [] }
    {
        self.start = LINE_ROOM;
    }

    /// The bytes that are there.
    pub fn as_slice(&self) -> &[u8]
        ensures { result.now ≡ self.now }
    {
        &self.bytes[self.start..]
    }

    /// Puts a text before what is there.
    #[inline(always)]
    pub fn put(&mut self, text: &[u8])
        requires { length text.now + length self.old ≤ LINE_ROOM }
        ensures text { self.new ≡ text.now ++ self.old }
        ensures length { length self.new ≡ length text.now + length self.old }
    {
        let end = self.start;
        let start = end - text.len();
        self.bytes[start..end].copy_from_slice(text);
        self.start = start;
    }

    /// Puts a number before what is there.
    #[inline]
    pub fn put_number(&mut self, n: u64)
        requires { NUMBER_ROOM + length self.old ≤ LINE_ROOM }
        ensures text { self.new ≡ decimal n ++ self.old }
        ensures length { length self.new ≤ NUMBER_ROOM + length self.old }
    {
        self.start = write_digits(n, &mut self.bytes, self.start);
    }
}
