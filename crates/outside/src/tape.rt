// Bytes in memory that are read from the front.
ghost use Rattle.std.specs.Prelude.{◌≡◌, length, take, drop, min};

use std::marker::Model;

// A clause sees it as the bytes that are left.
#[derive(Drop)]
pub(crate) struct Tape {
    bytes: Vec<u8>,
    at: usize,
}

impl Model for Tape {
    ghost use Rattle.std.specs.Prelude.{ℕ, List, ◌≤◌, length, drop};

    ghost Value = { List ℕ };

    ghost view = { λ t. drop t.at t.bytes.items };

    ghost invariant = { λ t. t.at ≤ length t.bytes.items };
}

impl Tape {
    pub(crate) fn new(bytes: Vec<u8>) -> Tape
        ensures { result ≡ bytes.items }
    {
        Tape { bytes, at: 0 }
    }

    // Moves bytes to the start of `into`: as many as are wanted, fit and are left.
    pub(crate) fn give(&mut self, wanted: usize, into: &mut [u8]) -> usize
        ensures amount { result ≡ min wanted (min (length into.old) (length self.old)) }
        ensures bytes { take result into.new ≡ take result self.old }
        ensures taken { self.new ≡ drop result self.old }
    {
        let n = wanted.min(into.len().min(self.bytes.len() - self.at));
        into[..n].copy_from_slice(&self.bytes[self.at..self.at + n]);
        self.at += n;
        n
    }
}
