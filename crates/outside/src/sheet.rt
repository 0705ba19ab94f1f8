// Bytes of a fixed length, most of them zero.
ghost use Rattle.std.specs.Prelude.{◌≡◌, ◌≤◌, ◌+◌, ◌-◌, ℕ, length, take, drop, replicate, vec_capacity, IfOk, IsTrue};
ghost use Rattle.outside.specs.Disk.{overwritten};
ghost use Rattle.outside.specs.Images.{spoilt};
ghost use Rattle.outside.specs.Sheet.{with_zeros};

use std::alloc::{AllocError, Global};
use std::marker::Model;

// What a torn write leaves of each byte in its range.
const SPOILT: u8 = 0xA5;

// How many bytes are looked at together.
const PIECE: usize = 512;

/// Bytes of a fixed length. The zeros at their end are not kept, so that a disk on which little was written
/// takes little memory.
///
/// A clause sees all the bytes. No call but `new` takes memory.
#[derive(Drop)]
pub struct Sheet {
    /// The bytes up to the last that was written as another than zero, or more of them.
    front: Vec<u8>,
    size: usize,
}

impl Model for Sheet {
    ghost use Rattle.std.specs.Prelude.{◌≤◌, List, ℕ, length, vec_capacity};
    ghost use Rattle.outside.specs.Sheet.{with_zeros};

    ghost Value = { List ℕ };

    ghost view = { λ s. with_zeros s.size s.front.items };

    ghost invariant = { λ s. (length s.front.items ≤ s.size) × (s.size ≤ vec_capacity s.front) };
}

impl Sheet {
    /// So many zeros.
    ///
    /// # Errors
    ///
    /// Where no memory was left.
    pub fn new(alloc: Global, size: usize) -> Result<Sheet, AllocError>
        ensures { IfOk result (λ s. s ≡ replicate size 0) }
    {
        Ok(Sheet {
            front: Vec::with_capacity(alloc, size)?,
            size,
        })
    }

    /// How many bytes there are.
    pub fn len(&self) -> usize
        ensures { result ≡ length self.now }
    {
        self.size
    }

    /// Reads the bytes from place `at` on, as many as `into` holds.
    pub fn read(&self, at: usize, into: &mut [u8])
        requires { at + length into.old ≤ length self.now }
        ensures { into.new ≡ take (length into.old) (drop at self.now) }
    {
        read_front(&self.front, at, into);
    }

    /// Puts bytes over those that are there.
    pub fn put(&mut self, at: usize, from: &[u8])
        requires { at + length from.now ≤ length self.old }
        ensures { self.new ≡ overwritten self.old at from.now }
    {
        let end = blank_from(from);
        put_front(&mut self.front, at, &from[..end]);
        blank_front(&mut self.front, at + end, from.len() - end);
    }

    /// Spoils the bytes of a range.
    pub fn spoil(&mut self, at: usize, n: usize)
        requires { at + n ≤ length self.old }
        ensures { self.new ≡ overwritten self.old at (spoilt n) }
    {
        spoil_front(&mut self.front, at, n);
    }

    /// Takes the bytes of another, of the same length.
    pub fn copy(&mut self, other: &Sheet)
        requires { length other.now ≡ length self.old }
        ensures { self.new ≡ other.now }
    {
        self.front.clear();
        match self.front.extend_from_slice(&other.front) {
            Ok(()) => (),
            Err(_) => unreachable!(),
        }
    }
}

// Whether all are zero, of a piece.
fn is_blank(piece: &[u8]) -> bool
    ensures { IsTrue result → piece.now ≡ replicate (length piece.now) 0 }
{
    let blank = [0; PIECE];
    piece == blank.as_slice()
}

// Where the zeros at the end begin, to a piece.
fn blank_from(bytes: &[u8]) -> usize
    ensures within { result ≤ length bytes.now }
    ensures blank { drop result bytes.now ≡ replicate (length bytes.now - result) 0 }
{
    let mut end = bytes.len();
    while PIECE <= end {
        if !is_blank(&bytes[end - PIECE..end]) {
            return end;
        }
        end -= PIECE;
    }
    end
}

// Reads from the front, and zeros after it.
fn read_front(front: &[u8], at: usize, into: &mut [u8])
    ensures { (n : ℕ) → length front.now ≤ n → at + length into.old ≤ n → into.new ≡ take (length into.old) (drop at (with_zeros n front.now)) }
{
    into.fill(0);
    if at < front.len() {
        let n = into.len().min(front.len() - at);
        into[..n].copy_from_slice(&front[at..at + n]);
    }
}

// Makes the front at least so long, by zeros.
fn reach(front: &mut Vec<u8>, end: usize)
    requires { end ≤ vec_capacity front.old }
    ensures zeros { front.new.items ≡ with_zeros end front.old.items }
    ensures capacity { vec_capacity front.old ≤ vec_capacity front.new }
{
    if front.len() < end {
        match front.resize(end, 0) {
            Ok(()) => (),
            Err(_) => unreachable!(),
        }
    }
}

// Puts bytes into the front.
fn put_front(front: &mut Vec<u8>, at: usize, bytes: &[u8])
    requires { at + length bytes.now ≤ vec_capacity front.old }
    ensures put { front.new.items ≡ overwritten (with_zeros (at + length bytes.now) front.old.items) at bytes.now }
    ensures capacity { vec_capacity front.old ≤ vec_capacity front.new }
{
    let end = at + bytes.len();
    reach(front, end);
    front[at..end].copy_from_slice(bytes);
}

// Spoils a range of the front.
fn spoil_front(front: &mut Vec<u8>, at: usize, n: usize)
    requires { at + n ≤ vec_capacity front.old }
    ensures put { front.new.items ≡ overwritten (with_zeros (at + n) front.old.items) at (spoilt n) }
    ensures capacity { vec_capacity front.old ≤ vec_capacity front.new }
{
    let end = at + n;
    reach(front, end);
    front[at..end].fill(SPOILT);
}

// Fills a range.
fn fill(bytes: &mut [u8], at: usize, n: usize, value: u8)
    requires { at + n ≤ length bytes.old }
    ensures { bytes.new ≡ overwritten bytes.old at (replicate n value) }
{
    bytes[at..at + n].fill(value);
}

// Blanks what the front has of a range.
fn blank_front(front: &mut Vec<u8>, at: usize, n: usize)
    requires { at + n ≤ vec_capacity front.old }
    ensures blanked { (size : ℕ) → length front.old.items ≤ size → at + n ≤ size
        → with_zeros size front.new.items ≡ overwritten (with_zeros size front.old.items) at (replicate n 0) }
    ensures long { length front.new.items ≡ length front.old.items }
    ensures capacity { vec_capacity front.old ≤ vec_capacity front.new }
{
    let held = front.len();
    if at + n <= held {
        fill(front, at, n, 0);
    } else if at < held {
        fill(front, at, held - at, 0);
    }
}
