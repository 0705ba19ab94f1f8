//! Bytes that are written and compared.
ghost use Rattle.std.specs.Prelude.{◌≡◌, ◌≤◌, ◌<◌, ◌+◌, ◌++◌, ℕ, drop, length, replicate, take, IfErr, IfOk};
ghost use Rattle.dtx_model.specs.Log.{same_at, zeros_at};
ghost use Rattle.slotted.specs.Reading.{IsReadAs};

use std::alloc::{AllocError, Global};

/// Writes bytes over those from this place on.
pub fn put(into: &mut [u8], at: usize, from: &[u8])
    requires { at + length from.now ≤ length into.old }
    ensures front { (n : ℕ) → n ≡ at + length from.now → take n into.new ≡ take at into.old ++ from.now }
    ensures rest { (n : ℕ) → at + length from.now ≤ n → drop n into.new ≡ drop n into.old }
{
    into[at..at + from.len()].copy_from_slice(from);
}

/// As many zeros.
///
/// # Errors
///
/// Where no memory was left.
pub fn zeros(alloc: Global, n: usize) -> Result<Vec<u8>, AllocError>
    ensures zeros { IfOk result (λ v. v.items ≡ replicate (length v.items) 0) }
    ensures many { IfOk result (λ v. length v.items ≡ n) }
{
    Ok(vec![in alloc; 0u8; n]?)
}

/// Their number where the bytes are those that are wanted.
///
/// # Errors
///
/// The first place where they differ.
pub fn same(want: &[u8], b: &[u8]) -> Result<usize, usize>
    requires { length want.now ≡ length b.now }
    ensures place { IfErr result (λ p. p < length b.now) }
    ensures same { IsReadAs (λ n. n) result (same_at 0 want.now b.now) }
{
    for (i, x) in b.iter().enumerate() {
        if want[i] != *x {
            return Err(i);
        }
    }
    Ok(b.len())
}

/// The end of zeros that begin at this place.
///
/// # Errors
///
/// The place of the first other byte.
pub fn read_zeros(b: &[u8], at: usize) -> Result<usize, usize>
    requires { at + length b.now ≤ 1000 }
    ensures zeros { IsReadAs (λ x. x) result (zeros_at at b.now) }
    ensures place { IfErr result (λ p. p < at + length b.now) }
{
    let mut place = at;
    for x in b {
        if *x != 0 {
            return Err(place);
        }
        place += 1;
    }
    Ok(place)
}
