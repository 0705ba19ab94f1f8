//! Tables by number. At a number past its end a table has its blank, which the caller knows.
ghost use Rattle.std.specs.Prelude.{◌≡◌, ◌<◌, ◌≤◌, ◌++◌, ◌==◌, ℕ, if◌then◌else◌, length, replicate, OnErr, OnOk, slice_index_or, vec_len};

use std::alloc::AllocError;

/// A table that is too short grows by this many items at least, since most numbers come in turn.
const STEP: usize = 64;

/// What a table has at a number.
#[inline(always)]
pub fn item_at<T: Copy>(items: &[T], n: u32, blank: T) -> T
    ensures { result ≡ slice_index_or items.now n blank }
{
    let place = n as usize;
    if place < items.len() {
        items[place]
    } else {
        blank
    }
}

/// Makes a table longer, with blanks, that ends before a number. This comes seldom, so it stays out of the code of its callers.
#[inline(never)]
fn grow<T: Copy>(items: &mut Vec<T>, n: u32, blank: T) -> Result<(), AllocError>
    requires { vec_len items.old ≤ n }
    ensures grown { (k : ℕ) × (items.new.items ≡ items.old.items ++ replicate k blank) }
    ensures same { (k : ℕ) → slice_index_or items.new.items k blank ≡ slice_index_or items.old.items k blank }
    ensures room { OnOk result (n < length items.new.items) }
{
    items.resize(n as usize + STEP, blank)?;
    Ok(())
}

/// Makes a table longer, with blanks, where it ends before a number.
#[inline(always)]
pub fn reach<T: Copy>(items: &mut Vec<T>, n: u32, blank: T) -> Result<(), AllocError>
    ensures grown { (k : ℕ) × (items.new.items ≡ items.old.items ++ replicate k blank) }
    ensures same { (k : ℕ) → slice_index_or items.new.items k blank ≡ slice_index_or items.old.items k blank }
    ensures room { OnOk result (n < length items.new.items) }
{
    if (n as usize) < items.len() {
        return Ok(());
    }
    grow(items, n, blank)
}

/// Puts an item at a number of a table.
#[inline(always)]
pub fn put_at<T: Copy>(items: &mut Vec<T>, n: u32, blank: T, item: T) -> Result<(), AllocError>
    ensures put { OnOk result ((k : ℕ) → slice_index_or items.new.items k blank
        ≡ (if k == n then item else slice_index_or items.old.items k blank)) }
    ensures memory { OnErr result ((k : ℕ) → slice_index_or items.new.items k blank ≡ slice_index_or items.old.items k blank) }
{
    reach(items, n, blank)?;
    items[n as usize] = item;
    Ok(())
}
