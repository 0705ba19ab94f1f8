//! Lists that are kept in order of number.
ghost use Rattle.std.specs.Prelude.{◌≡◌, ◌<◌, ◌≤◌, ◌+◌, length, vec_len, vec_capacity};
ghost use Rattle.std.specs.List.{insert};
ghost use Rattle.dtx_values.specs.Table.{insert_by};

use crate::number::EnlNo;

/// What has a number, by which a list of such items is kept in order.
pub trait Numbered {
    ghost use Rattle.std.specs.Prelude.{ℕ, ◌≡◌};

    ghost key: { Self → ℕ };

    /// The number.
    fn number(&self) -> u32
        ensures { result ≡ key self.now };
}

/// The index at which an item of this number goes.
pub fn place_in_order<T: Numbered>(items: &[T], n: u32) -> usize
    ensures within { result ≤ length items.now }
    ensures there { (x : T) → T.key x ≡ n → insert items.now result x ≡ insert_by T.key x items.now }
{
    for (i, x) in items.iter().enumerate() {
        if x.number() >= n {
            return i;
        }
    }
    items.len()
}

/// Puts an item at its place. The list has room for it.
pub fn insert_in_order<T: Numbered>(items: &mut Vec<T>, x: T)
    requires { vec_len items.old < vec_capacity items.old }
    ensures items { items.new.items ≡ insert_by T.key x items.old.items }
    ensures length { vec_len items.new ≡ vec_len items.old + 1 }
    ensures capacity { vec_capacity items.old ≤ vec_capacity items.new }
{
    let at = place_in_order(items, x.number());
    match items.insert(at, x) {
        Ok(()) => {}
        Err(_) => unreachable!(),
    }
}

impl Numbered for EnlNo {
    ghost use Rattle.dtx_values.specs.Table.{enl_number};

    ghost key = { enl_number };

    fn number(&self) -> u32 {
        self.get()
    }
}

/// The first number.
impl Default for EnlNo {
    fn default() -> EnlNo {
        EnlNo::new(1).unwrap()
    }
}
