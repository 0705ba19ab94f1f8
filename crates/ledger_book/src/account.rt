//! Accounts.
ghost use Rattle.std.specs.Prelude.{◌≡◌};
ghost use Rattle.ledger_book.specs.Accounts.{manager_of};

use dtx_values::RmNo;

/// How many accounts a store has at most.
pub const ACCOUNTS: u32 = 40;

/// One of the two stores.
#[derive(Clone, Copy, PartialEq, Eq, Debug)]
pub enum Side {
    /// Resource manager 1.
    Left,
    /// Resource manager 2.
    Right,
}

impl Side {
    /// Both, in order of their resource managers.
    pub const BOTH: [Side; 2] = [Side::Left, Side::Right];

    /// The number of its resource manager at the log.
    pub fn manager(self) -> RmNo
        ensures { result.value ≡ manager_of self }
    {
        let number = match self {
            Side::Left => 1,
            Side::Right => 2,
        };
        RmNo::new(number).unwrap()
    }
}

/// An account: its store, and its number there.
#[derive(Clone, Copy, PartialEq, Eq, Debug)]
pub struct Account {
    /// The store that it is in.
    pub side: Side,
    /// Its key in that store, from 1.
    pub number: u32,
}
