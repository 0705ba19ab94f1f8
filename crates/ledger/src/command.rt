//! What the program can do.
use ledger_book::Account;

/// What the words ask for.
#[derive(Clone, Copy, PartialEq, Eq, Debug)]
pub enum Command {
    /// Make a book with so many accounts in each store, from 1 to 40, and this amount in each.
    Make(u32, u64),
    /// Move an amount from the first account to the second.
    Move(Account, Account, u64),
    /// Show the accounts and their sum.
    Show,
}

impl Command {
    /// Whether it makes the files anew.
    pub fn makes(self) -> bool {
        match self {
            Command::Make(_, _) => true,
            Command::Move(_, _, _) | Command::Show => false,
        }
    }
}

/// What the words ask for, and the number of the write or sync before which the process ends.
#[derive(Clone, Copy, PartialEq, Eq, Debug)]
pub struct Asked {
    /// What is to be done.
    pub command: Command,
    /// Where the process ends, counted from 1.
    pub stop: Option<u64>,
}
