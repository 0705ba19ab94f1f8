//! What a move does to two amounts.
ghost use Rattle.std.specs.Prelude.{◌≡◌, ◌≤◌, ◌<◌, ◌+◌, ◌^◌, ◌↔◌, ℕ, Some, IfNone, IfSome, IsSome};
ghost use Rattle.ledger_book.specs.Accounts.{CanMove};

use crate::account::Account;

/// The amounts of the two accounts after a move.
#[derive(Clone, Copy, PartialEq, Eq, Debug)]
pub struct Amounts {
    /// Of the account that gives.
    pub less: u64,
    /// Of the account that gets.
    pub more: u64,
}

/// What a move of `amount` leaves of two accounts that have `from` and `to`; nothing where the first has less than that, or where the second would have more than a `u64` tells.
pub fn moved(from: u64, to: u64, amount: u64) -> Option<Amounts>
    ensures goes { IsSome result ↔ ((amount ≤ from) × (to + amount < 2 ^ 64)) }
    ensures less { IfSome result (λ m. m.less + amount ≡ from) }
    ensures more { IfSome result (λ m. m.more ≡ to + amount) }
    ensures sum { IfSome result (λ m. m.less + m.more ≡ from + to) }
{
    let Some(less) = from.checked_sub(amount) else {
        return None;
    };
    match to.checked_add(amount) {
        Some(more) => Some(Amounts { less, more }),
        None => None,
    }
}

/// What a move leaves of two accounts, by the amount that each has; nothing exactly where it can't be.
pub fn moving(
    from: Account,
    to: Account,
    gives: Option<u64>,
    gets: Option<u64>,
    amount: u64,
) -> Option<Amounts>
    ensures can { IfSome result (λ _. CanMove from to gives gets amount) }
    ensures cannot { IfNone result (CanMove from to gives gets amount → ⊥) }
    ensures less { IfSome result (λ m. gives ≡ Some (m.less + amount)) }
    ensures more { IfSome result (λ m. (n : ℕ) → gets ≡ Some n → m.more ≡ n + amount) }
{
    if from == to {
        return None;
    }
    match (gives, gets) {
        (Some(first), Some(second)) => moved(first, second, amount),
        _ => None,
    }
}
