//! Reads the words.
ghost use Rattle.std.specs.Prelude.{◌≡◌, ◌≢◌, ◌≤◌, ◌<◌, ◌^◌, ℕ, List, [], ◌∷◌, ◌++◌, IfSome, Some, codes, decimal, map, true};
ghost use Rattle.std.specs.String.{string_bytes};
ghost use Rattle.ledger.specs.Words.{Asks, AsksFor, account_word, stop_word};
ghost use Rattle.ledger_book.specs.declared.account.Account.{Account};

use crate::command::{Asked, Command};
use ledger_book::{ACCOUNTS, Account, Side};
use line_words::{number_from, number_of, number32_of};

const MAKE: &[u8] = b"make";

const MOVE: &[u8] = b"move";

const SHOW: &[u8] = b"show";

/// The beginning of the word that says where the process ends.
const STOP: &[u8] = b"--stop=";

/// The account that this word names: the letter of its store, and its number in decimal without leading zeros.
fn account_of(word: &[u8]) -> Option<Account>
    ensures some { IfSome result (λ a. word.now ≡ account_word a) }
    ensures of { (a : Account) → a.number < 2 ^ 32 → word.now ≡ account_word a → result ≡ Some a }
{
    let (letter, rest) = word.split_first()?;
    let side = match *letter {
        b'l' => Side::Left,
        b'r' => Side::Right,
        _ => return None,
    };
    let number = number32_of(rest)?;
    Some(Account { side, number })
}

/// The number in the word `--stop=K`, from 1.
fn stop_of(word: &[u8]) -> Option<u64>
    ensures some { IfSome result (λ k. (word.now ≡ stop_word k) × (1 ≤ k)) }
    ensures of { (k : ℕ) → 1 ≤ k → k < 2 ^ 64 → word.now ≡ stop_word k → result ≡ Some k }
{
    let number = number_of(word.strip_prefix(STOP)?)?;
    if number == 0 { None } else { Some(number) }
}

/// The command of two words.
fn of_two(first: &[u8], dir: &[u8]) -> Option<Command>
    ensures { IfSome result (λ c. AsksFor (first.now ∷ dir.now ∷ []) c) }
{
    if first == SHOW {
        Some(Command::Show)
    } else {
        None
    }
}

/// The command of four words.
fn of_four(first: &[u8], dir: &[u8], count: &[u8], amount: &[u8]) -> Option<Command>
    ensures { IfSome result (λ c. AsksFor (first.now ∷ dir.now ∷ count.now ∷ amount.now ∷ []) c) }
{
    if first != MAKE {
        return None;
    }
    let count = number_from(count, 1, ACCOUNTS)?;
    Some(Command::Make(count, number_of(amount)?))
}

/// The command of five words.
fn of_five(first: &[u8], dir: &[u8], from: &[u8], to: &[u8], amount: &[u8]) -> Option<Command>
    ensures { IfSome result (λ c. AsksFor (first.now ∷ dir.now ∷ from.now ∷ to.now ∷ amount.now ∷ []) c) }
{
    if first != MOVE {
        return None;
    }
    let (from, to) = (account_of(from)?, account_of(to)?);
    Some(Command::Move(from, to, number_of(amount)?))
}

/// The command of these words, of which the second names the folder.
fn command_of(words: &[String]) -> Option<Command>
    ensures { IfSome result (λ c. AsksFor (map string_bytes words.now) c) }
{
    match words {
        [a, b] => of_two(a.as_bytes(), b.as_bytes()),
        [a, b, c, d] => of_four(a.as_bytes(), b.as_bytes(), c.as_bytes(), d.as_bytes()),
        [a, b, c, d, e] => of_five(
            a.as_bytes(),
            b.as_bytes(),
            c.as_bytes(),
            d.as_bytes(),
            e.as_bytes(),
        ),
        _ => None,
    }
}

/// What these words ask for: a command, and where the process ends if the last word is `--stop=K`.
pub fn asked_of(words: &[String]) -> Option<Asked>
    ensures { IfSome result (λ a. Asks (map string_bytes words.now) a) }
{
    if let [rest @ .., last] = words {
        if last.as_bytes().starts_with(STOP) {
            return Some(Asked {
                stop: Some(stop_of(last.as_bytes())?),
                command: command_of(rest)?,
            });
        }
    }
    Some(Asked {
        stop: None,
        command: command_of(words)?,
    })
}
