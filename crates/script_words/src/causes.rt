//! The causes where a word isn't allowed at its place.
ghost use Rattle.std.specs.Prelude.{◌≡◌, ◌==◌};
ghost use Rattle.dtx_model.specs.Words.{has};
ghost use Rattle.dtx_model.specs.Faults.{is_digit, is_letter};
ghost use Rattle.script_words.specs.Places.{is_misnamed, is_misnumbered, cause_of};

use dtx_values::BadCause;

/// Whether the byte is a digit.
fn is_digit(b: u8) -> bool
    ensures { result ≡ is_digit b }
{
    b'0' <= b && b <= b'9'
}

/// Whether the byte is a letter.
fn is_letter(b: u8) -> bool
    ensures { result ≡ is_letter b }
{
    (b'A' <= b && b <= b'Z') || (b'a' <= b && b <= b'z')
}

/// Whether the byte is one of these.
fn is_one_of(b: u8, letters: &[u8]) -> bool
    ensures { result ≡ has (λ c. b == c) letters.now }
{
    letters.iter().any(|c| b == *c)
}

/// Whether the word has a letter.
fn has_letter(word: &[u8]) -> bool
    ensures { result ≡ has is_letter word.now }
{
    word.iter().any(|c| is_letter(*c))
}

/// Whether the word has one of these letters and a digit after it.
fn is_misnamed(word: &[u8], letters: &[u8]) -> bool
    ensures { result ≡ is_misnamed letters.now word.now }
{
    match word {
        [b, d, ..] => is_one_of(*b, letters) && is_digit(*d),
        _ => false,
    }
}

/// Whether the word begins with a digit or has no letter.
fn is_misnumbered(word: &[u8]) -> bool
    ensures { result ≡ is_misnumbered word.now }
{
    match word {
        [] => false,
        [b, ..] => is_digit(*b) || !has_letter(word),
    }
}

/// The cause where the word isn't allowed at a place for a name of these letters, or for a number.
#[tactic(auto, unfolding(crate::specs::Places::cause_of))]
pub fn cause(word: &[u8], letters: &[u8], numbered: bool) -> BadCause
    ensures { result ≡ cause_of letters.now numbered word.now }
{
    if is_misnamed(word, letters) {
        return BadCause::BadNumber;
    }
    if numbered && is_misnumbered(word) {
        return BadCause::BadNumber;
    }
    BadCause::UnknownWord
}
