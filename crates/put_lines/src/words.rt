//! A line before the script, by its words.
ghost use Rattle.std.specs.Prelude.{◌≡◌, ◌∷◌, [], true, codes, decimal, IfOk, IfErr, Some};
ghost use Rattle.dtx_model.specs.Grammar.{is_from};
ghost use Rattle.dtx_model.specs.Faults.{is_digit, is_letter, number as number_pattern, words_of};
ghost use Rattle.dtx_model.specs.Words.{has};
ghost use Rattle.script_words.specs.Places.{IsAt, cause_of, is_misnumbered, place_fault};
ghost use Rattle.put_lines.specs.FrontLine.{IsFrontLine};

use dtx_values::BadCause;
use heard_notes::Put;
use line_words::number_of;
use script_words::Words;

const PUT: &[u8] = b"put";

const SCRIPT: &[u8] = b"script";

/// A line before the script, or the one that ends them.
#[derive(Clone, Copy, PartialEq, Eq)]
pub enum FrontLine {
    Put(Put),
    Script,
}

/// Whether the byte is a digit.
fn is_digit(b: u8) -> bool
    ensures { result ≡ is_digit b }
{
    b'0' <= b && b <= b'9'
}

/// Whether the byte is a letter.
fn is_letter(b: u8) -> bool
    ensures { result ≡ is_letter b }
{
    (b'A' <= b && b <= b'Z') || (b'a' <= b && b <= b'z')
}

/// Whether the word has a letter.
fn has_letter(word: &[u8]) -> bool
    ensures { result ≡ has is_letter word.now }
{
    word.iter().any(|c| is_letter(*c))
}

/// Whether the word begins with a digit or has no letter.
fn is_misnumbered(word: &[u8]) -> bool
    ensures { result ≡ is_misnumbered word.now }
{
    match word {
        [] => false,
        [b, ..] => is_digit(*b) || !has_letter(word),
    }
}

/// The cause where the word is no number.
fn number_cause(word: &[u8]) -> BadCause
    ensures { result ≡ cause_of [] true word.now }
{
    if is_misnumbered(word) {
        return BadCause::BadNumber;
    }
    BadCause::UnknownWord
}

/// Takes a value.
fn value(words: &mut Words<'_>) -> Result<u64, BadCause>
    ensures ok { IfOk result (λ n. IsAt (number_pattern 0 18446744073709551615) words.old (decimal n) words.new × (is_from 0 18446744073709551615 n ≡ true)) }
    ensures err { IfErr result (λ c. place_fault (number_pattern 0 18446744073709551615) words.old ≡ Some c) }
{
    let Some(word) = words.next() else {
        return Err(BadCause::MissingWord);
    };
    match number_of(word) {
        Some(n) => Ok(n),
        None => Err(number_cause(word)),
    }
}

/// Reads the words behind `put`.
#[tactic(auto, using(line_reader::proofs::Forms::forms))]
fn put(words: &mut Words<'_>) -> Result<FrontLine, BadCause>
    ensures { IsFrontLine (codes "put" ∷ words.old) result }
{
    let transaction = words.transaction()?;
    let enlistment = words.enlistment()?;
    let key = words.number(0, u32::MAX)?;
    let value = value(words)?;
    words.end()?;
    Ok(FrontLine::Put(Put {
        transaction,
        enlistment,
        key,
        value,
    }))
}

/// Reads that no word stands after `script`.
#[tactic(auto, using(line_reader::proofs::Forms::forms))]
fn script(words: &Words<'_>) -> Result<FrontLine, BadCause>
    ensures { IsFrontLine (codes "script" ∷ words.now) result }
{
    words.end()?;
    Ok(FrontLine::Script)
}

/// Reads a line before the script, without its LF.
pub fn front_words(text: &[u8]) -> Result<FrontLine, BadCause>
    ensures { IsFrontLine (words_of text.now) result }
{
    let mut words = Words::new(text);
    let Some(word) = words.next() else {
        return Err(BadCause::MissingWord);
    };
    if word == PUT {
        return put(&mut words);
    }
    if word == SCRIPT {
        return script(&words);
    }
    Err(BadCause::UnknownWord)
}
