//! Places, parties and ambient transactions that are read.
ghost use Rattle.std.specs.Prelude.{◌≡◌, IfSome, Option, Some};
ghost use Rattle.dtx_values.specs.declared.entry.Party.{Party};
ghost use Rattle.dtx_values.specs.declared.number.TxNo.{TxNo};
ghost use Rattle.dtx_values.specs.declared.trace.Place.{Place};
ghost use Rattle.dtx_model.specs.TraceText.{ambient_text, party_text, place_text};

use dtx_values::{Party, Place, TxNo};
use line_words::{actor_of, enlistment_of, transaction_of};
use trace_lines::name_words;

/// Reads a place.
pub fn place_of(word: &[u8]) -> Option<Place>
    ensures some { IfSome result (λ p. word.now ≡ place_text p) }
    ensures of { (p : Place) → word.now ≡ place_text p → result ≡ Some p }
{
    if word == name_words::LOG {
        return Some(Place::Log);
    }
    if let Some(a) = actor_of(word) {
        return Some(Place::Context(a));
    }
    Some(Place::Transaction(transaction_of(word)?))
}

/// Reads who is told an outcome.
pub fn party_of(word: &[u8]) -> Option<Party>
    ensures some { IfSome result (λ p. word.now ≡ party_text p) }
    ensures of { (p : Party) → word.now ≡ party_text p → result ≡ Some p }
{
    if word == name_words::CLIENT {
        return Some(Party::Client);
    }
    Some(Party::Enl(enlistment_of(word)?))
}

/// Reads the ambient transaction of a scope.
pub fn ambient_of(word: &[u8]) -> Option<Option<TxNo>>
    ensures some { IfSome result (λ t. word.now ≡ ambient_text t) }
    ensures of { (t : Option TxNo) → word.now ≡ ambient_text t → result ≡ Some t }
{
    if word == name_words::NONE {
        return Some(None);
    }
    Some(Some(transaction_of(word)?))
}
