//! Doubt: whether whoever held the commit answered in doubt, or was lost.
ghost use Rattle.std.specs.Prelude.{◌≡◌, ◌==◌, [], ◌∷◌};
ghost use Rattle.dtx_model.specs.Words.{has, ever, past_of, all_of};
ghost use Rattle.dtx_model.specs.Entries.{handed_of, is_owner};
ghost use Rattle.dtx_model.specs.Outcome.{volatiles, is_lost_owner, owner_doubt, coordinator_doubt, ended_there, is_deciding, is_lost_single, single_doubt, doubt, hears_doubt};
ghost use Rattle.dtx_values.specs.declared.words.Outcome.TheVariants.{InDoubt};

use crate::entries::is_volatile;
use crate::scans::{
    has_any_owner, has_begin_end, has_hand, has_one_got, has_outcome_got, has_owner,
    has_single_sent, has_voter_end, has_yes,
};
use dtx_values::{Conn, Dir, EnlNo, Entry, Outcome, Party, has_line};

/// Whether the entry handed the commit to an owner that answered in doubt in h.
#[tactic(auto, using(dtx_model::proofs::Reading::reading))]
fn is_handed_in_doubt(h: &[Entry], x: &Entry) -> bool
    ensures { result ≡ has (λ e. has (is_owner e.value InDoubt) (past_of h.now)) (all_of handed_of (x.now ∷ [])) }
{
    match *x {
        Entry::Handed(e) => has_owner(h, e, Outcome::InDoubt),
        _ => false,
    }
}

/// Whether an owner was handed the commit and answered in doubt.
fn has_handed_in_doubt(h: &[Entry]) -> bool
    ensures { result ≡ has (λ x. has (λ e. has (is_owner e.value InDoubt) (past_of h.now)) (all_of handed_of (x ∷ []))) h.now }
{
    h.iter().any(|x| is_handed_in_doubt(h, x))
}

/// Whether the entry is the loss of an owner that was handed the commit in h and hadn't answered.
#[tactic(auto, using(dtx_model::proofs::Reading::reading))]
fn is_lost_owner(h: &[Entry], x: &Entry) -> bool
    ensures { result ≡ is_lost_owner (past_of h.now) x.now }
{
    match *x {
        Entry::Lost(e) => has_hand(h, e) && !has_any_owner(h, e),
        _ => false,
    }
}

/// Whether an owner was lost after the handing without an answer.
#[tactic(auto, using(dtx_model::proofs::Prefixes::prefixes))]
fn has_lost_owner(h: &[Entry]) -> bool
    ensures { result ≡ ever is_lost_owner (past_of h.now) }
{
    for (i, x) in h.iter().enumerate() {
        if is_lost_owner(&h[..i], x) {
            return true;
        }
    }
    false
}

/// Whether the owner answered in doubt, or was lost after the handing without an answer.
#[tactic(auto, using(dtx_model::proofs::Reading::reading), unfolding(dtx_model::specs::Outcome::owner_doubt))]
fn is_owner_in_doubt(h: &[Entry]) -> bool
    ensures { result ≡ owner_doubt (past_of h.now) }
{
    has_handed_in_doubt(h) || has_lost_owner(h)
}

/// Whether the local side said yes, saw the ends of both connections, and heard no outcome.
#[tactic(auto, using(dtx_model::proofs::Reading::reading), unfolding(dtx_model::specs::Outcome::coordinator_doubt))]
fn is_coordinator_in_doubt(h: &[Entry]) -> bool
    ensures { result ≡ coordinator_doubt (past_of h.now) }
{
    has_yes(h) && has_begin_end(h) && has_voter_end(h) && !has_outcome_got(h)
}

/// The enlistment whose connection ends for the coordinator by the entry.
pub fn ended_there(x: &Entry) -> Option<EnlNo>
    ensures { result ≡ ended_there x.now }
{
    match *x {
        Entry::Down(Conn::Enl(e), Dir::Up) => Some(e),
        Entry::Got(Conn::Enl(e), Dir::Up, m) => {
            if has_line(Conn::Enl(e), Dir::Up, m) {
                None
            } else {
                Some(e)
            }
        }
        _ => None,
    }
}

/// Whether the one that the coordinator let decide was lost by the entry before it answered.
#[tactic(auto, using(dtx_model::proofs::Reading::reading))]
fn is_lost_single(h: &[Entry], x: &Entry) -> bool
    ensures { result ≡ is_lost_single (past_of h.now) x.now }
{
    match ended_there(x) {
        Some(e) => has_single_sent(h, e) && !has_one_got(h, e),
        None => false,
    }
}

/// Whether the one that the coordinator let decide was lost before it answered.
#[tactic(auto, using(dtx_model::proofs::Prefixes::prefixes), unfolding(dtx_model::specs::Outcome::single_doubt))]
fn is_single_in_doubt(h: &[Entry]) -> bool
    ensures { result ≡ single_doubt (past_of h.now) }
{
    for (i, x) in h.iter().enumerate() {
        if is_lost_single(&h[..i], x) {
            return true;
        }
    }
    false
}

/// Whether whoever held the commit answered in doubt, or was lost.
#[tactic(auto, unfolding(dtx_model::specs::Outcome::doubt))]
pub fn has_doubt(h: &[Entry]) -> bool
    ensures { result ≡ doubt (past_of h.now) }
{
    is_owner_in_doubt(h) || is_coordinator_in_doubt(h) || is_single_in_doubt(h)
}

/// Whether the entry enlists e as a volatile.
fn is_volatile_entry(e: EnlNo, x: &Entry) -> bool
    ensures { result ≡ has (λ y. e.value == y.0.value) (volatiles (x.now ∷ [])) }
{
    match *x {
        Entry::Enlisted(f, c) => is_volatile(c) && e == f,
        _ => false,
    }
}

/// Whether e is a volatile.
fn has_volatile(h: &[Entry], e: EnlNo) -> bool
    ensures { result ≡ has (λ x. has (λ y. e.value == y.0.value) (volatiles (x ∷ []))) h.now }
{
    h.iter().any(|x| is_volatile_entry(e, x))
}

/// Whether this party may hear that the outcome is in doubt: the client and the volatiles may.
#[tactic(auto, using(dtx_model::proofs::Reading::reading))]
pub fn hears_doubt(h: &[Entry], p: Party) -> bool
    ensures { result ≡ hears_doubt (past_of h.now) p }
{
    match p {
        Party::Client => true,
        Party::Enl(e) => has_volatile(h, e),
    }
}
