//! The words of a line, read one after another.
ghost use Rattle.std.specs.Prelude.{◌≡◌, ◌∷◌, [], ℕ, List, IfOk, IfErr, IfSome, IfNone, true, decimal};
ghost use Rattle.dtx_model.specs.Grammar.{actor_name, transaction_name, enlistment_name, clone_name, scope_name, manager_name, connection_word, timeout_word, option_word, vote_word, owner_word, promote_word, kind_word, image_word, asked_iso_word, is_from, is_timeout};
ghost use Rattle.dtx_model.specs.Faults.{words_of, number as number_pattern, actor_pattern, transaction_pattern, enlistment_pattern, clone_pattern, scope_pattern, manager_pattern, connection_pattern, timeout_pattern, option_pattern, vote_pattern, owner_pattern, promote_pattern, kind_pattern, image_pattern, iso_pattern};
ghost use Rattle.script_words.specs.Places.{IsAt, place_fault, end_fault};

use crate::causes::cause;
use dtx_values::{
    ActorNo, BadCause, CloneKind, CloneNo, Conn, EnlNo, EnlistOption, Image, IsoWord, Outcome,
    RmNo, ScopeNo, Timeout, TxNo, Vote,
};
use line_tail::cut;
use line_words::{
    ACTOR_LETTER, CLONE_LETTER, ENLISTMENT_LETTER, MANAGER_LETTER, REENLISTMENT_LETTER,
    SCOPE_LETTER, TRANSACTION_LETTER, actor_of, asked_isolation_of, clone_of, connection_of,
    enlistment_of, image_of, kind_of, manager_of, number_from, option_of, owner_plan_of,
    promotion_plan_of, scope_of, timeout_of, transaction_of, vote_plan_of,
};
use std::marker::Model;

/// The words of a line that are left. Contracts see their list.
#[derive(Drop)]
pub struct Words<'a> {
    some: bool,
    rest: &'a [u8],
}

impl<'a> Model for Words<'a> {
    ghost use Rattle.std.specs.Prelude.{ℕ, List};
    ghost use Rattle.script_words.specs.Places.{words_left};

    ghost Value = { List (List ℕ) };

    ghost view = { λ w. words_left w.some w.rest.now };
}

#[tactic(auto, using(crate::proofs::Places::missing))]
impl<'a> Words<'a> {
    /// The words of a line.
    pub fn new(text: &'a [u8]) -> Self
        ensures { result ≡ words_of text.now }
    {
        Words {
            some: !text.is_empty(),
            rest: text,
        }
    }

    /// The next word.
    pub fn next(&mut self) -> Option<&'a [u8]>
        ensures some { IfSome result (λ w. self.old ≡ w.now ∷ self.new) }
        ensures none { IfNone result (self.old ≡ []) }
    {
        if !self.some {
            return None;
        }
        match cut(self.rest, b' ') {
            Some((word, rest)) => {
                self.rest = rest;
                Some(word)
            }
            None => {
                self.some = false;
                Some(self.rest)
            }
        }
    }

    /// No word may be left.
    #[tactic(auto, unfolding(crate::specs::Places::end_fault))]
    pub fn end(&self) -> Result<(), BadCause>
        ensures ok { IfOk result (λ u. self.now ≡ []) }
        ensures fine { IfOk result (λ u. end_fault self.now ≡ None) }
        ensures err { IfErr result (λ c. end_fault self.now ≡ Some c) }
    {
        if self.some {
            return Err(BadCause::ExtraWord);
        }
        Ok(())
    }

    /// Takes an actor's name.
    pub fn actor(&mut self) -> Result<ActorNo, BadCause>
        ensures ok { IfOk result (λ a. IsAt actor_pattern self.old (actor_name a.value) self.new) }
        ensures err { IfErr result (λ c. place_fault actor_pattern self.old ≡ Some c) }
    {
        let Some(word) = self.next() else {
            return Err(BadCause::MissingWord);
        };
        match actor_of(word) {
            Some(a) => Ok(a),
            None => Err(cause(word, &[ACTOR_LETTER], false)),
        }
    }

    /// Takes a transaction's name.
    pub fn transaction(&mut self) -> Result<TxNo, BadCause>
        ensures ok { IfOk result (λ t. IsAt transaction_pattern self.old (transaction_name t.value) self.new) }
        ensures err { IfErr result (λ c. place_fault transaction_pattern self.old ≡ Some c) }
    {
        let Some(word) = self.next() else {
            return Err(BadCause::MissingWord);
        };
        match transaction_of(word) {
            Some(t) => Ok(t),
            None => Err(cause(word, &[TRANSACTION_LETTER], false)),
        }
    }

    /// Takes an enlistment's name.
    pub fn enlistment(&mut self) -> Result<EnlNo, BadCause>
        ensures ok { IfOk result (λ e. IsAt enlistment_pattern self.old (enlistment_name e.value) self.new) }
        ensures err { IfErr result (λ c. place_fault enlistment_pattern self.old ≡ Some c) }
    {
        let Some(word) = self.next() else {
            return Err(BadCause::MissingWord);
        };
        match enlistment_of(word) {
            Some(e) => Ok(e),
            None => Err(cause(word, &[ENLISTMENT_LETTER], false)),
        }
    }

    /// Takes a clone's name.
    pub fn clone(&mut self) -> Result<CloneNo, BadCause>
        ensures ok { IfOk result (λ c. IsAt clone_pattern self.old (clone_name c.value) self.new) }
        ensures err { IfErr result (λ c. place_fault clone_pattern self.old ≡ Some c) }
    {
        let Some(word) = self.next() else {
            return Err(BadCause::MissingWord);
        };
        match clone_of(word) {
            Some(c) => Ok(c),
            None => Err(cause(word, &[CLONE_LETTER], false)),
        }
    }

    /// Takes a scope's name.
    pub fn scope(&mut self) -> Result<ScopeNo, BadCause>
        ensures ok { IfOk result (λ s. IsAt scope_pattern self.old (scope_name s.value) self.new) }
        ensures err { IfErr result (λ c. place_fault scope_pattern self.old ≡ Some c) }
    {
        let Some(word) = self.next() else {
            return Err(BadCause::MissingWord);
        };
        match scope_of(word) {
            Some(s) => Ok(s),
            None => Err(cause(word, &[SCOPE_LETTER], false)),
        }
    }

    /// Takes a manager's name.
    pub fn manager(&mut self) -> Result<RmNo, BadCause>
        ensures ok { IfOk result (λ r. IsAt manager_pattern self.old (manager_name r.value) self.new) }
        ensures err { IfErr result (λ c. place_fault manager_pattern self.old ≡ Some c) }
    {
        let Some(word) = self.next() else {
            return Err(BadCause::MissingWord);
        };
        match manager_of(word) {
            Some(r) => Ok(r),
            None => Err(cause(word, &[MANAGER_LETTER], false)),
        }
    }

    /// Takes a connection.
    pub fn connection(&mut self) -> Result<Conn, BadCause>
        ensures ok { IfOk result (λ c. IsAt connection_pattern self.old (connection_word c) self.new) }
        ensures err { IfErr result (λ c. place_fault connection_pattern self.old ≡ Some c) }
    {
        let Some(word) = self.next() else {
            return Err(BadCause::MissingWord);
        };
        match connection_of(word) {
            Some(c) => Ok(c),
            None => Err(cause(word, &[ENLISTMENT_LETTER, REENLISTMENT_LETTER], false)),
        }
    }

    /// Takes a timeout.
    pub fn timeout(&mut self) -> Result<Timeout, BadCause>
        ensures ok { IfOk result (λ d. IsAt timeout_pattern self.old (timeout_word d) self.new × (is_timeout d ≡ true)) }
        ensures err { IfErr result (λ c. place_fault timeout_pattern self.old ≡ Some c) }
    {
        let Some(word) = self.next() else {
            return Err(BadCause::MissingWord);
        };
        match timeout_of(word) {
            Some(d) => Ok(d),
            None => Err(cause(word, b"", true)),
        }
    }

    /// Takes the option of a volatile enlistment.
    pub fn option(&mut self) -> Result<EnlistOption, BadCause>
        ensures ok { IfOk result (λ o. IsAt option_pattern self.old (option_word o) self.new) }
        ensures err { IfErr result (λ c. place_fault option_pattern self.old ≡ Some c) }
    {
        let Some(word) = self.next() else {
            return Err(BadCause::MissingWord);
        };
        match option_of(word) {
            Some(o) => Ok(o),
            None => Err(cause(word, b"", false)),
        }
    }

    /// Takes the plan of a vote.
    pub fn vote(&mut self) -> Result<Option<Vote>, BadCause>
        ensures ok { IfOk result (λ v. IsAt vote_pattern self.old (vote_word v) self.new) }
        ensures err { IfErr result (λ c. place_fault vote_pattern self.old ≡ Some c) }
    {
        let Some(word) = self.next() else {
            return Err(BadCause::MissingWord);
        };
        match vote_plan_of(word) {
            Some(v) => Ok(v),
            None => Err(cause(word, b"", false)),
        }
    }

    /// Takes the plan of an owner's answer.
    pub fn owner(&mut self) -> Result<Option<Outcome>, BadCause>
        ensures ok { IfOk result (λ o. IsAt owner_pattern self.old (owner_word o) self.new) }
        ensures err { IfErr result (λ c. place_fault owner_pattern self.old ≡ Some c) }
    {
        let Some(word) = self.next() else {
            return Err(BadCause::MissingWord);
        };
        match owner_plan_of(word) {
            Some(o) => Ok(o),
            None => Err(cause(word, b"", false)),
        }
    }

    /// Takes the plan of a promotion.
    pub fn promotion(&mut self) -> Result<Option<bool>, BadCause>
        ensures ok { IfOk result (λ p. IsAt promote_pattern self.old (promote_word p) self.new) }
        ensures err { IfErr result (λ c. place_fault promote_pattern self.old ≡ Some c) }
    {
        let Some(word) = self.next() else {
            return Err(BadCause::MissingWord);
        };
        match promotion_plan_of(word) {
            Some(p) => Ok(p),
            None => Err(cause(word, b"", false)),
        }
    }

    /// Takes what a clone does to a commit.
    pub fn kind(&mut self) -> Result<CloneKind, BadCause>
        ensures ok { IfOk result (λ k. IsAt kind_pattern self.old (kind_word k) self.new) }
        ensures err { IfErr result (λ c. place_fault kind_pattern self.old ≡ Some c) }
    {
        let Some(word) = self.next() else {
            return Err(BadCause::MissingWord);
        };
        match kind_of(word) {
            Some(k) => Ok(k),
            None => Err(cause(word, b"", false)),
        }
    }

    /// Takes what a stop leaves of the writes.
    pub fn image(&mut self) -> Result<Image, BadCause>
        ensures ok { IfOk result (λ i. IsAt image_pattern self.old (image_word i) self.new) }
        ensures err { IfErr result (λ c. place_fault image_pattern self.old ≡ Some c) }
    {
        let Some(word) = self.next() else {
            return Err(BadCause::MissingWord);
        };
        match image_of(word) {
            Some(i) => Ok(i),
            None => Err(cause(word, b"", false)),
        }
    }

    /// Takes an isolation.
    pub fn isolation(&mut self) -> Result<IsoWord, BadCause>
        ensures ok { IfOk result (λ i. IsAt iso_pattern self.old (asked_iso_word i) self.new) }
        ensures err { IfErr result (λ c. place_fault iso_pattern self.old ≡ Some c) }
    {
        let Some(word) = self.next() else {
            return Err(BadCause::MissingWord);
        };
        match asked_isolation_of(word) {
            Some(i) => Ok(i),
            None => Err(cause(word, b"", false)),
        }
    }

    /// Takes a number from `low` to `high`.
    pub fn number(&mut self, low: u32, high: u32) -> Result<u32, BadCause>
        ensures ok { IfOk result (λ n. IsAt (number_pattern low high) self.old (decimal n) self.new × (is_from low high n ≡ true)) }
        ensures err { IfErr result (λ c. place_fault (number_pattern low high) self.old ≡ Some c) }
    {
        let Some(word) = self.next() else {
            return Err(BadCause::MissingWord);
        };
        match number_from(word, low, high) {
            Some(n) => Ok(n),
            None => Err(cause(word, b"", true)),
        }
    }
}
