//! The handover.
ghost use Rattle.std.specs.Prelude.{◌≡◌, None, Some};
ghost use Rattle.promotion.specs.Handover.{after_end, after_failure, after_news, after_start, is_under_way, next_act, place_of, unstarted};

use dtx_values::{Cause, EnlNo};
use std::marker::Model;
use tm_proxy::ProxyNews;

/// Where the right to decide a transaction's outcome stands.
#[derive(Clone, Copy, PartialEq, Eq, Debug)]
pub enum Right {
    /// The local side decides.
    Local,
    /// The commit was handed to the one enlistment that owns it, by the local side or by the coordinator. (Single-phase commit of
    /// System.Transactions.)
    Owner,
    /// The transaction is on its way to the coordinator.
    InFlight,
    /// The coordinator was asked to commit.
    Coordinator,
    /// It was decided.
    Spent,
}

/// What a handover does next.
#[derive(Clone, Copy, PartialEq, Eq, Debug)]
pub enum HandoverAct {
    Nothing,
    /// The local side asks to vote.
    SendVoter,
    /// The enlistment that stood when the promotion began is enlisted at the coordinator.
    SendEnlist(EnlNo),
    /// The transaction is promoted.
    Over,
}

/// The handover of one transaction. Contracts see why it was started, the enlistment that it hands over, and whether it is over or failed.
#[derive(Clone, Copy, PartialEq, Eq, Debug)]
pub struct Handover {
    cause: Option<Cause>,
    stands: Option<EnlNo>,
    over: bool,
    failed: bool,
}

impl Model for Handover {
    ghost use Rattle.promotion.specs.Handover.{Promotion};

    ghost Value = { Promotion };

    ghost view = { λ h. record { cause = h.cause; stands = h.stands; over = h.over; failed = h.failed } };

    ghost inverse = { λ p. record { cause = p.cause; stands = p.stands; over = p.over; failed = p.failed } };
}

impl Handover {
    /// No handover was started.
    pub fn new() -> Self
        ensures { result ≡ unstarted }
    {
        Handover {
            cause: None,
            stands: None,
            over: false,
            failed: false,
        }
    }

    /// Starts the handover, for this cause and of this enlistment: the one durable or promotable that stands, if there is one.
    pub fn start(&mut self, cause: Cause, stands: Option<EnlNo>)
        requires { self.old.cause ≡ None }
        ensures { self.new ≡ after_start cause stands }
    {
        self.cause = Some(cause);
        self.stands = stands;
        self.over = false;
        self.failed = false;
    }

    /// What is done next once the local side hears this. `Over` ends the handover.
    pub fn got(&mut self, n: &ProxyNews) -> HandoverAct
        ensures act { result ≡ next_act self.old n.now }
        ensures state { self.new ≡ after_news self.old n.now }
    {
        if !self.is_under_way() {
            return HandoverAct::Nothing;
        }
        let stands = self.stands;
        match (*n, stands) {
            (ProxyNews::Begun(_), _) => HandoverAct::SendVoter,
            (ProxyNews::Created, Some(e)) => HandoverAct::SendEnlist(e),
            (ProxyNews::Created, None) => self.finish(),
            (ProxyNews::Enlisted(e), Some(f)) => {
                if e == f {
                    self.finish()
                } else {
                    HandoverAct::Nothing
                }
            }
            _ => HandoverAct::Nothing,
        }
    }

    /// Ends the handover.
    fn finish(&mut self) -> HandoverAct
        ensures act { result ≡ HandoverAct.Over }
        ensures state { self.new ≡ after_end self.old }
    {
        self.over = true;
        HandoverAct::Over
    }

    /// Makes the handover fail.
    pub fn fail(&mut self)
        ensures { self.new ≡ after_failure self.old }
    {
        self.failed = true;
    }

    /// Where the right to decide stands, in a transaction whose commit was handed to its owner or not, which asked the coordinator to commit or not,
    /// and which is decided or not.
    pub fn place(&self, handed: bool, commit_sent: bool, decided: bool) -> Right
        ensures { result ≡ place_of handed commit_sent decided self.now }
    {
        if decided {
            Right::Spent
        } else if handed {
            Right::Owner
        } else if commit_sent {
            Right::Coordinator
        } else if self.is_under_way() {
            Right::InFlight
        } else {
            Right::Local
        }
    }

    /// Why it was started, if it was.
    pub fn cause(&self) -> Option<Cause>
        ensures { result ≡ self.now.cause }
    {
        self.cause
    }

    /// The enlistment that it hands over, if there is one.
    pub fn stands(&self) -> Option<EnlNo>
        ensures { result ≡ self.now.stands }
    {
        self.stands
    }

    /// Whether it was started, isn't over and didn't fail.
    pub fn is_under_way(&self) -> bool
        ensures { result ≡ is_under_way self.now }
    {
        self.cause.is_some() && !self.over && !self.failed
    }

    /// Whether it is over: the transaction is promoted.
    pub fn is_over(&self) -> bool
        ensures { result ≡ self.now.over }
    {
        self.over
    }

    /// Whether it failed.
    pub fn has_failed(&self) -> bool
        ensures { result ≡ self.now.failed }
    {
        self.failed
    }
}
