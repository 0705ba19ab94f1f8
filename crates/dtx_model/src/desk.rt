//! What the coordinator knows of a transaction and of its enlistments.
use dtx_values::{EnlNo, Numbered, RmNo};

/// How far a transaction is at the coordinator. (Presumed abort, with the stages of this project.)
#[derive(Clone, Copy, PartialEq, Eq, Debug)]
pub enum Stage {
    /// Nothing came.
    Idle,
    /// It was begun, and nothing is decided.
    Active,
    /// It was begun, and COMMIT for a single phase was got: nothing is decided, and its one enlistment is going to decide.
    Sole,
    /// SINGLE was sent to its one enlistment, which decides.
    Given,
    /// Its one enlistment said committed or in doubt, or was lost before it answered. Nothing more comes of it in this life.
    Answered,
    /// It aborted in this life of the coordinator.
    Aborted,
    /// Its record is durable.
    Recorded,
    /// Its record was freed, or a restart didn't find it any more.
    Over,
    /// A restart found no record, and none stood before: it is aborted.
    Unknown,
}

/// The vote of an enlistment at the coordinator.
#[derive(Clone, Copy, PartialEq, Eq, Debug)]
pub enum Ballot {
    Prepared,
    Refused,
    ReadOnly,
}

/// An enlistment at the coordinator.
#[derive(Clone, Copy, PartialEq, Eq, Debug)]
pub struct Desk {
    pub enlistment: EnlNo,
    pub manager: RmNo,
    /// Its vote, once that came.
    pub ballot: Option<Ballot>,
    /// Whether its acknowledgement came in this life of the coordinator.
    pub acked: bool,
}

impl Numbered for Desk {
    ghost use Rattle.dtx_model.specs.Coordinated.{desk_number};

    ghost key = { desk_number };

    fn number(&self) -> u32 {
        self.enlistment.get()
    }
}

/// The first enlistment of the first manager, of which nothing came: a place that isn't used yet holds it.
impl Default for Desk {
    fn default() -> Desk {
        Desk {
            enlistment: EnlNo::default(),
            manager: RmNo::new(1).unwrap(),
            ballot: None,
            acked: false,
        }
    }
}
