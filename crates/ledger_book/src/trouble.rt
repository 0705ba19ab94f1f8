//! Why a call of a book isn't done.
use crate::account::Side;
use kv_resource::KvRefusal;
use std::fmt::{self, Display, Formatter, Write};
use thiserror::Error;
use transactions::{OpenError, RecoverRefusal};

/// One of the three disks of a book.
#[derive(Clone, Copy, PartialEq, Eq, Debug)]
pub enum Part {
    /// The coordinator's log.
    Log,
    /// The store of resource manager 1.
    Left,
    /// The store of resource manager 2.
    Right,
}

impl Part {
    /// The disk of a store.
    pub fn of(side: Side) -> Part {
        match side {
            Side::Left => Part::Left,
            Side::Right => Part::Right,
        }
    }

    /// Its name, which is also that of its file.
    pub fn name(self) -> &'static str {
        match self {
            Part::Log => "log",
            Part::Left => "left",
            Part::Right => "right",
        }
    }
}

impl Display for Part {
    fn fmt<W: Write>(&self, f: &mut Formatter<W>) -> fmt::Result {
        write!(f, "{}", self.name())
    }
}

/// Why a call of a book isn't done.
#[derive(Clone, Copy, PartialEq, Eq, Debug, Error)]
pub enum Trouble {
    /// A disk failed, or stopped.
    #[error("disk fault")]
    Fault,
    /// Memory ran out.
    #[error("out of memory")]
    Memory,
    /// The disk has no log, or no store: the first place, from 0, of another form.
    #[error("{0} is none, at place {1}")]
    NotOne(Part, u64),
    /// The store isn't of this log: it holds what the log doesn't know.
    #[error("{0} is another's")]
    Others(Part),
}

impl Trouble {
    /// Why the log isn't taken up.
    pub(crate) fn of_log(e: OpenError) -> Trouble {
        match e {
            OpenError::Memory => Trouble::Memory,
            OpenError::Fault => Trouble::Fault,
            OpenError::NotALog(place) => Trouble::NotOne(Part::Log, place),
        }
    }

    /// Why a store isn't taken up.
    pub(crate) fn of_store(part: Part, e: KvRefusal) -> Trouble {
        match e {
            KvRefusal::Memory => Trouble::Memory,
            KvRefusal::NotAStore(place) => Trouble::NotOne(part, place),
            _ => Trouble::Fault,
        }
    }

    /// Why a store isn't recovered.
    pub(crate) fn of_recovery(part: Part, e: RecoverRefusal) -> Trouble {
        match e {
            RecoverRefusal::Later(_) | RecoverRefusal::GoesOn(_) | RecoverRefusal::NotNamed(_) => {
                Trouble::Others(part)
            }
            RecoverRefusal::Memory => Trouble::Memory,
            RecoverRefusal::Failed | RecoverRefusal::LogStopped => Trouble::Fault,
        }
    }
}
