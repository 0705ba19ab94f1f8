//! Why the log doesn't do what it is asked.
use crate::device::Broken;
use outside::Failed;

/// Why a call of the log didn't do its work.
#[derive(Clone, Copy, PartialEq, Eq, Debug)]
pub enum LogRefusal {
    /// A call of the disk met a fault.
    Fault,
    /// The bytes are no log; the first place, from 0, of another form.
    NotALog(u64),
    /// The log is stopped, or the life that was given isn't the log's.
    Stopped,
    /// The gates of all so many slots are open.
    Full(u16),
    /// A fault of the disk or the armed stop broke this call off, and the log is stopped.
    StoppedNow,
    /// No record has this identifier.
    NoSuch(u128),
    /// Memory ran out.
    Memory,
}

impl From<Failed> for LogRefusal {
    ghost use Rattle.std.specs.Prelude.{◌≡◌};
    ghost use Rattle.coordinator_log.specs.declared.refusal.LogRefusal.TheVariants.{Fault};

    ghost from_gives = { λ _ e. e ≡ Fault };

    fn from(_fault: Failed) -> LogRefusal {
        LogRefusal::Fault
    }
}

impl From<Broken> for LogRefusal {
    ghost use Rattle.std.specs.Prelude.{◌≡◌};
    ghost use Rattle.coordinator_log.specs.declared.refusal.LogRefusal.TheVariants.{StoppedNow};

    ghost from_gives = { λ _ e. e ≡ StoppedNow };

    fn from(_broken: Broken) -> LogRefusal {
        LogRefusal::StoppedNow
    }
}
