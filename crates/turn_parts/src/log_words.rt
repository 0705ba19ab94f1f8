//! What a stop and a restart of the log write there.
ghost use Rattle.std.specs.Prelude.{◌≡◌, ◌≤◌, ◌<◌, ◌+◌, ◌-◌, ◌^◌, ◌⊎◌, ℕ, IfErr, IsTrue, vec_capacity, vec_len};
ghost use Rattle.outside.specs.Disk.{AreWithin};
ghost use Rattle.dtx_model.specs.Words.{past_of};
ghost use Rattle.turn_parts.specs.Reopening.{IsReopened, opened_where, restart_answer, restarted, stop_noted};
ghost use Rattle.tx_world.specs.Kept.{stop_if};

use coordinator_log::{Log, LogRefusal};
use dtx_values::{ActorNo, Answer, Entry, LogNote};
use outside::Disk;

/// Stops the log and opens it again.
pub fn reopened<D: Disk>(log: &mut Log<D>) -> Result<u16, LogRefusal>
    requires { log.old.life < 2 ^ 64 - 1 }
    ensures reopened { IsReopened D.faults D.honest D.seen result log.old log.new }
    ensures only { IfErr result (λ e. (e ≡ LogRefusal.Fault) ⊎ ((p : ℕ) × (e ≡ LogRefusal.NotALog p))) }
    ensures grows { D.faults log.old.disk ≤ D.faults log.new.disk }
    ensures among { IsTrue D.honest → D.image log.old.disk (D.seen log.old.disk) }
    ensures within { IsTrue D.honest → AreWithin (D.image log.old.disk) (D.image log.new.disk) }
{
    log.halt();
    log.reopen()
}

/// What a restart is answered.
pub fn restart_answer(found: &Result<u16, LogRefusal>) -> Answer
    ensures { result ≡ restart_answer found.now }
{
    match found {
        Ok(_) => Answer::Fine,
        Err(LogRefusal::NotALog(place)) => Answer::NotALog(*place),
        Err(_) => Answer::Fault,
    }
}

/// Writes what a restart by a line wrote at the log.
pub fn write_restart(
    entries: &mut Vec<Entry>,
    line: u32,
    a: ActorNo,
    was_up: bool,
    found: &Result<u16, LogRefusal>,
)
    requires { vec_len entries.old + 3 ≤ vec_capacity entries.old }
    ensures { past_of entries.new.items ≡ restarted line a was_up found.now (past_of entries.old.items) }
{
    entries.push_reserved(Entry::Called(line, a, restart_answer(found)));
    write_stopped(entries, was_up);
    write_opened(entries, found);
}

/// Writes `stopped` where the log was up and isn't any more.
pub fn write_stop(entries: &mut Vec<Entry>, was_up: bool, is_up: bool)
    requires { vec_len entries.old + 1 ≤ vec_capacity entries.old }
    ensures { past_of entries.new.items ≡ stop_noted was_up is_up (past_of entries.old.items) }
{
    if was_up && !is_up {
        entries.push_reserved(Entry::Stopped);
    }
}

/// Writes `stopped` where the log was up.
fn write_stopped(entries: &mut Vec<Entry>, was_up: bool)
    requires { vec_len entries.old + 1 ≤ vec_capacity entries.old }
    ensures past { past_of entries.new.items ≡ stop_if was_up (past_of entries.old.items) }
    ensures room { vec_len entries.new ≤ vec_len entries.old + 1 }
    ensures capacity { vec_capacity entries.new ≡ vec_capacity entries.old }
{
    if was_up {
        entries.push_reserved(Entry::Stopped);
    }
}

/// Writes `opened` where the log was opened.
fn write_opened(entries: &mut Vec<Entry>, found: &Result<u16, LogRefusal>)
    requires { vec_len entries.old + 1 ≤ vec_capacity entries.old }
    ensures { past_of entries.new.items ≡ opened_where found.now (past_of entries.old.items) }
{
    if let Ok(records) = found {
        entries.push_reserved(Entry::LogWord(LogNote::Opened(*records)));
    }
}
