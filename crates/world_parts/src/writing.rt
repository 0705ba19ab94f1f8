//! What a step of the local side makes of the rest of its world.
ghost use Rattle.std.specs.Prelude.{◌≡◌, ◌≤◌, ◌+◌, ◌&&◌, not, true, false, if◌then◌else◌};
ghost use Rattle.dtx_model.specs.Words.{has, onto};
ghost use Rattle.dtx_model.specs.Caused.{is_begin_sent};
ghost use Rattle.world_parts.specs.Stopping.{stop_if, stopped_if};
ghost use Rattle.world_parts.specs.Sending.{MayWrite};

use crate::at_log::AtLog;
use crate::history::History;
use coordinator_core::Core;
use dtx_values::{Conn, Dir, Entry, Message};
use entry_lists::Entries;

/// Whether the entry sends BEGIN.
fn is_begin_sent(x: &Entry) -> bool
    ensures { result ≡ is_begin_sent x.now }
{
    matches!(x, Entry::Sent(Conn::Begin, Dir::Up, Message::BeginBegin))
}

/// Whether BEGIN is sent by one of these entries.
fn sends_begin(block: &[Entry]) -> bool
    ensures { result ≡ has is_begin_sent block.now }
{
    block.iter().any(is_begin_sent)
}

/// Whether BEGIN was sent by one of these entries of a history.
pub fn has_begun(entries: &Entries) -> bool
    ensures { result ≡ has is_begin_sent entries.now.items }
{
    for i in 0..entries.len() {
        if is_begin_sent(&entries.at(i)) {
            return true;
        }
    }
    false
}

/// Stops the coordinator, where it has to.
pub fn stop_if(history: &mut History, core: &mut Core, stops: bool)
    requires runs { stops ≡ true → core.old.state.stopped ≡ false }
    requires room { 1 ≤ history.old.room }
    ensures past { history.new.past ≡ stop_if stops history.old.past }
    ensures room { history.old.room ≤ history.new.room + 1 }
    ensures core { core.new ≡ stopped_if stops core.old }
{
    if stops {
        core.stopped();
        history.stop();
    }
}

/// Writes the block of a step of the local side, and says whether it sends BEGIN. Where it does while the log is stopped, as `up` says, the coordinator stops at once.
pub fn write_near(history: &mut History, core: &mut Core, block: &[Entry], up: bool) -> bool
    requires { MayWrite history.old block.now core.old }
    ensures begins { result ≡ has is_begin_sent block.now }
    ensures past { history.new.past ≡ stop_if (has is_begin_sent block.now && not up) (onto history.old.past block.now) }
    ensures core { core.new ≡ stopped_if (has is_begin_sent block.now && not up) core.old }
{
    history.write(block, core.is_stopped());
    let begins = sends_begin(block);
    stop_if(history, core, begins && !up);
    begins
}

/// The coordinator begins to live in this life of the log, where BEGIN was sent.
pub fn live(at_log: &mut AtLog, begins: bool, log_life: u64)
    ensures { at_log.new ≡ record at_log.old { life = (if begins then log_life else at_log.old.life) } }
{
    if begins {
        at_log.begin(log_life);
    }
}
