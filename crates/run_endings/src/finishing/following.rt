//! What each transaction hears of the log's state.
ghost use Rattle.std.specs.Prelude.{◌≡◌, IfErr, OnOk};
ghost use Rattle.run_endings.specs.Finishing.{HaveSameCalls, HaveSameNumbers};
ghost use Rattle.run_endings.specs.Stops.{StopsFor};

use crate::stop::RunStop;
use outside::Disk;
use tx_cells::{CellState, LogState, Run};

/// Each transaction, by number, hears what the log's state gives it.
///
/// # Errors
///
/// [`RunStop::Memory`] where memory ran out, and [`RunStop::Differs`] where the log is up and doesn't tie with one of them.
pub(super) fn follow_all<D: Disk, N: Run>(
    states: &mut [CellState<N>],
    log: &LogState<D, N>,
) -> Result<(), RunStop>
    ensures calls { OnOk result (HaveSameCalls states.old states.new) }
    ensures numbers { HaveSameNumbers states.old states.new }
    ensures cause { IfErr result (StopsFor states.new log.now) }
{
    for i in 0..states.len() {
        states[i].follow_log(log)?;
    }
    Ok(())
}

/// The same, where the log was up and isn't any more.
pub(super) fn follow_stop<D: Disk, N: Run>(
    states: &mut [CellState<N>],
    log: &LogState<D, N>,
    was_up: bool,
) -> Result<(), RunStop>
    ensures calls { OnOk result (HaveSameCalls states.old states.new) }
    ensures same { log.now.log.is_up ≡ was_up → states.new ≡ states.old }
    ensures numbers { HaveSameNumbers states.old states.new }
    ensures cause { IfErr result (StopsFor states.new log.now) }
{
    if was_up && !log.is_up() {
        follow_all(states, log)?;
    }
    Ok(())
}
