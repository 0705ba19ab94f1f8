//! What the caller does after the threads of a run ended.
ghost use Rattle.std.specs.Prelude.{◌≡◌, IfErr, OnOk, length};
ghost use Rattle.run_endings.specs.Finished.{AreFinished};
ghost use Rattle.run_endings.specs.Finishing.{HaveSameNumbers, MayAsk};
ghost use Rattle.run_endings.specs.Stops.{EndsFor};

use crate::stop::RunStop;
use dtx_values::{Resource, RmNo, Script};
use outside::Disk;
use tx_cells::{CellState, LogState, Run};

mod entering;
mod following;
mod ordering;
mod settling;
mod testing;

use entering::enter_all;
use following::follow_all;
use settling::settle_all;
use testing::test_all;

/// Does the rest of a run after its threads ended, alone: each transaction hears of the log's state, each call that isn't entered yet is entered, each transaction is settled, and then each is tested.
///
/// `managers` has the manager of each enlistment, and `resources` the objects of the first managers: each is asked for the replies of its enlistments. The states are those of the script's transactions, by number. Each is of the same transaction afterwards, also after an error.
///
/// # Errors
///
/// - [`RunStop::Memory`] where memory ran out.
/// - [`RunStop::Differs`] where one of the states doesn't tie with the log.
/// - [`RunStop::Astray`] where the states that are there then aren't those of the script's transactions, by number, one of them doesn't follow the log, or a call of a line before `par` doesn't come first.
pub fn finish<D: Disk, N: Run>(
    s: &Script,
    managers: &[Option<RmNo>],
    resources: &mut [Box<dyn Resource + Send>],
    states: &mut [CellState<N>],
    log: &mut LogState<D, N>,
) -> Result<(), RunStop>
    requires named { s.now ≡ N.script }
    requires asked { MayAsk N.script N.objects managers.now (length resources.old) }
    ensures finished { OnOk result (AreFinished N.script states.new log.new) }
    ensures cause { IfErr result (EndsFor N.script states.new log.new) }
    ensures numbers { HaveSameNumbers states.old states.new }
    ensures objects { length resources.new ≡ length resources.old }
{
    follow_all(states, log)?;
    enter_all(managers, resources, states, log)?;
    settle_all(managers, resources, states, log)?;
    test_all(s, states, log)
}
