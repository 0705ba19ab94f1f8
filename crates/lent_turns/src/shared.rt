//! What the threads of a run share.
ghost use Rattle.std.specs.Prelude.{◌≡◌, None};

use dtx_values::Resource;
use outside::{Disk, Gate};
use std::sync::Mutex;
use tx_cells::{Cells, LogState, Run, SharedLog};

/// What the threads of a run share: its transactions, its log, the gate before each reply, and the objects of its first managers, each in a lock.
#[derive(Drop)]
pub struct SharedRun<'a, D: Disk, G: Gate, N: Run> {
    /// The transactions.
    pub cells: &'a Cells<N>,
    /// The log.
    pub log: &'a SharedLog<D, N>,
    /// The gate, which is called before each reply.
    pub gate: &'a G,
    /// The objects, by manager.
    pub resources: &'a [Mutex<Box<dyn Resource + Send>>],
}

impl<'a, D: Disk, G: Gate, N: Run> SharedRun<'a, D, G, N> {
    /// These parts of a run.
    pub fn new(
        cells: &'a Cells<N>,
        log: &'a SharedLog<D, N>,
        gate: &'a G,
        resources: &'a [Mutex<Box<dyn Resource + Send>>],
    ) -> Self
        ensures { result.resources.now ≡ resources.now }
    {
        SharedRun {
            cells,
            log,
            gate,
            resources,
        }
    }
}

/// What a call of a transaction's state is lent of the log where it needs none of it.
pub fn unlent<'a, D: Disk, N: Run>(_log: &'a SharedLog<D, N>) -> Option<&'a LogState<D, N>>
    ensures { result ≡ None }
{
    None
}

/// The same, where the call would change the log.
pub(crate) fn unlent_mut<'a, D: Disk, N: Run>(
    _log: &'a SharedLog<D, N>,
) -> Option<&'a mut LogState<D, N>>
    ensures { result ≡ None }
{
    None
}
