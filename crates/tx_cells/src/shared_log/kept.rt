//! What the log's lock gives, as the type knows it.
ghost use Rattle.tx_cells.specs.LogCell.{IsLogKept};

use super::LogState;
use crate::run::Run;
use outside::Disk;

impl<D: Disk, N: Run> LogState<D, N> {
    /// What the log's lock gives, as the type knows it. It does nothing when it runs; a caller's proof asks for it.
    pub fn is_kept(&self)
        ensures { IsLogKept D.faults D.honest D.image N.script N.honest N.faults self.now }
    {
        let _ = &self.rows;
    }
}
