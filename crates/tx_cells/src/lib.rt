//! What lies under the locks of one run on threads: that of each transaction and that of the log, and what is seen on the board without a lock. The turns of the threads are in the crate `tx_threads`.
#![tactic(auto)]

mod board;
mod cell;
mod cells;
mod choosing;
mod error;
mod lent;
mod making;
mod places;
mod posting;
mod promoting;
mod run;
mod shared_log;
mod turns;

pub use board::{BoardNote, Posted};
pub use cell::CellState;
pub use cells::{Cells, TxCell, peek_outcome};
pub use error::TurnError;
pub use making::Made;
pub use run::Run;
pub use shared_log::{LogState, SharedLog};
pub use turns::{Turn, Turned};
