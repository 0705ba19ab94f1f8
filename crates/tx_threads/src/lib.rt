//! The threads of one run: what each does with a transaction under its lock, at the log under its lock, and between two holds. What goes on inside one turn is in the crate `lent_turns`, and what lies under the locks in the crate
//! `tx_cells`, which this one hands on.
#![tactic(auto)]

mod awaiting;
mod calling;
mod helping;

pub use awaiting::await_as;
pub use calling::{call_as, call_at_log};
pub use helping::help_one;
pub use tx_cells::{
    BoardNote, CellState, Cells, LogState, Posted, Run, SharedLog, Turn, TurnError, Turned, TxCell,
    peek_outcome,
};
