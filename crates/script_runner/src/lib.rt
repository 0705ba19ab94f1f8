//! Runs scripts: the top call of the program.
#![tactic(auto)]

mod arrows;
mod checks;
mod found_fine;
mod program;
mod running;
mod table;
mod tables;
mod threads;

pub use arrows::each_run_has_its_arrows;
pub use coordinator_log::LOG_BYTES;
pub use found_fine::each_run_is_found_fine;
pub use program::run_program;
pub use program_io::Exit;
pub use replay_runs::run_replay;
pub use script_text::BadCause;
pub use threads::{ThreadsError, run_threads};
