//! What the local side of a transaction keeps in lists, and what it reads off them: the enlistments at the coordinator, whom the
//! outcome is told to, the calls that wait, the votes, the clock, and what goes out. `local_half` alone calls it.
#![tactic(auto)]

pub mod branches;
pub mod listeners;
pub mod outgoing;
pub mod time;
pub mod votes;
pub mod waits;
