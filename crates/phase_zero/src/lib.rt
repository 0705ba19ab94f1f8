//! Phase zero: its waves, and when it is over. (A definition of this project, after EnlistDuringPrepareRequired of System.Transactions.)
#![tactic(auto)]

mod waves;

pub use waves::Waves;
