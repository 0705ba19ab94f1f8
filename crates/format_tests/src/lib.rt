//! Tests of what is read and written, through public calls alone: disks, scripts, traces, frames and pieces of them, connections, the log and its listing, and recovery information.
//! They stand apart from the crates that they test, since a crate with tests is proved twice. Each says what no clause does, or has rows that were worked by hand.
#![tactic(auto)]

#[cfg(test)]
mod disks;
#[cfg(test)]
mod frames;
#[cfg(test)]
mod log;
#[cfg(test)]
mod recovery;
#[cfg(test)]
mod scripts;
#[cfg(test)]
mod sessions;
#[cfg(test)]
mod streams;
#[cfg(test)]
mod traces;
