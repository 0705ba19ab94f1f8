//! Tests of the books of the program `ledger`: each of their disks is left with each of its images at each stop, and at each stop of the recovery after it.
#![tactic(auto)]

#[cfg(test)]
mod crashes;
#[cfg(test)]
mod processes;
#[cfg(test)]
mod remakes;
