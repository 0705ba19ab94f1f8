//! Tests of whole runs on threads, and of what a manager's object hears, in a replay too. They stand apart from the crates that they test, since a crate with tests is proved twice.
#![tactic(auto)]

#[cfg(test)]
mod objects;
#[cfg(test)]
mod runs;
