//! Tests of the whole of one transaction, through public calls alone. They stand apart from the crates that they
//! test, since a crate with tests is proved twice.
#![tactic(auto)]

#[cfg(test)]
mod alone;
#[cfg(test)]
mod worlds;
