//! Tests of the transaction manager for a program of one's own, through its public calls alone. They stand apart from it, since a crate with tests is
//! proved twice.
#![tactic(auto)]

#[cfg(test)]
mod courses;
#[cfg(test)]
mod objects;
#[cfg(test)]
mod recovering;
#[cfg(test)]
mod scopes;
#[cfg(test)]
mod succeeding;
