//! Tests of the runner, through its public calls alone. They stand apart from it, since a crate with tests is
//! proved twice. Whole runs, also those whose disk, source or sink fails, are lines of the input of `fault_runs`, and
//! examples.
#![tactic(auto)]

#[cfg(test)]
mod runs;
#[cfg(test)]
mod transfers;
