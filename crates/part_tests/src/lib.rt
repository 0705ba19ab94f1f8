//! Tests of the parts that decide, through their public calls alone. They stand apart from the parts, since a
//! crate with tests is proved twice.
#![tactic(auto)]

#[cfg(test)]
mod full;
#[cfg(test)]
mod half;
#[cfg(test)]
mod handover;
#[cfg(test)]
mod proxy;
#[cfg(test)]
mod rows;
#[cfg(test)]
mod single;
#[cfg(test)]
mod values;
#[cfg(test)]
mod verdicts;
