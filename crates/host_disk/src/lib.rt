//! A disk whose bytes are in memory, and whose writes and syncs the host, a program in C, does in its file.
//!
//! A [`HostDisk`] keeps each write and each sync as a [`Request`]. The host does what is asked for, in this order, and then settles the disk: what was asked for is
//! forgotten. Once it did all, its file has the bytes that a read gives.
//!
//! All rules here are definitions of this project.
#![tactic(auto)]

mod host_disk;
mod request;

pub use host_disk::HostDisk;
pub use request::{BRIEF, Request};

#[cfg(test)]
mod tests;
