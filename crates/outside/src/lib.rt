//! The outside: where bytes come from, where they go and where they last, and what stands in for each in
//! memory.
//!
//! A [`Source`] is read and a [`Sink`] is written. Each has a meaning, the bytes that are left or were
//! written, where it tells them, and a count of faults that never falls. `Failed` comes only from a
//! call in which that count rose, or stands at the last value of its `u64`.
//!
//! - [`MemSource`] and [`MemSink`] hold bytes in memory, and fail at the calls that one names.
//! - [`SureSource`] and [`SureSink`] hold bytes in memory, and never fail.
//! - [`StdSource`] and [`StdSink`] are the input and the output of the process. They tell nothing of
//!   their content, so no clause says which bytes they give or take.
//!
//! A [`Disk`] has a fixed length, and is read and written at any place. Its content outlives a crash: what
//! a crash may leave are its images, and a sync leaves one alone. Its faults are counted as those of the
//! others.
//!
//! - [`MemDisk`] holds its bytes in memory, and fails at the calls that one names. An [`Image`] is what a
//!   crash is wished to leave.
//! - [`SureDisk`] holds its bytes in memory, and never fails.
//! - [`FileDisk`] is a file of the system. It isn't honest: it tells nothing of its content. One program has
//!   it at a time, and after a sync that failed it answers nothing more.
//! - A [`Relay`] is a disk whose writes and syncs somebody else does.
//!
//! A [`Gate`] is a place that each reply on threads goes by, where a test may hold it. [`OpenGate`] holds
//! nothing.
//!
//! A [`Clock`] counts milliseconds. [`SystemClock`] is the system's, and [`MemClock`] has a list of readings.
//!
//! All rules here are definitions of this project.
#![tactic(auto)]

mod clock;
mod disk;
mod failure;
mod file_disk;
mod gate;
mod mem_disk;
mod memory;
mod plan;
mod relay;
mod sheet;
mod sink;
mod source;
mod standard;
mod sure;
mod sure_disk;
mod tape;

pub use clock::{Clock, MemClock, SystemClock};
pub use disk::Disk;
pub use dtx_values::Image;
pub use failure::{Failed, WriteError};
pub use file_disk::{FileDisk, read_range, write_range};
pub use gate::{Gate, OpenGate};
pub use mem_disk::MemDisk;
pub use memory::{MemSink, MemSource};
pub use relay::Relay;
pub use sink::Sink;
pub use source::Source;
pub use standard::{StdSink, StdSource};
pub use sure::{SureSink, SureSource};
pub use sure_disk::SureDisk;
