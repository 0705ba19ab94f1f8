//! The coordinator's log: the commit records that are to outlive a crash, in slots with gates on a disk.
//!
//! A record that was appended is in every image that a crash can leave, at every moment from then on, until it is freed. A call that a fault or an armed stop breaks off
//! leaves each image as before, or as after it: [`crashes_leave_whole_records`]. The layout and the order of the device calls are a definition of this project; the rule
//! that no record means abort is presumed abort's.
//!
//! A log on a disk is a slotted file of 524,800 bytes (see `slotted`): a head, and 1,024 slots. The head is `DTXLOG1`, LF and zeros. A slot, 512 bytes:
//!
//!     0      1        2       4            20            40            60 ..          511
//!     +------+--------+-------+------------+-------------+-------------+--- .. ------+
//!     | gate | format | count | identifier | enlistment  | enlistment  | .. zeros    |
//!     | 1    | 1      | 0..16 | 16 bytes   | 16 + 4      | 16 + 4      |             |
//!     +------+--------+-------+------------+-------------+-------------+--- .. ------+
//!       |      \____________________ the record, written first, then a sync ________/
//!       the gate, written by itself, then a sync: 1 is open, anything else is closed
//!
//! An enlistment is its manager in 16 bytes, the highest first, and its number in 4, the lowest first. The count has its lowest byte first, the identifier its highest.
#![tactic(auto)]

mod device;
mod law;
mod layout;
mod log;
mod opening;
mod reading;
mod refusal;
mod slots;
mod stop;
mod writing;

pub use dtx_values::is_identifier;
pub use law::crashes_leave_whole_records;
pub use layout::LOG_BYTES;
pub use log::Log;
pub use refusal::LogRefusal;
