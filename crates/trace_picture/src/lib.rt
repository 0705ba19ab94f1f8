//! What a picture of a transaction shows: a lane for each party of it, and a row for each entry, with an arrow or a note.
#![tactic(auto)]

mod crossings;
mod lanes;
mod laws;
mod marks;
mod parties;
mod rows;

pub use crossings::arrived_of;
pub use lanes::{Lane, Lanes, Spot, lanes_of};
pub use laws::each_got_has_its_arrow;
pub use marks::{Label, Mark, mark_of};
pub use parties::line_at;
pub use rows::rows_of;
