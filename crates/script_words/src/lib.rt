//! The words of a script's line, and the values that they name.
#![tactic(auto)]

mod causes;
mod cursor;

pub use cursor::Words;
