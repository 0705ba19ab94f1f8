//! What the coordinator does at its log.
use dtx_values::LogRecord;

/// The coordinator's act.
#[derive(Clone, Copy, PartialEq, Eq, Debug)]
pub enum CoreAct {
    /// The record is to be appended: the transaction commits once it stands.
    WriteRecord(LogRecord),
    /// The record of this identifier is to be freed: each that was to hear the commit heard it.
    FreeIt(u128),
}
