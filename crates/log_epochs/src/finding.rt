//! The epoch of a log.
ghost use Rattle.std.specs.Prelude.{◌≡◌, IsTrue};
ghost use Rattle.std.specs.List.{filter_map};
ghost use Rattle.std.specs.Option.{option_map};
ghost use Rattle.dtx_model.specs.Log.{record_of};
ghost use Rattle.coordinator_log.specs.Slots.{open_records};
ghost use Rattle.log_epochs.specs.Beginning.{AllAre};
ghost use Rattle.log_epochs.specs.Epochs.{epoch_of, later_of};

use crate::naming::epoch_in;
use coordinator_log::Log;
use dtx_values::LogRecord;
use outside::Disk;

/// The epoch of a log: the greatest that it has a record of, and 0 where it has none. While the log is up, each image that a crash can leave has the same.
pub fn epoch<D: Disk>(log: &Log<D>) -> u32
    ensures epoch { result ≡ epoch_of (open_records log.now.slots) }
    ensures images { IsTrue D.honest → IsTrue log.now.is_up → AllAre (D.image log.now.disk) (λ rs. epoch_of rs ≡ result) }
{
    // A proof sees here what the images of a log that is up have.
    let _ = log.is_up();
    greatest(log.records())
}

// The greatest epoch of the records in some slots.
fn greatest(slots: &[Option<LogRecord>]) -> u32
    ensures { result ≡ epoch_of (filter_map (option_map record_of) slots.now) }
{
    let mut n = 0;
    for slot in slots {
        n = at_least(n, slot);
    }
    n
}

// The epoch n, or that of the record in a slot where it is greater.
fn at_least(n: u32, slot: &Option<LogRecord>) -> u32
    ensures { result ≡ later_of n (option_map record_of slot.now) }
{
    match slot {
        Some(r) => n.max(epoch_in(r).unwrap_or(0)),
        None => n,
    }
}
