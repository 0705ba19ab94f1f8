//! Writes a file without records.
ghost use Rattle.std.specs.Prelude.{◌≡◌, ◌≤◌, ◌++◌, length, replicate, OnErr, OnOk, IsTrue};
ghost use Rattle.outside.specs.Disk.{IsOnly};
ghost use Rattle.outside.specs.Faults.{Rose};
ghost use Rattle.outside.specs.Images.{AreSame};
ghost use Rattle.slotted.specs.Slotted.{IsBlank};

use crate::bytes::put;
use crate::layout::{HEAD_BYTES, SLOTTED_BYTES};
use outside::{Disk, Failed};

/// The bytes that a file with these letters begins with.
pub fn written_head(letters: &[u8; 8]) -> [u8; HEAD_BYTES]
    ensures { result ≡ letters.now ++ replicate 504 0 }
{
    let mut bytes = [0; HEAD_BYTES];
    put(&mut bytes, 0, letters);
    bytes
}

/// Makes the disk a file with this head, whose slots are closed: the zeros, a sync, the head and a sync.
///
/// # Errors
///
/// [`Failed`], only where the disk's count of faults rose.
pub fn blank<D: Disk>(disk: &mut D, head: &[u8; HEAD_BYTES], zeros: &[u8]) -> Result<(), Failed>
    requires size { SLOTTED_BYTES ≤ D.size disk.old }
    requires zeros { zeros.now ≡ replicate (length zeros.now) 0 }
    requires many { length zeros.now ≡ SLOTTED_BYTES }
    ensures blank { IsTrue D.honest → OnOk result (IsBlank head.now (D.seen disk.new)) }
    ensures durable { IsTrue D.honest → OnOk result (IsOnly (D.seen disk.new) (D.image disk.new)) }
    ensures synced { IsTrue D.obeys → OnOk result (AreSame (D.images disk.new)) }
    ensures cause { OnErr result (Rose (D.faults disk.old) (D.faults disk.new)) }
    ensures size { D.size disk.new ≡ D.size disk.old }
    ensures smooth { OnOk result (D.faults disk.new ≡ D.faults disk.old) }
    ensures grows { D.faults disk.old ≤ D.faults disk.new }
    ensures long { length head.now ≡ HEAD_BYTES }
{
    disk.write_at(0, zeros)?;
    disk.sync()?;
    // The head comes after the zeros are safe. A crash before it leaves no head, so no file, and never an old slot after a new head.
    disk.write_at(0, head)?;
    disk.sync()
}
