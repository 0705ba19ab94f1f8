// A device of fixed length that outlives a crash.
ghost use Rattle.std.specs.Prelude.{◌≡◌, ◌≤◌, ◌+◌, Bool, List, ℕ, length, take, drop, OnOk, OnErr, IsTrue};
ghost use Rattle.outside.specs.Faults.{Rose};
ghost use Rattle.dtx_values.specs.declared.Image.{Image};
ghost use Rattle.outside.specs.Disk.{AreWithin, Follows, IsOnly, IsTorn, overwritten};
ghost use Rattle.outside.specs.Images.{Images, after_crash, after_sync, after_write};

use crate::Failed;
use dtx_values::Image;

/// A device of fixed length, whose content outlives a crash.
///
/// A disk that is honest tells what a read gives, and its images: what a crash now may leave. Between two successful syncs each range that was written may hold any bytes
/// after a crash, and the bytes outside these ranges stay. After a successful sync a crash leaves what a read gives. A write that failed may leave any bytes in its range, and
/// a sync that failed makes nothing safe. As a call may fail at any place, a crash inside a call leaves no more than a fault of that call does.
///
/// A disk that isn't honest tells nothing of content. Whether it is honest is said of its type, so no call changes it. A disk that obeys, which is said of its type too, is honest
/// and does with a crash as it is wished: `Lose` undoes every write since the last sync, `Keep` keeps every write, and `Torn` has the byte 0xA5 at each place that was written since
/// the last sync. The rules are a definition of this project.
pub trait Disk {
    /// Whether it tells what it holds.
    ghost honest: { Bool };

    /// Its length in bytes.
    ghost size: { Self → ℕ };

    /// What a read gives, from the first byte to the last.
    ghost seen: { Self → List ℕ };

    /// What a crash now may leave.
    ghost image: { Self → List ℕ → Type 0 };

    /// A crash with this wish may leave these bytes.
    ghost leaves: { Image → Self → List ℕ → Type 0 };

    /// Whether a crash leaves exactly the image that is wished, of the three that it has.
    ghost obeys: { Bool };

    /// The three, where it obeys: what a read gives, what was synced, and what is torn where it was written since.
    ghost images: { Self → Images };

    /// How many calls met a fault, where the count stays at the last value of a `u64`.
    ghost faults: { Self → ℕ };

    /// Its length in bytes. At any moment, after a fault too, what a read gives is one of the images: bytes that a crash now may leave.
    fn len(&self) -> u64
        ensures size { result ≡ size self.now }
        ensures among { IsTrue honest → image self.now (seen self.now) };

    /// Reads the bytes from place `at` on, as many as `into` holds. They lie inside the device.
    ///
    /// # Errors
    ///
    /// [`Failed`], only where the count of faults rose.
    fn read(&mut self, at: u64, into: &mut [u8]) -> Result<(), Failed>
        requires { at + length into.old ≤ size self.old }
        ensures bytes { IsTrue honest → OnOk result (into.new ≡ take (length into.old) (drop at (seen self.old))) }
        ensures seen { IsTrue honest → seen self.new ≡ seen self.old }
        ensures images { IsTrue honest → AreWithin (image self.old) (image self.new) }
        ensures same { IsTrue obeys → images self.new ≡ images self.old }
        ensures size { size self.new ≡ size self.old }
        ensures smooth { OnOk result (faults self.new ≡ faults self.old) }
        ensures grows { faults self.old ≤ faults self.new }
        ensures cause { OnErr result (Rose (faults self.old) (faults self.new)) };

    /// Writes the bytes over those from place `at` on. They lie inside the device.
    ///
    /// # Errors
    ///
    /// [`Failed`], only where the count of faults rose. The range may then hold any bytes, and the bytes outside
    /// it stay.
    fn write_at(&mut self, at: u64, from: &[u8]) -> Result<(), Failed>
        requires { at + length from.now ≤ size self.old }
        ensures written { IsTrue honest → OnOk result (seen self.new ≡ overwritten (seen self.old) at from.now) }
        ensures torn { IsTrue honest → OnErr result (IsTorn at (length from.now) (seen self.old) (seen self.new)) }
        ensures images { IsTrue honest → Follows (IsTorn at (length from.now)) (image self.old) (image self.new) }
        ensures put { IsTrue obeys → OnOk result (images self.new ≡ after_write at from.now (images self.old)) }
        ensures size { size self.new ≡ size self.old }
        ensures smooth { OnOk result (faults self.new ≡ faults self.old) }
        ensures grows { faults self.old ≤ faults self.new }
        ensures cause { OnErr result (Rose (faults self.old) (faults self.new)) };

    /// Makes what a read gives safe.
    ///
    /// # Errors
    ///
    /// [`Failed`], only where the count of faults rose. Nothing more is safe then.
    fn sync(&mut self) -> Result<(), Failed>
        ensures durable { IsTrue honest → OnOk result (IsOnly (seen self.old) (image self.new)) }
        ensures seen { IsTrue honest → seen self.new ≡ seen self.old }
        ensures images { IsTrue honest → AreWithin (image self.old) (image self.new) }
        ensures synced { IsTrue obeys → OnOk result (images self.new ≡ after_sync (images self.old)) }
        ensures size { size self.new ≡ size self.old }
        ensures smooth { OnOk result (faults self.new ≡ faults self.old) }
        ensures grows { faults self.old ≤ faults self.new }
        ensures cause { OnErr result (Rose (faults self.old) (faults self.new)) };

    /// A crash: what a read gives from now on is one of the images, and one that a crash with this wish may leave.
    /// It makes nothing safe.
    fn crash(&mut self, wish: Image)
        ensures leaves { IsTrue honest → leaves wish self.old (seen self.new) }
        ensures seen { IsTrue honest → image self.old (seen self.new) }
        ensures images { IsTrue honest → AreWithin (image self.old) (image self.new) }
        ensures wished { IsTrue obeys → images self.new ≡ after_crash wish (images self.old) }
        ensures size { size self.new ≡ size self.old }
        ensures count { faults self.new ≡ faults self.old };

    /// What a read gives is one of the images.
    ghost sees: { (d : Self) → IsTrue honest → image d (seen d) };

    /// What a crash may leave with a wish is one of the images.
    ghost among: { (wish : Image) (d : Self) (c : List ℕ) → IsTrue honest → leaves wish d c → image d c };

    /// Each image is as long as the device.
    ghost long: { (d : Self) (c : List ℕ) → IsTrue honest → image d c → length c ≡ size d };

    /// A disk that obeys is honest.
    ghost tells: { IsTrue obeys → IsTrue honest };

    /// What a read gives is the first of its three images.
    ghost kept: { (d : Self) → IsTrue obeys → seen d ≡ (images d).kept };
}
