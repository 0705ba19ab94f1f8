// A disk whose calls somebody else does.
ghost use Rattle.std.specs.Prelude.{◌≡◌, IsTrue};
ghost use Rattle.outside.specs.Disk.{AreWithin};

use crate::Disk;

/// A disk whose writes and syncs somebody else is to do, in the order in which they were asked for. It keeps each until then. A definition of this project.
pub trait Relay: Disk {
    ghost use Rattle.std.specs.Prelude.{Bool};

    /// Whether nothing is asked for.
    ghost is_settled: { Self → Bool };

    /// Whether nothing is asked for.
    fn is_settled(&self) -> bool
        ensures { result ≡ is_settled self.now };

    /// All that was asked for is done, and is forgotten. What the disk holds stays.
    fn settle(&mut self)
        ensures settled { IsTrue (is_settled self.new) }
        ensures seen { Self.Disk.seen self.new ≡ Self.Disk.seen self.old }
        ensures images { AreWithin (Self.Disk.image self.old) (Self.Disk.image self.new) }
        ensures same { Self.Disk.images self.new ≡ Self.Disk.images self.old }
        ensures size { Self.Disk.size self.new ≡ Self.Disk.size self.old }
        ensures faults { Self.Disk.faults self.new ≡ Self.Disk.faults self.old };
}
