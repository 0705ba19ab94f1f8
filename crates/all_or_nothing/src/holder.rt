//! Objects that hold what they prepare.
ghost use Rattle.all_or_nothing.specs.Objects.{AreHolders};

use resource_managers::ResourceManager;

/// Objects of resource managers that hold what they prepared until they hear the outcome, whatever becomes of the process.
///
/// Their meaning is four members. `place` is where they hear an enlistment: nowhere, in passing, or at the resource of a manager. `keeps` says that they keep what an enlistment prepared. `leaves` says of
/// sites whether a crash may leave that of all that they hold. And `sound` says that what they have in memory is what their disks have, as far as the answers need it.
pub trait Holder: ResourceManager {
    ghost use Rattle.std.specs.Prelude.{List};
    ghost use Rattle.all_or_nothing.specs.Marks.{Place};
    ghost use Rattle.recovery_laws.specs.Whole.{Site};
    ghost use Rattle.resource_managers.specs.declared.enlistment.Enlistment.{Enlistment};

    ghost place: { Self → Enlistment → Place };

    ghost keeps: { Self → Enlistment → Type 0 };

    ghost leaves: { Self → List Site → Type 0 };

    ghost sound: { Self → Type 0 };

    /// They hear each note as holders of prepared work do. It does nothing when it runs.
    fn hold()
        ensures { AreHolders Self.gives Self.place Self.keeps Self.leaves Self.sound };
}
