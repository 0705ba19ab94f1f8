//! Resource managers that recover.
ghost use Rattle.std.specs.Prelude.{◌≡◌, ◌⊎◌, List, OnErr, OnOk, length, slice_get};
ghost use Rattle.std.specs.Option.{option_map};
ghost use Rattle.resource_managers.specs.Holding.{Holding, as_found, finished, first_in_doubt, holding_of};
ghost use Rattle.resource_managers.specs.Pairs.{pair_of};

use crate::enlistment::Enlistment;
use crate::held::Held;
use crate::resource_manager::ResourceManager;
use outside::Failed;

/// A resource manager that holds what it prepared until it is finished, whatever becomes of the process.
///
/// Its meaning is three members. `holds` is the list of what it holds, in its own order. `leaves` says of a list whether a crash may leave that: whether a later process may
/// find it. `fails` says of the manager before a call and after it that its disk failed, before the call or in it. What fails after a finish that was done, counted from there,
/// fails counted from before it too.
///
/// What is held *in doubt* was prepared by no call of this process, and isn't marked as committed.
pub trait Recoverable: ResourceManager {
    ghost use Rattle.std.specs.Prelude.{List};
    ghost use Rattle.resource_managers.specs.Holding.{Holding};

    ghost holds: { Self → List Holding };

    ghost leaves: { Self → List Holding → Type 0 };

    ghost fails: { Self → Self → Type 0 };

    /// How many enlistments it holds.
    fn count(&self) -> usize
        ensures { result ≡ length (holds self.now) };

    /// What it holds at this place of the list, from 0; `None` past its end.
    fn held(&self, place: usize) -> Option<Held>
        ensures { option_map holding_of result ≡ slice_get (holds self.now) place };

    /// The first enlistment that it holds in doubt.
    fn in_doubt(&self) -> Option<Enlistment>
        ensures { option_map pair_of result ≡ first_in_doubt (holds self.now) };

    /// Finishes the first that it holds in doubt of this enlistment: it is marked as committed, or else is gone. It does nothing where none is.
    ///
    /// # Errors
    ///
    /// [`Failed`] where its disk failed, now or before. It holds what it held.
    fn finish(&mut self, e: Enlistment, commit: bool) -> Result<(), Failed>
        ensures finished { OnOk result (holds self.new ≡ finished commit (pair_of e) (holds self.old)) }
        ensures failed { OnErr result (holds self.new ≡ holds self.old) }
        ensures images { (hs : List Holding) → leaves self.new hs → leaves self.old hs ⊎ ((hs ≡ as_found (holds self.old)) ⊎ (hs ≡ as_found (finished commit (pair_of e) (holds self.old)))) }
        ensures cause { OnErr result (fails self.old self.new) }
        ensures since { OnOk result ((x : Self) → fails self.new x → fails self.old x) };
}
