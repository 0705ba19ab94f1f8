//! The store of [`kv_resource`] as a holder of prepared work, as `all_or_nothing` asks of one.
//!
//! The law is a public function with an empty body. It does nothing when it runs. A caller calls it for its contract: after the call the proof of the caller has the law.
#![tactic(auto)]

ghost use Rattle.std.specs.Prelude.{◌≡◌, ℕ, ◌==◌, false, Option};
ghost use Rattle.dtx_values.specs.declared.note.Note.{Note};
ghost use Rattle.dtx_values.specs.declared.note.Reply.{Reply};
ghost use Rattle.kv_resource.specs.Images.{Gives};
ghost use Rattle.kv_resource.specs.Store.{KvState, Pair, after_put};
ghost use Rattle.kv_holding.specs.Holding.{IsAsStored, KvHolds, KvSound};
ghost use Rattle.kv_holding.specs.TwoStores.{AreTwoHolders};

use outside::Disk;

/// A store holds what it prepared. Whatever a crash may leave of it after a note came, by that note, of something that a crash might have left before; what it votes yes of it keeps
/// until it is rolled back; and what it acknowledges is marked.
///
/// `on` of [`Kv`](kv_resource::Kv) ensures `Gives`. The memory of the store is to be sound. It is where the store isn't stopped and its disk has what it has in memory, as
/// [`is_stopped`](kv_resource::Kv::is_stopped) ensures; and it stays so under each note and each put.
pub fn kv_holds<D: Disk>()
    ensures held { (old new : KvState D) (p : Pair) (n : Note) (a : Option Reply) → KvSound D.honest D.image old → Gives D.honest D.image D.faults old p n a new → KvHolds D.honest D.image old p n a new }
    ensures opened { (s : KvState D) → IsAsStored D.honest D.image s → KvSound D.honest D.image s }
    ensures put { (s : KvState D) (p : Pair) (key value : ℕ) → KvSound D.honest D.image s → KvSound D.honest D.image (after_put p key value s) }
{}

/// Two stores, of two managers, are holders of prepared work, where the one that is enlisted hears a note, and the other one stays as it is.
pub fn two_stores_hold<D: Disk>()
    ensures { (i j : ℕ) → (i == j) ≡ false → AreTwoHolders {D = D} D.honest D.image D.faults i j }
{}
