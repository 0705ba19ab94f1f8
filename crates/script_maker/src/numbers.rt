//! Whose line it is, and which names stand in it, by the number k of its transaction.
ghost use Rattle.std.specs.Prelude.{◌≡◌, ◌≤◌, ◌+◌, ◌*◌};
ghost use Rattle.script_maker.specs.Gen.{actor_of, first_of, next_actor_of, second_of};

use dtx_values::{ActorNo, CloneNo, EnlNo, RmNo, TxNo};

/// How many actors take turns.
const ACTORS: u32 = 12;

/// The actor of transaction k.
pub fn actor(k: u32) -> ActorNo
    requires { 1 ≤ k }
    ensures { result.value ≡ actor_of k }
{
    ActorNo::new((k - 1) % ACTORS + 1).unwrap()
}

/// The actor whose turn comes after it.
pub fn next_actor(k: u32) -> ActorNo
    ensures { result.value ≡ next_actor_of k }
{
    ActorNo::new(k % ACTORS + 1).unwrap()
}

/// Transaction k.
pub fn transaction(k: u32) -> TxNo
    requires low { 1 ≤ k }
    requires high { k ≤ TxNo.MAX }
    ensures { result.value ≡ k }
{
    TxNo::new(k).unwrap()
}

/// Its first enlistment.
pub fn first(k: u32) -> EnlNo
    requires low { 1 ≤ k }
    requires high { k ≤ TxNo.MAX }
    ensures { result.value ≡ first_of k }
{
    EnlNo::new(2 * k - 1).unwrap()
}

/// Its second, where it has one.
pub fn second(k: u32) -> EnlNo
    requires low { 1 ≤ k }
    requires high { k ≤ TxNo.MAX }
    ensures { result.value ≡ second_of k }
{
    EnlNo::new(2 * k).unwrap()
}

/// Its clone, where it has one.
pub fn clone(k: u32) -> CloneNo
    requires low { 1 ≤ k }
    requires high { k ≤ TxNo.MAX }
    ensures { result.value ≡ k }
{
    CloneNo::new(k).unwrap()
}

/// Manager n.
pub fn manager(n: u32) -> RmNo
    requires low { 1 ≤ n }
    requires high { n ≤ RmNo.MAX }
    ensures { result.value ≡ n }
{
    RmNo::new(n).unwrap()
}
