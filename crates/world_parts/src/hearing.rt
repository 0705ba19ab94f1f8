//! What the two sides do with what comes on a connection.
ghost use Rattle.std.specs.Prelude.{◌≡◌, ◌++◌, []};
ghost use Rattle.dtx_values.specs.Outgoing.{written};
ghost use Rattle.dtx_values.specs.TxIds.{number_of};
ghost use Rattle.dtx_values.specs.declared.entry.Entry.TheVariants.{Got};
ghost use Rattle.dtx_values.specs.declared.message.Dir.TheVariants.{Up, Down};
ghost use Rattle.dtx_values.specs.declared.message.Message.{Message};
ghost use Rattle.dtx_model.specs.Coordinated.{follow, follow_all};
ghost use Rattle.dtx_model.specs.Promotes.{identifier_of};
ghost use Rattle.local_half.specs.Half.{HasRoom as HasRoomBelow, after};
ghost use Rattle.coordinator_core.specs.Kept.{HasRoom as HasRoomThere, IsFew};
ghost use Rattle.oletx_session.specs.declared.session.Delivered.{Delivered};
ghost use Rattle.world_laws.specs.Course.{noted, rest_down, rest_up};

use coordinator_core::Core;
use dtx_values::{Conn, Dir, Outbox};
use local_half::LocalHalf;
use oletx_session::Delivered;

/// The coordinator gets what came.
#[tactic(auto, unfolding(dtx_model::specs::Coordinated::follow_all))]
fn hear_up(core: &mut Core, c: Conn, came: &Delivered, out: &mut Outbox)
    requires few { (m : Message) → came.now ≡ Delivered.Msg m → IsFew (follow core.old.state (Got c Up m)) }
    requires room { HasRoomThere out.old }
    ensures transaction { core.new.transaction ≡ core.old.transaction }
    ensures state { core.new.state ≡ follow_all core.old.state (noted c Up came.now ++ rest_up (identifier_of (number_of core.old.transaction)) core.old.state c came.now) }
    ensures out { out.new ≡ written out.old (rest_up (identifier_of (number_of core.old.transaction)) core.old.state c came.now) }
{
    match came {
        Delivered::Msg(m) => {
            core.got(c, *m, out);
        }
        Delivered::End => core.down(c, out),
        Delivered::BadFrame(_) => {}
    }
}

/// The local side gets what came.
#[tactic(auto, unfolding(dtx_model::specs::Half::heeds_all))]
fn hear_down(half: &mut LocalHalf, c: Conn, came: &Delivered, out: &mut Outbox)
    requires { HasRoomBelow out.old }
    ensures state { half.new ≡ after [] half.old (noted c Down came.now ++ rest_down (number_of half.old.transaction) half.old.half c came.now) }
    ensures out { out.new ≡ written out.old (rest_down (number_of half.old.transaction) half.old.half c came.now) }
{
    match came {
        Delivered::Msg(m) => {
            half.got(c, *m, out);
        }
        Delivered::End => half.down(c, out),
        Delivered::BadFrame(_) => {}
    }
}

/// The side to which it goes gets what came: the coordinator what came upward, and the local side what came downward.
pub fn hear(
    half: &mut LocalHalf,
    core: &mut Core,
    c: Conn,
    d: Dir,
    came: &Delivered,
    out: &mut Outbox,
)
    requires few { d ≡ Up → (m : Message) → came.now ≡ Delivered.Msg m → IsFew (follow core.old.state (Got c Up m)) }
    requires room { HasRoomThere out.old }
    requires room_below { HasRoomBelow out.old }
    ensures up { d ≡ Up → (half.new ≡ half.old) × (core.new.transaction ≡ core.old.transaction)
        × (core.new.state ≡ follow_all core.old.state (noted c Up came.now ++ rest_up (identifier_of (number_of core.old.transaction)) core.old.state c came.now))
        × (out.new ≡ written out.old (rest_up (identifier_of (number_of core.old.transaction)) core.old.state c came.now)) }
    ensures down { d ≡ Down → (core.new ≡ core.old) × (half.new ≡ after [] half.old (noted c Down came.now ++ rest_down (number_of half.old.transaction) half.old.half c came.now))
        × (out.new ≡ written out.old (rest_down (number_of half.old.transaction) half.old.half c came.now)) }
{
    match d {
        Dir::Up => hear_up(core, c, came, out),
        Dir::Down => hear_down(half, c, came, out),
    }
}
