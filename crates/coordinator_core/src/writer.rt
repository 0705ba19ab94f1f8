//! The writer of a step's entries.
ghost use Rattle.std.specs.Prelude.{◌≡◌, [], ◌∷◌};
ghost use Rattle.dtx_values.specs.Outgoing.{written};
ghost use Rattle.dtx_values.specs.declared.entry.Entry.TheVariants.{Sent};
ghost use Rattle.dtx_values.specs.declared.message.Dir.TheVariants.{Down};
ghost use Rattle.coordinator_core.specs.Kept.{HasRoomFor, Uses};

use dtx_values::{Conn, Dir, Entry, Message, Outbox};

/// Writes that a message is sent down, and sends it.
pub(crate) fn send_down(c: Conn, m: Message, out: &mut Outbox)
    requires { HasRoomFor 1 out.old }
    ensures out { out.new ≡ written out.old (Sent c Down m ∷ []) }
    ensures used { Uses 1 out.old out.new }
{
    out.put(Entry::Sent(c, Dir::Down, m));
    out.send(c, Dir::Down, m);
}
