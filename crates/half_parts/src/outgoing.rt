//! What goes out.
ghost use Rattle.std.specs.Prelude.{◌≡◌, ◌∷◌, []};
ghost use Rattle.dtx_values.specs.Outgoing.{written};
ghost use Rattle.half_parts.specs.Taken.{IsFor};

use dtx_values::{Entry, Outbox};

/// Puts an entry out, and beside it the message that it sends.
pub fn put_out(x: Entry, out: &mut Outbox)
    requires { IsFor x out.old }
    ensures { out.new ≡ written out.old (x ∷ []) }
{
    out.put(x);
    if let Entry::Sent(c, d, m) = x {
        out.send(c, d, m);
    }
}
