//! Lists with a fixed room that are kept in order.
ghost use Rattle.std.specs.Prelude.{◌≡◌, ◌<◌, length};
ghost use Rattle.arrayvec.specs.ArrayVec.{array_vec_len};
ghost use Rattle.dtx_values.specs.Ends.{order_of, same_connection};
ghost use Rattle.dtx_values.specs.Table.{enl_number, insert_by};
ghost use Rattle.dtx_values.specs.declared.entry.Entry.TheVariants.{Down as End};
ghost use Rattle.dtx_values.specs.declared.message.Conn.TheVariants.{Again};
ghost use Rattle.dtx_values.specs.declared.message.Dir.TheVariants.{Up};
ghost use Rattle.dtx_model.specs.Coordinated.{but, is_enlisting, waits_after, without};
ghost use Rattle.dtx_model.specs.Words.{has};
ghost use Rattle.coordinator_core.specs.Kept.{unreached};

use arrayvec::ArrayVec;
use dtx_values::{CONNECTIONS, Conn, DURABLES, EnlNo, Message, Numbered, place_in_order};

/// Puts an item at its place. The list has room for it.
pub(crate) fn put_in_order<T: Numbered + Drop, const N: usize>(items: &mut ArrayVec<T, N>, x: T)
    requires { array_vec_len items.old < N }
    ensures { items.new.items ≡ insert_by T.key x items.old.items }
{
    let at = place_in_order(items.as_slice(), x.number());
    items.insert(at, x);
}

/// Whether both are the same connection.
pub(crate) fn is_same(c: Conn, d: Conn) -> bool
    ensures { result ≡ same_connection c d }
{
    c == d
}

/// Takes a connection out.
pub(crate) fn close(known: &mut ArrayVec<Conn, CONNECTIONS>, c: Conn)
    ensures { known.new.items ≡ without c known.old.items }
{
    known.retain(|d| !is_same(c, *d));
}

/// Puts a connection at its place, once. The list has room for it.
pub(crate) fn open(known: &mut ArrayVec<Conn, CONNECTIONS>, c: Conn)
    requires { length (without c known.old.items) < CONNECTIONS }
    ensures { known.new.items ≡ insert_by order_of c (without c known.old.items) }
{
    close(known, c);
    put_in_order(known, c);
}

/// Whether the message is an ENLIST on the connection of an enlistment.
pub(crate) fn is_enlisting(c: Conn, m: Message) -> bool
    ensures { result ≡ is_enlisting c m }
{
    matches!((c, m), (Conn::Enl(_), Message::EnlistEnlist(_)))
}

/// Whether a connection is among these.
pub(crate) fn is_known(known: &[Conn], c: Conn) -> bool
    ensures { result ≡ has (same_connection c) known.now }
{
    known.iter().any(|d| is_same(c, *d))
}

/// Leaves those whose connection isn't known.
pub(crate) fn keep_unreached(waits: &mut ArrayVec<EnlNo, DURABLES>, known: &[Conn])
    ensures { waits.new.items ≡ unreached known.now waits.old.items }
{
    waits.retain(|e| !is_known(known, Conn::Again(*e)));
}

/// Takes an enlistment out.
pub(crate) fn leave(waits: &mut ArrayVec<EnlNo, DURABLES>, e: EnlNo)
    ensures { waits.new.items ≡ but e.value waits.old.items }
{
    waits.retain(|f| e != *f);
}

/// Puts an enlistment at its place, once. The list has room for it.
pub(crate) fn wait(waits: &mut ArrayVec<EnlNo, DURABLES>, e: EnlNo)
    requires { length (but e.value waits.old.items) < DURABLES }
    ensures { waits.new.items ≡ insert_by enl_number e (but e.value waits.old.items) }
{
    leave(waits, e);
    put_in_order(waits, e);
}

/// Takes out who waits on a connection that ended.
pub(crate) fn leave_if(waits: &mut ArrayVec<EnlNo, DURABLES>, c: Conn)
    ensures { waits.new.items ≡ waits_after (End c Up) waits.old.items }
{
    if let Conn::Again(e) = c {
        leave(waits, e);
    }
}
