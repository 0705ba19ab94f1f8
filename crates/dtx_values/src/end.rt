//! What the local side knows of a connection.
ghost use Rattle.std.specs.Prelude.{◌≡◌};
ghost use Rattle.dtx_values.specs.Ends.{order_of};

use crate::message::Conn;
use crate::order::Numbered;

/// What the local side of a transaction knows of a connection to the coordinator since it was opened last.
#[derive(Clone, Copy, PartialEq, Eq, Debug)]
pub struct End {
    pub connection: Conn,
    /// The tags of the messages that it sent on it: the bit of each tag is 1.
    pub sent: u16,
    /// The tags of the messages that it got on it, likewise.
    pub got: u16,
    /// Whether it saw the connection's end.
    pub ended: bool,
}

impl Conn {
    /// Its place in the order of connections: b, v, those of enlistments by number, and those of
    /// reenlistments by number.
    pub fn order(self) -> u32
        ensures { result ≡ order_of self }
    {
        match self {
            Conn::Begin => 0,
            Conn::Voter => 1,
            Conn::Enl(e) => 1 + e.get(),
            Conn::Again(e) => 10001 + e.get(),
        }
    }
}

impl Numbered for Conn {
    ghost use Rattle.dtx_values.specs.Ends.{order_of};

    ghost key = { order_of };

    fn number(&self) -> u32 {
        self.order()
    }
}

impl Numbered for End {
    ghost use Rattle.dtx_values.specs.Ends.{end_order};

    ghost key = { end_order };

    fn number(&self) -> u32 {
        self.connection.order()
    }
}

/// What is known of b when it was just opened: a place that isn't used yet holds it.
impl Default for End {
    fn default() -> End {
        End {
            connection: Conn::Begin,
            sent: 0,
            got: 0,
            ended: false,
        }
    }
}

/// b, the first connection.
impl Default for Conn {
    fn default() -> Conn {
        Conn::Begin
    }
}
