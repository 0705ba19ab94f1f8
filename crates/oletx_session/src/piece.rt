//! A piece on the way.
ghost use Rattle.std.specs.Prelude.{◌≤◌};

use dtx_values::{Conn, Dir};

/// Some bytes of one frame on the way on a connection.
#[derive(Drop)]
pub struct Piece {
    pub connection: Conn,
    pub direction: Dir,
    pub bytes: [u8; 40],
    pub length: u8,
    pub ghost short: { length ≤ 40 },
}

impl Piece {
    ghost use Rattle.std.specs.Prelude.{◌≡◌, length};
    ghost use Rattle.oletx_session.specs.Queues.{bytes_in};

    /// The piece with these bytes, of which a frame has at most 40.
    pub(crate) fn new(c: Conn, d: Dir, bytes: &[u8]) -> Self
        requires { length bytes.now ≤ 40 }
        ensures connection { result.connection ≡ c }
        ensures direction { result.direction ≡ d }
        ensures bytes { bytes_in result ≡ bytes.now }
    {
        let mut held = [0; 40];
        held[..bytes.len()].copy_from_slice(bytes);
        Piece {
            connection: c,
            direction: d,
            bytes: held,
            length: bytes.len() as u8,
        }
    }

    /// Its bytes.
    pub(crate) fn bytes(&self) -> &[u8]
        ensures { result.now ≡ bytes_in self.now }
    {
        &self.bytes[..usize::from(self.length)]
    }
}
