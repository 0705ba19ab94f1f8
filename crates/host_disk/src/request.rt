// What the host is asked to do.
ghost use Rattle.std.specs.Prelude.{◌≡◌, ◌==◌, IfOk};
ghost use Rattle.std.specs.List.{list_all};
ghost use Rattle.host_disk.specs.Order.{order_of, write_order};

use std::alloc::{AllocError, Global};

/// So many zeros at most are written as bytes. More are asked for by their number.
pub const BRIEF: usize = 512;

/// What the host is to do in its file. A clause sees it as an `Order`.
#[derive(Debug, PartialEq, Eq, Drop)]
pub enum Request {
    /// Write these bytes at this place.
    Write(u64, Vec<u8>),
    /// Write so many zeros at this place.
    Zeros(u64, u64),
    /// Sync the file.
    Sync,
}

impl Request {
    /// That these bytes be written at this place.
    ///
    /// # Errors
    ///
    /// Where no memory was left.
    pub(crate) fn to_write(alloc: Global, at: u64, from: &[u8]) -> Result<Request, AllocError>
        ensures { IfOk result (λ r. order_of r ≡ write_order at from.now) }
    {
        if from.len() > BRIEF && are_zeros(from) {
            return Ok(Request::Zeros(at, from.len() as u64));
        }
        Ok(Request::Write(at, Vec::from_slice(alloc, from)?))
    }
}

// Whether all are zero.
fn are_zeros(bytes: &[u8]) -> bool
    ensures { result ≡ list_all (λ b. b == 0) bytes.now }
{
    bytes.iter().all(|b| *b == 0)
}
