//! Recovery information as bytes.
ghost use Rattle.std.specs.Prelude.{◌≡◌, ◌≢◌, ℕ, length, Err, Ok, IfOk, Some};
ghost use Rattle.dtx_values.specs.declared.message.Info.{Info};
ghost use Rattle.dtx_values.specs.declared.info.BadInfo.TheVariants.{Length, Value};
ghost use Rattle.dtx_values.specs.RecoveryInfo.{IsInfo, bad_field, info_bytes};

use crate::identifier::read_identifier;
use crate::message::Info;
use crate::pair::{read_pair, write_pair};

/// Why bytes are no recovery information.
#[derive(Clone, Copy, PartialEq, Eq, Debug)]
pub enum BadInfo {
    /// So many bytes: there must be 36.
    Length(usize),
    /// The place of the first bad field: 0 is the node, 8 the count, 16 the manager, 32 the enlistment.
    Value(u8),
}

/// The 36 bytes of recovery information: the identifier (16, the highest first), the manager (16, the highest first), the enlistment (4, the lowest
/// first). (A definition of this project.)
#[tactic(auto, unfolding(crate::specs::RecoveryInfo::info_bytes, crate::specs::RecoveryInfo::pair_bytes))]
pub fn write_info(i: &Info) -> [u8; 36]
    ensures { result ≡ info_bytes i.now }
{
    let mut bytes = [0; 36];
    bytes[..16].copy_from_slice(&i.id.to_be_bytes());
    bytes[16..].copy_from_slice(&write_pair((i.rm, i.enl)));
    bytes
}

/// Reads recovery information.
///
/// # Errors
///
/// - [`BadInfo::Length`] exactly where there aren't 36 bytes.
/// - [`BadInfo::Value`] exactly where a field is bad: a node or a count of 0, a manager that isn't from 1 to 16, an enlistment that isn't from 1 to
///   9,999.
pub fn parse_info(b: &[u8]) -> Result<Info, BadInfo>
    ensures info { IfOk result (λ i. IsInfo b.now i) }
    ensures written { (i : Info) → IsInfo b.now i → result ≡ Ok i }
    ensures length { (n : ℕ) → result ≡ Err (Length n) → (n ≡ length b.now) × (n ≢ 36) }
    ensures value { (p : ℕ) → result ≡ Err (Value p) → (length b.now ≡ 36) × (bad_field b.now ≡ Some p) }
{
    if b.len() != 36 {
        return Err(BadInfo::Length(b.len()));
    }
    let id = match read_identifier(b) {
        Ok(id) => id,
        Err(place) => return Err(BadInfo::Value(place)),
    };
    let (_, pair) = b.split_at(16);
    match read_pair(pair) {
        Ok((rm, enl)) => Ok(Info { id, rm, enl }),
        Err(place) => Err(BadInfo::Value(16 + place)),
    }
}
