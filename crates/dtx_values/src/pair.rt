//! Pairs: the manager of an enlistment, and its number.
ghost use Rattle.std.specs.Prelude.{◌≡◌, ◌≤◌, ◌↔◌, length, take, drop, true, IfErr, IfOk, IfSome, IsSome};
ghost use Rattle.std.specs.Result.{result_map_both};
ghost use Rattle.dtx_values.specs.RecoveryInfo.{is_from_one, number_in, pair_bytes, pair_in, pair_of, wide_in};

use crate::identifier::read_wide;
use crate::number::{EnlNo, RmNo};

/// The 20 bytes of a pair: the manager (16, the highest first) and the number (4, the lowest first). (A definition of this project.)
#[tactic(auto, unfolding(crate::specs::RecoveryInfo::pair_bytes))]
pub fn write_pair(pair: (RmNo, EnlNo)) -> [u8; 20]
    ensures { result ≡ pair_bytes (pair_of pair) }
{
    let mut bytes = [0; 20];
    bytes[..16].copy_from_slice(&u128::from(pair.0.get()).to_be_bytes());
    bytes[16..].copy_from_slice(&pair.1.get().to_le_bytes());
    bytes
}

/// Reads the pair in the first 20 bytes.
///
/// # Errors
///
/// The place of its first bad field: 0 exactly where the manager isn't from 1 to 16, and else 16 exactly where the number isn't from 1 to 9,999.
#[tactic(auto, unfolding(crate::specs::RecoveryInfo::pair_in))]
pub fn read_pair(b: &[u8]) -> Result<(RmNo, EnlNo), u8>
    requires { 20 ≤ length b.now }
    ensures pair { result_map_both pair_of (λ p. p) result ≡ pair_in b.now }
    ensures bytes { IfOk result (λ p. take 20 b.now ≡ pair_bytes (pair_of p)) }
    ensures place { IfErr result (λ p. p ≤ 16) }
{
    let Some(rm) = read_manager(b) else {
        return Err(0);
    };
    let (_, number) = b.split_at(16);
    let Some(enl) = read_number(number) else {
        return Err(16);
    };
    Ok((rm, enl))
}

/// The manager in the first 16 bytes, where it is one.
fn read_manager(b: &[u8]) -> Option<RmNo>
    requires { 16 ≤ length b.now }
    ensures value { IfSome result (λ r. r.value ≡ wide_in b.now) }
    ensures in_range { IsSome result ↔ (is_from_one 16 (wide_in b.now) ≡ true) }
{
    RmNo::new(u32::try_from(read_wide(b)).ok()?)
}

/// The number of an enlistment in the first 4 bytes, where it is one.
fn read_number(b: &[u8]) -> Option<EnlNo>
    requires { 4 ≤ length b.now }
    ensures value { IfSome result (λ e. e.value ≡ number_in b.now) }
    ensures in_range { IsSome result ↔ (is_from_one 9999 (number_in b.now) ≡ true) }
{
    let mut bytes = [0; 4];
    bytes.copy_from_slice(&b[..4]);
    EnlNo::new(u32::from_le_bytes(bytes))
}
