//! Identifiers of transactions. An identifier has 128 bits: the upper 64 are the node, the lower 64 the count.
ghost use Rattle.std.specs.Prelude.{◌≡◌, ◌≤◌, length, take, true, IfErr, IfOk};
ghost use Rattle.dtx_values.specs.RecoveryInfo.{id_bytes, identifier_in, is_id, wide_in};

/// Whether a number is an identifier: neither its node nor its count is 0.
pub fn is_identifier(n: u128) -> bool
    ensures { result ≡ is_id n }
{
    n >> 64 != 0 && n % (1 << 64) != 0
}

/// Reads the identifier in the first 16 bytes, the highest first.
///
/// # Errors
///
/// The place of its first bad half: 0 exactly where the node is 0, and else 8 exactly where the count is 0.
#[tactic(auto, unfolding(crate::specs::RecoveryInfo::identifier_in))]
pub fn read_identifier(b: &[u8]) -> Result<u128, u8>
    requires { 16 ≤ length b.now }
    ensures identifier { result ≡ identifier_in b.now }
    ensures valid { IfOk result (λ n. is_id n ≡ true) }
    ensures bytes { IfOk result (λ n. take 16 b.now ≡ id_bytes n) }
    ensures place { IfErr result (λ p. p ≤ 8) }
{
    let n = read_wide(b);
    if n >> 64 == 0 {
        return Err(0);
    }
    if n % (1 << 64) == 0 {
        return Err(8);
    }
    Ok(n)
}

/// The number in the first 16 bytes, the highest first.
pub(crate) fn read_wide(b: &[u8]) -> u128
    requires { 16 ≤ length b.now }
    ensures { result ≡ wide_in b.now }
{
    let mut bytes = [0; 16];
    bytes.copy_from_slice(&b[..16]);
    u128::from_be_bytes(bytes)
}
