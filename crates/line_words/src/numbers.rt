//! Numbers: digits without leading zeros.
ghost use Rattle.std.specs.Prelude.{◌≡◌, ◌<◌, ◌^◌, ℕ, IfSome, Some, decimal, true};
ghost use Rattle.dtx_model.specs.Grammar.{is_from};

/// Reads a number that is a u64.
pub fn number_of(word: &[u8]) -> Option<u64>
    ensures some { IfSome result (λ n. word.now ≡ decimal n) }
    ensures of { (n : ℕ) → n < 2 ^ 64 → word.now ≡ decimal n → result ≡ Some n }
{
    if word.is_empty() {
        return None;
    }
    if word.len() > 20 {
        return None;
    }
    if word[0] == b'0' {
        if word.len() == 1 {
            return Some(0);
        }
        return None;
    }
    let mut value = 0u128;
    for b in word {
        if !b.is_ascii_digit() {
            return None;
        }
        value = value * 10 + u128::from(*b - b'0');
    }
    if value > u128::from(u64::MAX) {
        return None;
    }
    Some(value as u64)
}

/// Reads a number that is a u32.
pub fn number32_of(word: &[u8]) -> Option<u32>
    ensures some { IfSome result (λ n. word.now ≡ decimal n) }
    ensures of { (n : ℕ) → n < 2 ^ 32 → word.now ≡ decimal n → result ≡ Some n }
{
    let n = number_of(word)?;
    if n > u64::from(u32::MAX) {
        return None;
    }
    Some(n as u32)
}

/// Reads a number that is a u16.
pub fn number16_of(word: &[u8]) -> Option<u16>
    ensures some { IfSome result (λ n. word.now ≡ decimal n) }
    ensures of { (n : ℕ) → n < 2 ^ 16 → word.now ≡ decimal n → result ≡ Some n }
{
    let n = number_of(word)?;
    if n > u64::from(u16::MAX) {
        return None;
    }
    Some(n as u16)
}

/// Reads a number that is a u8.
pub fn number8_of(word: &[u8]) -> Option<u8>
    ensures some { IfSome result (λ n. word.now ≡ decimal n) }
    ensures of { (n : ℕ) → n < 2 ^ 8 → word.now ≡ decimal n → result ≡ Some n }
{
    let n = number_of(word)?;
    if n > u64::from(u8::MAX) {
        return None;
    }
    Some(n as u8)
}

/// Reads a number from `low` to `high`.
pub fn number_from(word: &[u8], low: u32, high: u32) -> Option<u32>
    ensures some { IfSome result (λ n. (word.now ≡ decimal n) × (is_from low high n ≡ true)) }
    ensures of { (n : ℕ) → is_from low high n ≡ true → word.now ≡ decimal n → result ≡ Some n }
{
    let n = number32_of(word)?;
    if low <= n && n <= high { Some(n) } else { None }
}
