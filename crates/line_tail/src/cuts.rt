//! Lines and words cut off at a separator.
ghost use Rattle.std.specs.Prelude.{◌≡◌, ◌∷◌, ◌++◌, IfSome, IfNone};
ghost use Rattle.line_tail.specs.Cut.{IsWithout, behind, front};

/// What comes before the first separator, and what comes after it; `None` where there is none.
#[inline]
pub fn cut(bytes: &[u8], separator: u8) -> Option<(&[u8], &[u8])>
    ensures some { IfSome result (λ parts. (bytes.now ≡ parts.0.now ++ separator ∷ parts.1.now) × IsWithout separator parts.0.now) }
    ensures none { IfNone result (IsWithout separator bytes.now) }
{
    for (i, b) in bytes.iter().enumerate() {
        if *b == separator {
            return Some((&bytes[..i], &bytes[i + 1..]));
        }
    }
    None
}

/// What comes before the first separator, and what comes after it: nothing, where there is none.
#[inline]
pub fn parts(bytes: &[u8], separator: u8) -> (&[u8], &[u8])
    ensures front { result.0.now ≡ front separator bytes.now }
    ensures behind { result.1.now ≡ behind separator bytes.now }
{
    match cut(bytes, separator) {
        Some(parts) => parts,
        None => (bytes, &bytes[bytes.len()..]),
    }
}
