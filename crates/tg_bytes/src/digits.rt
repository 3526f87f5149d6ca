//! Decimal numbers in texts of ASCII.
ghost use Rattle.std.specs.Prelude.{◌≡◌, ◌<◌, ◌≤◌, ℕ, MatchOption};
ghost use Rattle.std.specs.Char.{digit_value};
ghost use Rattle.tg_bytes.specs.Digits.{IsDigits};

/// The number that 1 to 19 decimal digits write; any other text has none. It is below 10^19, so that a `u64` holds it.
/// It takes no memory.
///
/// RFC 5234, `1*DIGIT`, as in the value of `Content-Length` (RFC 9110, section 8.6); the limit of 19 digits is this
/// project's own.
pub fn number_of(text: &[u8]) -> Option<u64>
    ensures { MatchOption result ((number : ℕ) → IsDigits text.now number → ⊥) (IsDigits text.now) }
{
    if text.is_empty() || text.len() > 19 {
        return None;
    }
    let mut number: u64 = 0;
    for byte in text {
        let digit = digit_of(*byte)?;
        number = number * 10 + digit;
    }
    Some(number)
}

/// The value of a decimal digit.
fn digit_of(byte: u8) -> Option<u64>
    ensures { MatchOption result (10 ≤ digit_value byte) (λ digit. (digit ≡ digit_value byte) × (digit < 10)) }
{
    match byte {
        b'0'..=b'9' => Some((byte - b'0') as u64),
        _ => None,
    }
}
