ghost use Rattle.std.specs.Prelude.{◌≡◌, ◌≢◌, ◌↔◌, ℕ, ◌<◌, ◌^◌, IsTrue, IfSome, IfNone, length, slice_index};
ghost use Rattle.std.specs.Fmt.{decimal};
ghost use Rattle.std.specs.Str.Parse.{AllDigits, digits_value};

/// Reads a decimal number from 0 to 2^64-1, without sign or leading zeros. Takes no memory.
pub fn parse_u64(text: &[u8]) -> Option<u64>
    ensures some { IfSome result (λ n. text.now ≡ decimal n) }
    ensures none { IfNone result ((n : ℕ) → n < 2 ^ 64 → text.now ≢ decimal n) }
{
    if text.is_empty() {
        return None;
    }
    if has_leading_zero(text) {
        return None;
    }
    value_of(text)
}

fn has_leading_zero(text: &[u8]) -> bool
    ensures { IsTrue result ↔ ((1 < length text.now) × (slice_index text.now 0 ≡ 48)) }
{
    text.len() > 1 && text[0] == b'0'
}

/// Reads a decimal number from 0 to 2^32-1, without sign or leading zeros. Takes no memory.
pub fn parse_u32(text: &[u8]) -> Option<u32>
    ensures some { IfSome result (λ n. text.now ≡ decimal n) }
    ensures none { IfNone result ((n : ℕ) → n < 2 ^ 32 → text.now ≢ decimal n) }
{
    let number = parse_u64(text)?;
    if number > 0xffff_ffff {
        return None;
    }
    Some(number as u32)
}

/// The value of decimal digits, which may have leading zeros.
fn value_of(digits: &[u8]) -> Option<u64>
    ensures some { IfSome result (λ n. AllDigits 10 digits.now × (n ≡ digits_value 10 digits.now) × (n < 2 ^ 64)) }
    ensures none { IfNone result (AllDigits 10 digits.now → digits_value 10 digits.now < 2 ^ 64 → ⊥) }
{
    let mut value: u64 = 0;
    for digit in digits {
        if !digit.is_ascii_digit() {
            return None;
        }
        let shifted = value.checked_mul(10)?;
        value = shifted.checked_add(u64::from(*digit - b'0'))?;
    }
    Some(value)
}
