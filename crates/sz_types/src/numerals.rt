//! The numbers that decimal digits write.
ghost use Rattle.std.specs.Prelude.{◌≡◌, ◌+◌, ◌*◌, ◌&&◌, IsTrue, nat_le, Some, None, if◌then◌else◌};
ghost use Rattle.std.specs.Char.{is_ascii_digit, digit_value};
ghost use Rattle.std.specs.Str.Parse.{digits_value};
ghost use Rattle.sz_types.specs.Numerals.{is_numeral};

/// The number that the text writes, if it is decimal digits alone, at least one, and the number is at most `most`. Zeros may stand
/// in front.
pub fn digits_up_to(text: &[u8], most: u64) -> Option<u64>
    ensures value { result ≡ (if is_numeral text.now && nat_le (digits_value 10 text.now) most
        then Some (digits_value 10 text.now) else None) }
{
    if text.is_empty() {
        return None;
    }
    let mut value = 0u64;
    for byte in text {
        if !byte.is_ascii_digit() {
            return None;
        }
        value = appended(value, *byte, most)?;
    }
    Some(value)
}

// The number that is written by the digits of `value` and one digit more, if it is at most `most`.
fn appended(value: u64, digit: u8, most: u64) -> Option<u64>
    requires { IsTrue (is_ascii_digit digit) }
    ensures value { result ≡ (if nat_le (value * 10 + digit_value digit) most
        then Some (value * 10 + digit_value digit) else None) }
{
    let next = value.checked_mul(10)?.checked_add(u64::from(digit - b'0'))?;
    if next <= most { Some(next) } else { None }
}
