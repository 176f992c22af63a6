//! The numbers that texts spell.
ghost use Rattle.std.specs.Prelude.{◌≡◌, ◌≤◌, ◌^◌, ◌&&◌, Some, None, if◌then◌else◌, pos, neg_ℤ};
ghost use Rattle.std.specs.Str.Parse.{digits_value};
ghost use Rattle.sz_types.specs.Numerals.{is_numeral};
ghost use Rattle.sz_builtin.specs.Conversions.{number_in, fits};

use sz_types::digits_up_to;

/// The number that a text spells: an optional sign and then decimal digits alone, at least one.
///
/// `None` where the text is something else, or the number doesn't fit 64 bits with a sign.
pub fn number_in(text: &[u8]) -> Option<i64>
    ensures value { result ≡ number_in text.now }
{
    match text {
        [b'-', digits @ ..] => match digits_up_to(digits, 1 << 63) {
            Some(size) => Some(negative(size)),
            None => None,
        },
        [b'+', digits @ ..] => positive(digits),
        digits => positive(digits),
    }
}

// The number that digits without a sign write.
fn positive(digits: &[u8]) -> Option<i64>
    ensures value { result ≡ (if is_numeral digits.now && fits (pos (digits_value 10 digits.now))
        then Some (pos (digits_value 10 digits.now)) else None) }
{
    match digits_up_to(digits, i64::MAX as u64) {
        Some(size) => Some(size as i64),
        None => None,
    }
}

// The number below 0 that has this size, or 0.
fn negative(size: u64) -> i64
    requires { size ≤ 2 ^ 63 }
    ensures value { result ≡ neg_ℤ (pos size) }
{
    if size == 0 {
        0
    } else {
        -((size - 1) as i64) - 1
    }
}
