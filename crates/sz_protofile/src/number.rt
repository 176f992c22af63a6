//! Numbers: decimal digits, octal ones after `0`, or hexadecimal ones after `0x`.
ghost use Rattle.std.specs.Prelude.{◌≡◌, ◌≤◌, ◌^◌, IfSome};
ghost use Rattle.sz_protofile.specs.Reading.{digits_from, digits_of, after_zero, number_of, push_digit};

// The number with one more digit after it, and 2^29 for each larger one, if this is a digit to the base.
fn push_digit(base: u32, number: u32, byte: u8) -> Option<u32>
    requires low { 2 ≤ base }
    requires high { base ≤ 16 }
    requires most { number ≤ 2 ^ 29 }
    ensures value { result ≡ push_digit base number byte }
    ensures most { IfSome result (λ n. n ≤ 2 ^ 29) }
{
    let digit = char::from(byte).to_digit(base)?;
    let more = u64::from(number) * u64::from(base) + u64::from(digit);
    Some(more.min(1 << 29) as u32)
}

// The number that digits to a base spell.
fn digits(base: u32, run: &[u8]) -> Option<u32>
    requires low { 2 ≤ base }
    requires high { base ≤ 16 }
    ensures value { result ≡ digits_from base 0 run.now }
{
    let mut number = 0;
    for byte in run {
        number = push_digit(base, number, *byte)?;
    }
    Some(number)
}

// The number of one or more digits to a base.
fn digits_of(base: u32, run: &[u8]) -> Option<u32>
    requires low { 2 ≤ base }
    requires high { base ≤ 16 }
    ensures value { result ≡ digits_of base run.now }
{
    if run.is_empty() {
        return None;
    }
    digits(base, run)
}

// The number that follows a `0` at the front of a word.
fn after_zero(rest: &[u8]) -> Option<u32>
    ensures value { result ≡ after_zero rest.now }
{
    match rest {
        [] => Some(0),
        [b'x', digits @ ..] => digits_of(16, digits),
        _ => digits_of(8, rest),
    }
}

/// The number that a word spells, and 2^29 for each larger one.
pub fn number_of(word: &[u8]) -> Option<u32>
    ensures value { result ≡ number_of word.now }
{
    match word {
        [b'0', rest @ ..] => after_zero(rest),
        _ => digits_of(10, word),
    }
}
