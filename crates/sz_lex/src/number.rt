//! Numbers: decimal digits, or `0x` and hexadecimal digits.
ghost use Rattle.std.specs.Prelude.{◌≡◌, ◌^◌, ◌≤◌};
ghost use Rattle.sz_lex.specs.Numbers.{digits_from, below, decimal, hexadecimal, number_of};
ghost use Rattle.sz_lex.specs.Reading.{push_digit};

// The number with one more digit after it, if this is a digit to the base and 64 bits hold the number.
fn push_digit(base: u32, number: u64, byte: u8) -> Option<u64>
    requires low { 2 ≤ base }
    requires high { base ≤ 16 }
    ensures { result ≡ push_digit base number byte }
{
    let digit = char::from(byte).to_digit(base)?;
    number
        .checked_mul(u64::from(base))?
        .checked_add(u64::from(digit))
}

// The number below 2^64 that digits to a base spell.
pub fn digits(base: u32, run: &[u8]) -> Option<u64>
    requires low { 2 ≤ base }
    requires high { base ≤ 16 }
    ensures { result ≡ below (2 ^ 64) (digits_from base 0 run.now) }
{
    let mut number = 0;
    for byte in run {
        number = push_digit(base, number, *byte)?;
    }
    Some(number)
}

// The number that a run of letters, digits and underscores spells.
pub fn number_of(run: &[u8]) -> Option<i64>
    ensures { result ≡ number_of run.now }
{
    match run {
        [] | [b'0', b'x'] => None,
        [b'0', b'x', ..] => hexadecimal(&run[2..]),
        [b'0', _, ..] => None,
        _ => decimal(run),
    }
}

fn decimal(run: &[u8]) -> Option<i64>
    ensures { result ≡ decimal run.now }
{
    let number = digits(10, run)?;
    if number < 1 << 63 {
        Some(number as i64)
    } else {
        None
    }
}

fn hexadecimal(run: &[u8]) -> Option<i64>
    ensures { result ≡ hexadecimal run.now }
{
    if run.is_empty() {
        return None;
    }
    Some(digits(16, run)?.cast_signed())
}
