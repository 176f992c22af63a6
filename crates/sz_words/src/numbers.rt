//! The numbers that words write.
ghost use Rattle.std.specs.Prelude.{◌≡◌, IfSome};
ghost use Rattle.sz_words.specs.Texts.{number_in};
ghost use Rattle.sz_words.specs.Bounds.{InRange};

use sz_types::digits_up_to;

/// The number that a text writes: 1 to 20 decimal digits with a value from `least` to `most`. Zeros may stand in front.
pub fn number_in(text: &[u8], least: u64, most: u64) -> Option<u64>
    ensures value { result ≡ number_in least most text.now }
    ensures within { IfSome result (InRange least most) }
{
    if text.len() > 20 {
        return None;
    }
    match digits_up_to(text, most) {
        Some(value) if value >= least => Some(value),
        _ => None,
    }
}

/// The same, of numbers of 32 bits.
pub fn small_number_in(text: &[u8], least: u32, most: u32) -> Option<u32>
    ensures value { result ≡ number_in least most text.now }
    ensures within { IfSome result (InRange least most) }
{
    match number_in(text, u64::from(least), u64::from(most)) {
        Some(value) => Some(value as u32),
        None => None,
    }
}
