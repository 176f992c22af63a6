//! The text of numbers and truth values.
ghost use Rattle.std.specs.Prelude.{◌≡◌, ◌++◌, OnOk};
ghost use Rattle.std.specs.Fmt.{signed_decimal};
ghost use Rattle.sz_print.specs.Text.{truth_text};

use itoa::Buffer;
use sz_value::NoMemory;

// Appends a number in decimal.
pub(crate) fn push_number(number: i128, out: &mut Vec<u8>) -> Result<(), NoMemory>
    ensures value { OnOk result (out.new.items ≡ out.old.items ++ signed_decimal number) }
{
    let mut digits = Buffer::new();
    out.extend_from_slice(digits.format(number).as_bytes())?;
    Ok(())
}

// Appends the word for a truth value.
pub(crate) fn push_truth(truth: bool, out: &mut Vec<u8>) -> Result<(), NoMemory>
    ensures value { OnOk result (out.new.items ≡ out.old.items ++ truth_text truth) }
{
    let word = if truth { "true" } else { "false" };
    out.extend_from_slice(word.as_bytes())?;
    Ok(())
}
