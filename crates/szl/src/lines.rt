//! The lines that name a byte of an input or of a journal, a file to be joined, a record that faults, or a shard that is lost.
ghost use Rattle.std.specs.Prelude.{◌≡◌, ◌++◌, ◌∷◌, [], IfOk, decimal, slice_index_or};
ghost use Rattle.sz_machine.specs.Ends.{seen_fault};
ghost use Rattle.szl.specs.Answers.{lost_line, damaged_line, limit_line, bad_tables_line, other_tables_line, tables_limit_line, journal_damaged_line, fault_texts, fault_line};

use itoa::Buffer;
use std::alloc::{AllocError, Global};
use sz_machine::Fault;
use sz_refusals::push_place;

/// The line of an input that is damaged at a byte, with its newline.
pub fn damaged_line(alloc: Global, byte: u64) -> Result<Vec<u8>, AllocError>
    ensures value { IfOk result (λ line. line.items ≡ damaged_line byte) }
{
    numbered_line(alloc, b"input damaged at byte ", byte)
}

/// The line of an input that passes a limit at a byte, with its newline.
pub fn limit_line(alloc: Global, byte: u64) -> Result<Vec<u8>, AllocError>
    ensures value { IfOk result (λ line. line.items ≡ limit_line byte) }
{
    numbered_line(alloc, b"input limit at byte ", byte)
}

/// The line of a file to be joined that holds no saved tables, with its newline. Files are counted from 1.
pub fn bad_tables_line(alloc: Global, number: u64) -> Result<Vec<u8>, AllocError>
    ensures value { IfOk result (λ line. line.items ≡ bad_tables_line number) }
{
    numbered_line(alloc, b"bad tables in file ", number)
}

/// The line of a file to be joined whose tables are declared otherwise than those of the first, with its newline. Files are counted from 1.
pub fn other_tables_line(alloc: Global, number: u64) -> Result<Vec<u8>, AllocError>
    ensures value { IfOk result (λ line. line.items ≡ other_tables_line number) }
{
    numbered_line(alloc, b"other tables in file ", number)
}

/// The line of a file to be joined up to which the bounds pass the greatest one together, with its newline. Files are counted from 1.
pub fn tables_limit_line(alloc: Global, number: u64) -> Result<Vec<u8>, AllocError>
    ensures value { IfOk result (λ line. line.items ≡ tables_limit_line number) }
{
    numbered_line(alloc, b"table limit in file ", number)
}

/// The line of a journal that is damaged after the gate at a place, with its newline.
pub fn journal_damaged_line(alloc: Global, gate: u64) -> Result<Vec<u8>, AllocError>
    ensures value { IfOk result (λ line. line.items ≡ journal_damaged_line gate) }
{
    numbered_line(alloc, b"journal damaged at byte ", gate)
}

/// The line of a shard that is lost, with its newline.
pub fn lost_line(alloc: Global, shard: u64) -> Result<Vec<u8>, AllocError>
    ensures value { IfOk result (λ line. line.items ≡ lost_line shard) }
{
    let mut digits = Buffer::new();
    let mut line = Vec::from_slice(alloc, b"shard ")?;
    line.extend_from_slice(digits.format(shard).as_bytes())?;
    line.extend_from_slice(b" lost\n")?;
    Ok(line)
}

/// The line of a fault in a record, or in a static, whose number is 0; with its newline.
pub fn fault_line(alloc: Global, number: u64, fault: &Fault) -> Result<Vec<u8>, AllocError>
    ensures value { IfOk result (λ line. line.items ≡ fault_line number (seen_fault fault.now)) }
{
    let mut digits = Buffer::new();
    let mut line = Vec::new(alloc);
    line.extend_from_slice(b"record ")?;
    line.extend_from_slice(digits.format(number).as_bytes())?;
    line.extend_from_slice(b": ")?;
    line.extend_from_slice(fault_text(fault.kind).as_bytes())?;
    line.extend_from_slice(b" at ")?;
    push_place(&mut line, fault.place)?;
    line.push(b'\n')?;
    Ok(line)
}

// A line that ends with a number.
fn numbered_line(alloc: Global, front: &[u8], number: u64) -> Result<Vec<u8>, AllocError>
    ensures value { IfOk result (λ line. line.items ≡ front.now ++ (decimal number ++ 10 ∷ [])) }
{
    let mut digits = Buffer::new();
    let mut line = Vec::from_slice(alloc, front)?;
    line.extend_from_slice(digits.format(number).as_bytes())?;
    line.push(b'\n')?;
    Ok(line)
}

// The text of a fault, by its kind.
fn fault_text(kind: u8) -> &'static str
    ensures value { result.now ≡ slice_index_or fault_texts kind [] }
{
    match kind {
        1 => "undefined value used",
        2 => "store outside the value",
        3 => "calls too deep",
        4 => "budget passed",
        _ => "",
    }
}
