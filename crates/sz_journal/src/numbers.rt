//! Numbers, read from the front of bytes.
ghost use Rattle.sz_save_format.specs.Decoding.{length_at, byte_at};
ghost use Rattle.sz_save_format.specs.DecodingRows.{count_at};
ghost use Rattle.sz_journal.specs.EntryReading.{Reads};

use crate::entry_error::EntryError;
use sz_save_format::read_length;

// The byte in front.
pub(crate) fn read_byte(flat: &[u8]) -> Result<(u8, &[u8]), EntryError>
    ensures value { Reads (λ r. (r.0, r.1.now)) (byte_at flat.now) result }
{
    let [byte, rest @ ..] = flat else {
        return Err(EntryError::NotEntry);
    };
    Ok((*byte, rest))
}

// The number in front, of 4 bytes.
pub(crate) fn read_short(flat: &[u8]) -> Result<(u32, &[u8]), EntryError>
    ensures value { Reads (λ r. (r.0, r.1.now)) (length_at flat.now) result }
{
    match read_length(flat) {
        Ok(found) => Ok(found),
        Err(error) => Err(EntryError::from(error)),
    }
}

// The number in front, of 8 bytes.
pub(crate) fn read_count(flat: &[u8]) -> Result<(u64, &[u8]), EntryError>
    ensures value { Reads (λ r. (r.0, r.1.now)) (count_at flat.now) result }
{
    match sz_save_format::read_count(flat) {
        Ok(found) => Ok(found),
        Err(error) => Err(EntryError::from(error)),
    }
}
