//! Bytes as rows write them.
use std::alloc::Global;
use std::test::Fail;

/// Appends the bytes that are written as hexadecimal numbers with blanks between.
pub(crate) fn add_bytes(bytes: &mut Vec<u8>, digits: &str) -> Result<(), Fail> {
    for word in digits.split_whitespace() {
        bytes.push(u8::from_str_radix(word, 16).ok().ok_or("no byte")?)?;
    }
    Ok(())
}

/// The bytes that are written as hexadecimal numbers with blanks between.
pub(crate) fn bytes_of(alloc: Global, digits: &str) -> Result<Vec<u8>, Fail> {
    let mut bytes = Vec::new(alloc);
    add_bytes(&mut bytes, digits)?;
    Ok(bytes)
}
