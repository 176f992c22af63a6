//! What is wrong with a file, as rows have it.
use std::fmt::Write;
use sz_protofile_names::ProtoError;
use sz_types::{Place, Text};

fn write_name(out: &mut String, name: &Option<Text>) {
    if let Some(name) = name {
        let text = name.as_str();
        let _ = write!(out, " {text}");
    }
}

fn write_refusal(out: &mut String, number: u8, place: Place, name: &Option<Text>) {
    let _ = write!(out, " {number}");
    write_name(out, name);
    let _ = write!(out, " {}:{}", place.line, place.column);
}

/// What is wrong with a file, after a space. Where memory runs out the text is another one than it should be.
pub fn write_error(out: &mut String, error: &ProtoError) {
    match error {
        ProtoError::Refused {
            number,
            place,
            name,
        } => write_refusal(out, *number, *place, name),
        ProtoError::NoMemory => {
            let _ = write!(out, " no memory");
        }
    }
}
