//! Messages that are cut off or changed: each has a value or none.
use crate::message_types::type_of;
use crate::messages_given::bytes_of;
use std::alloc::Global;
use std::test::Fail;
use sz_proto::decode;
use sz_types::Ty;

// A message with fields of each kind, twice the same message in it, a list of messages, packed and single elements, an unknown
// field, and groups.
const TYPE: &str =
    "1 int 2 zigzag int 3 string 4 bytes 5 { 1 bool 2 string } 6 array { 1 time } 7 array int 8 fixed32 array int 9 int";

const BYTES: &str = "\
08 96 01 10 03 1a 02 c3 a9 22 02 ff 00 2a 04 08 01 12 00 2a 03 12 01 61 32 02 08 05 32 00 3a 03 01 80 02 38 07
42 08 01 00 00 00 ff ff ff ff 45 02 00 00 00 49 01 00 00 00 00 00 00 80 63 08 01 6b 6c 64 72 01 78";

fn has_answer(alloc: Global, ty: &Ty, bytes: &[u8]) -> bool {
    let found = decode(alloc, ty, bytes);
    let is_answer = found.is_ok();
    drop(found);
    is_answer
}

// Whether the bytes in front of a place have an answer, and so have all with another byte there.
fn have_answers(alloc: Global, ty: &Ty, bytes: &mut [u8], place: usize) -> bool {
    let mut all = match bytes.get(..place) {
        Some(front) => has_answer(alloc, ty, front),
        None => false,
    };
    for octet in 0..=255u8 {
        if let Some(old) = bytes.get_mut(place) {
            *old = octet;
        }
        all = all && has_answer(alloc, ty, bytes);
    }
    all
}

fn place_has_answers(alloc: Global, place: usize) -> Result<bool, Fail> {
    let mut bytes = bytes_of(alloc, BYTES)?;
    let ty = type_of(alloc, TYPE)?;
    let all = have_answers(alloc, &ty, bytes.as_mut_slice(), place);
    drop(ty);
    Ok(all)
}

// The bytes as text come from a call, so that no proof sees them.
fn text() -> &'static str {
    BYTES
}

#[test]
fn every_prefix_and_every_change_of_one_byte_has_an_answer(rt: HostRuntime) -> Result<(), Fail> {
    for (place, _) in text().split_whitespace().enumerate() {
        assert!(rt; place_has_answers(rt.alloc(), place)?, "at {place}");
    }
    Ok(())
}
