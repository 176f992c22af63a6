//! Types, and the values that bytes have by them.
use crate::message_types::type_of;
use crate::messages_given::add_bytes;
use crate::told::told;
use crate::written;
use std::alloc::Global;
use std::process::Abort;
use std::test::Fail;
use sz_proto::decode;

// Bytes, and after `=>` the value that they have by the type of the nearest line `type` above. A line after `#` says what the
// next lines show.
const ROWS: &str = "\
# single fields
type 2 int
=> {0}
10 05 10 07 => {7}
10 => undefined
02 00 => undefined
12 01 05 => {0}
18 05 => {0}
15 fe ff ff ff => {-2}
10 ff ff ff ff ff ff ff ff ff 01 => {-1}
type 2 zigzag int
10 03 => {-2}
11 03 00 00 00 00 00 00 00 => {3}
type 2 fixed32 int
10 03 => {3}
type 2 time
10 05 => {@5}
type 2 bool
10 02 10 00 => {false}
15 01 00 00 00 => {false}
type 2 string
12 01 78 12 01 79 => {'y'}
12 01 ff 12 01 79 => undefined
type 2 bytes
12 01 ff => {xff}
# groups
type 2 int
2b 08 01 2c 10 07 => {7}
2b 08 01 34 => undefined
2b 08 01 => undefined
# lists of scalars
type 2 array int
12 02 01 02 10 03 => {[1, 2, 3]}
12 02 01 80 => undefined
type 2 zigzag array int
12 02 01 02 => {[-1, 1]}
type 2 fixed32 array int
12 04 ff ff ff ff => {[-1]}
12 03 ff ff ff => undefined
type 2 fixed64 array int
12 08 02 00 00 00 00 00 00 00 => {[2]}
type 2 array bool
12 02 00 05 10 01 => {[false, true, true]}
type 2 array bytes
12 00 12 01 07 => {[x, x07]}
type 2 array string
12 01 ff => undefined
# messages in messages
type 2 { 1 int }
=> {{0}}
12 02 08 05 12 00 => {{5}}
12 02 08 05 12 02 08 06 => {{6}}
12 01 08 12 01 05 => undefined
type 2 array { 1 int }
12 00 12 02 08 05 => {[{0}, {5}]}
# a number and a list, with a group and a text to pass over
type 1 int 2 array int
08 05 08 07 12 02 01 02 10 03 2b 08 01 2c 0a 01 78 => {7, [1, 2, 3]}
08 => undefined";

// Whether the value of the bytes has this text.
fn has_value(alloc: Global, type_text: &str, bytes: &[u8], expected: &str) -> Result<bool, Fail> {
    let ty = type_of(alloc, type_text)?;
    let found = decode(alloc, &ty, bytes);
    drop(ty);
    let found = found?;
    let text = told(alloc, &found);
    drop(found);
    Ok(text?.as_str() == expected)
}

// The bytes of each row have its value.
fn holds(rt: &impl Abort, alloc: Global, rows: &str) -> Result<(), Fail> {
    let mut shown = "";
    let mut type_text = "";
    let mut bytes = Vec::new(alloc);
    for line in rows.lines() {
        if let Some(text) = line.strip_prefix("# ") {
            shown = text;
        } else if let Some(text) = line.strip_prefix("type ") {
            type_text = text;
        } else if let Some((digits, expected)) = line.split_once("=> ") {
            add_bytes(&mut bytes, digits)?;
            assert!(rt;
                has_value(alloc, type_text, bytes.as_slice(), expected)?,
                "at {shown}: {line}"
            );
            bytes.clear();
        } else {
            add_bytes(&mut bytes, line)?;
        }
    }
    Ok(())
}

// The tables come from a call, so that no proof sees what stands in them.
fn tables() -> [&'static str; 2] {
    [ROWS, written::ROWS]
}

#[test]
fn messages_have_the_values_of_their_fields(rt: HostRuntime) -> Result<(), Fail> {
    for rows in tables() {
        holds(&rt, rt.alloc(), rows)?;
    }
    Ok(())
}
