//! The types of the messages of whole files, and what files are refused for.
use crate::errors::write_error;
use std::alloc::Global;
use std::fmt::Write;
use sz_protofile_types::{NamedTypes, ProtoError, read_proto};
use sz_types::Place;

// In each row a file stands before `=>`, and after it each of its types behind its name, or the number of what is wrong with the file, the
// name, if there is one, and the place.
const ROWS: &str = r##" =>
syntax = "proto3"; message Q { string country = 1; message P { sint64 d = 1; double x = 2; } repeated P type = 2; oneof o { int32 k = 3; } } => Q: Proto(Fields { fields: [Field { name: Text { string: "country" }, ty: Str, number: 1, code: Plain }, Field { name: Text { string: "type_" }, ty: Array(Proto(Fields { fields: [Field { name: Text { string: "d" }, ty: Int, number: 1, code: Zigzag }] })), number: 2, code: Plain }] }); Q_P: Proto(Fields { fields: [Field { name: Text { string: "d" }, ty: Int, number: 1, code: Zigzag }] });
message N { N next = 1; int64 v = 2; } => N: Proto(Fields { fields: [Field { name: Text { string: "v" }, ty: Int, number: 2, code: Plain }] });
message A { B b = 1; } => 5 B 1:13
import "x"; message A { x.B b = 1; } => 5 x.B 1:25
enum => 2 1:1
message A { } message A { } => 3 A 1:23
message A { int32 b = 536870912; } => 4 b 1:19
message E { } => E: Proto(Fields { fields: [] });
message A { int32 a = 1; uint64 b = 2; fixed32 c = 3; sfixed64 d = 4; sint32 e = 5; bool f = 6; string g = 7; bytes h = 8; K k = 9; float l = 10; map<string, K> m = 11; group G = 12 { int32 x = 1; } } enum K { Z = 0; } => A: Proto(Fields { fields: [Field { name: Text { string: "a" }, ty: Int, number: 1, code: Plain }, Field { name: Text { string: "b" }, ty: Int, number: 2, code: Plain }, Field { name: Text { string: "c" }, ty: Int, number: 3, code: Fixed32 }, Field { name: Text { string: "d" }, ty: Int, number: 4, code: Fixed64 }, Field { name: Text { string: "e" }, ty: Int, number: 5, code: Zigzag }, Field { name: Text { string: "f" }, ty: Bool, number: 6, code: Plain }, Field { name: Text { string: "g" }, ty: Str, number: 7, code: Plain }, Field { name: Text { string: "h" }, ty: Bytes, number: 8, code: Plain }, Field { name: Text { string: "k" }, ty: Int, number: 9, code: Plain }] });
message A { B b = 1; bool z = 2; } message B { A a = 1; C c = 2; } message C { int32 k = 1; } => A: Proto(Fields { fields: [Field { name: Text { string: "z" }, ty: Bool, number: 2, code: Plain }] }); B: Proto(Fields { fields: [Field { name: Text { string: "c" }, ty: Proto(Fields { fields: [Field { name: Text { string: "k" }, ty: Int, number: 1, code: Plain }] }), number: 2, code: Plain }] }); C: Proto(Fields { fields: [Field { name: Text { string: "k" }, ty: Int, number: 1, code: Plain }] });
message D { repeated C c = 1; C e = 2; } message C { int32 k = 1; } => D: Proto(Fields { fields: [Field { name: Text { string: "c" }, ty: Array(Proto(Fields { fields: [Field { name: Text { string: "k" }, ty: Int, number: 1, code: Plain }] })), number: 1, code: Plain }, Field { name: Text { string: "e" }, ty: Proto(Fields { fields: [Field { name: Text { string: "k" }, ty: Int, number: 1, code: Plain }] }), number: 2, code: Plain }] }); C: Proto(Fields { fields: [Field { name: Text { string: "k" }, ty: Int, number: 1, code: Plain }] });
message type { message map { bool x = 1; } map map = 1; } => type_: Proto(Fields { fields: [Field { name: Text { string: "map_" }, ty: Proto(Fields { fields: [Field { name: Text { string: "x" }, ty: Bool, number: 1, code: Plain }] }), number: 1, code: Plain }] }); type_map: Proto(Fields { fields: [Field { name: Text { string: "x" }, ty: Bool, number: 1, code: Plain }] });
package p; message A { message B { bool x = 1; } .p.A.B b = 1; p.C c = 2; } message C { repeated sfixed32 y = 3; } => A: Proto(Fields { fields: [Field { name: Text { string: "b" }, ty: Proto(Fields { fields: [Field { name: Text { string: "x" }, ty: Bool, number: 1, code: Plain }] }), number: 1, code: Plain }, Field { name: Text { string: "c" }, ty: Proto(Fields { fields: [Field { name: Text { string: "y" }, ty: Array(Int), number: 3, code: Fixed32 }] }), number: 2, code: Plain }] }); A_B: Proto(Fields { fields: [Field { name: Text { string: "x" }, ty: Bool, number: 1, code: Plain }] }); C: Proto(Fields { fields: [Field { name: Text { string: "y" }, ty: Array(Int), number: 3, code: Fixed32 }] });"##;

// The table comes from a call, so that no proof sees what stands in it.
fn rows() -> &'static str {
    ROWS
}

// Types behind their names. Where memory runs out the text is another one than it should be.
fn write_types(out: &mut String, types: &NamedTypes) {
    for named in types.as_slice() {
        let name = named.name.as_str();
        let ty = &named.ty;
        let _ = write!(out, " {name}: {ty:?};");
    }
}

// What is made of a file that is no longer than it may be, and nothing for another.
fn outcome(alloc: Global, text: &[u8]) -> String {
    let mut out = String::new(alloc);
    if text.len() <= 1_048_576 {
        match read_proto(alloc, text) {
            Ok(types) => write_types(&mut out, &types),
            Err(error) => write_error(&mut out, &error),
        }
    }
    out
}

#[test]
fn messages_have_their_types(rt: HostRuntime) {
    for row in rows().lines() {
        let (text, wanted) = row.split_once(" =>").unwrap_or((row, "no arrow"));
        let found = outcome(rt.alloc(), text.as_bytes());
        assert_eq!(rt; found.as_str(), wanted, "at {row}");
    }
}

// So many fields of this type, of the names a1, a2 and so on.
fn write_fields(out: &mut String, ty: &str, count: u32) {
    for number in 1..=count {
        let _ = write!(out, "{ty} a{number}={number};");
    }
}

// A file with so many fields in its types: those of 99 fields and of 999 such messages are 99 and 99,900, and then come single ones.
fn wide(alloc: Global, single: u32) -> String {
    let mut out = String::new(alloc);
    let _ = write!(out, "message A{{");
    write_fields(&mut out, "bool", 99);
    let _ = write!(out, "}}message B{{");
    write_fields(&mut out, "A", 999);
    let _ = write!(out, "}}message C{{");
    write_fields(&mut out, "bool", single);
    let _ = write!(out, "}}");
    out
}

// How many types a file has; for a file that is refused the number of its refusal, if that is at the first place and has no name, and else 0.
fn size_or_refusal(alloc: Global, text: &[u8]) -> usize {
    if text.len() > 1_048_576 {
        return 0;
    }
    match read_proto(alloc, text) {
        Ok(types) => types.len(),
        Err(
            ProtoError::Refused {
                number,
                place: Place { line: 1, column: 1 },
                name: None,
            },
        ) => number as usize,
        Err(_) => 0,
    }
}

// A ring of messages, each of which has the next one for the type of its field.
fn ring(alloc: Global, count: u32) -> String {
    let mut out = String::new(alloc);
    for number in 1..count {
        let next = number + 1;
        let _ = write!(out, "message M{number}{{M{next} a=1;}}");
    }
    let _ = write!(out, "message M{count}{{M1 a=1;}}");
    out
}

#[test]
fn a_hundred_thousand_fields_are_taken_and_no_more(rt: HostRuntime) {
    assert!(rt; size_or_refusal(rt.alloc(), wide(rt.alloc(), 1).as_bytes()) == 3);
    assert!(rt; size_or_refusal(rt.alloc(), wide(rt.alloc(), 2).as_bytes()) == 6);
    assert!(rt; size_or_refusal(rt.alloc(), ring(rt.alloc(), 30_000).as_bytes()) == 30_000);
}
