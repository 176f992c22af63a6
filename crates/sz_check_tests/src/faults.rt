//! What is wrong with files whose lines are read, or that nothing is.
use crate::errors::write_error;
use std::alloc::Global;
use sz_protofile_names::sound_lines;

// In each row a file stands before `=>`, and after it the number of what is wrong with it, the name, if there is one, and the place.
const ROWS: &str = r##" =>
syntax = "proto3"; message Q { string country = 1; message P { sint64 d = 1; double x = 2; } repeated P type = 2; oneof o { int32 k = 3; } } =>
message A { B b = 1; } => 5 B 1:13
message N { N next = 1; int64 v = 2; } =>
import "x"; message A { x.B b = 1; } => 5 x.B 1:25
enum => 2 1:1
; message A { B b = 1 } => 2 1:3
message A { double a = 1; float b = 2; int32 c = 3; int64 d = 4; uint32 e = 5; uint64 f = 6; sint32 g = 7; sint64 h = 8; fixed32 i = 9; fixed64 j = 10; sfixed32 k = 11; sfixed64 l = 12; bool m = 13; string n = 14; bytes o = 15; } =>
message A { Int32 a = 1; } => 5 Int32 1:13
# Names of messages and enums, after joining and with their underscores. => 2 1:1
message A { } message A { } => 3 A 1:23
message A { } enum A { X = 0; } => 3 A 1:20
message A { message B { } } message A_B { } => 3 A_B 1:37
message A_B { } message A { enum B { X = 0; } } => 3 A_B 1:34
message type { } message type_ { } => 3 type_ 1:26
message A { message B { } } message C { message B { } } =>
message A { message A { message A { } } } =>
# Names and numbers of fields. => 2 1:1
message A { int32 b = 1; int32 b = 2; } => 3 b 1:32
message A { int32 type = 1; int32 type_ = 2; } => 3 type_ 1:35
message A { int32 type = 1; int32 type = 2; } => 3 type_ 1:35
message A { int32 b = 1; int32 c = 1; } => 4 c 1:32
message A { int32 b = 0; } => 4 b 1:19
message A { int32 map = 536870912; } => 4 map_ 1:19
message A { int32 b = 536870911; } =>
message A { int32 b = 0x1fffffff; int32 c = 01; int32 d = 1; } => 4 d 1:55
message A { int32 b = 1; map<string, X> b = 2; } => 3 b 1:41
message A { int32 b = 1; group b = 2 { int32 x = 1; int32 x = 1; } } => 3 b 1:32
message A { int32 b = 1; map<string, X> c = 1; } => 4 c 1:41
message A { map<X, Y> c = 1; group D = 2 { Z z = 1; } oneof e { Z z = 1; } extend W { Z z = 1; } } =>
message A { int32 b = 1; message B { int32 b = 1; } int32 c = 2; } =>
message A { int32 b = 1; message B { int32 c = 2; } int32 b = 3; } => 3 b 1:59
# Of one field the name comes first, then the number, then the type; of a file the first. => 2 1:1
message A { int32 b = 1; X b = 0; } => 3 b 1:28
message A { X b = 0; } => 4 b 1:15
message A { X b = 1; Y b = 1; } => 5 X 1:13
message A { int32 b = 1; int32 b = 2; } message A { } => 3 b 1:32
message A { X b = 1; } => 5 X 1:13
# A word is looked up in the innermost message first, as a whole path, then outwards. => 2 1:1
message A { message B { C c = 1; } message C { } } =>
message A { message B { B.C c = 1; A.B.C d = 2; C e = 3; message C { } } } =>
message A { message B { } } message C { B b = 1; } => 5 B 1:41
message A { message B { } } message C { A.B b = 1; message A { } } =>
message A { enum E { X = 0; } E e = 1; A.E f = 2; } =>
message A { A. a = 1; } => 5 A. 1:13
message A { A..A a = 1; } => 5 A..A 1:13
message A { X b = 1; } message X { } =>
message A { message B { C.D d = 1; message C { } } message C { message D { } } } =>
# What only a further message of a name declares is not found. => 2 1:1
message A { B b = 1; } message A { message B { } } => 5 B 1:13
message A { message B { } } message A { B b = 1; } => 3 A 1:37
message A { B b = 1; } message A { message C { } } message B { } => 3 A 1:32
message A { B b = 1; message C { } } message A { message C { message D { } } message B { } } => 5 B 1:13
message A { B b = 1; } message A { message C { } enum B { X = 0; } } => 5 B 1:13
message A { B.C c = 1; message B { } message B { message C { } } } => 5 B.C 1:13
enum A { X = 0; } message B { A.C c = 1; } message A { message C { } } => 5 A.C 1:31
message A { B b = 1; message B { } } message A { message B { message C { } } } => 3 A 1:46
# Of two words with one hash each means its own. => 2 1:1
message A { lslrqlgswruj b = 1; message piojjpthejgr { } } => 5 lslrqlgswruj 1:13
message A { message B { lslrqlgswruj b = 1; message piojjpthejgr { } } message lslrqlgswruj { } } =>
message A { lslrqlgswruj b = 1; piojjpthejgr c = 2; } message piojjpthejgr { } message lslrqlgswruj { } =>
# The package comes off, behind a dot or by itself; the last one counts. => 2 1:1
package p.q; message A { A a = 1; p.q.A b = 2; .p.q.A c = 3; } =>
package p.q; message A { q.A a = 1; } => 5 q.A 1:26
package p.q; message A { .A a = 1; } => 5 .A 1:26
package p.q; message A { p.qA a = 1; } => 5 p.qA 1:26
message A { .A a = 1; } =>
message A { . a = 1; } => 5 . 1:13
package p; message A { q.A a = 1; } package q; =>
package p; message A { p.A a = 1; } package q; => 5 p.A 1:24
package p; message p { message A { } } message A { p.A a = 1; p.p.A b = 2; .p.p.A c = 3; } =>"##;

// The table comes from a call, so that no proof sees what stands in it.
fn rows() -> &'static str {
    ROWS
}

// What is wrong with a file that is no longer than it may be, and nothing for another.
fn outcome(alloc: Global, text: &[u8]) -> String {
    let mut out = String::new(alloc);
    if text.len() <= 1_048_576 {
        match sound_lines(alloc, text) {
            Ok(_) => {}
            Err(error) => write_error(&mut out, &error),
        }
    }
    out
}

#[test]
fn the_first_thing_that_is_wrong_with_a_file_is_told(rt: HostRuntime) {
    for row in rows().lines() {
        let (text, wanted) = row.split_once(" =>").unwrap_or((row, "no arrow"));
        let found = outcome(rt.alloc(), text.as_bytes());
        assert_eq!(rt; found.as_str(), wanted, "at {row}");
    }
}
