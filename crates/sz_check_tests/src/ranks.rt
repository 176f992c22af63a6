//! Which fields lead back to their own message.
use std::alloc::Global;
use std::fmt::Write;
use sz_protofile::{FieldIn, Line, Sort};
use sz_protofile_names::sound_lines;
use sz_protofile_types::{Ranks, all_fields, message_ranks};

// In each row a file stands before `=>`, and after it each field of a message's type, and whether it leads back.
const ROWS: &str = r##" =>
message N { N next = 1; int64 v = 2; } => N.next back;
message A { B b = 1; } message B { A a = 1; C c = 2; } message C { int32 k = 1; } => A.b back; B.a back; B.c on;
message A { B b = 1; C c = 2; } message B { D d = 1; } message C { D d = 1; } message D { bool x = 1; } => A.b on; A.c on; B.d on; C.d on;
message A { B b = 1; } message B { C c = 1; } message C { D d = 1; B b = 2; } message D { D d = 1; } => A.b on; B.c back; C.d on; C.b back; D.d back;
message A { message B { A a = 1; } B b = 1; C c = 2; } message C { A.B b = 1; } => A.B.a back; A.b back; A.c back; C.b back;
message D { C c = 1; } message C { B b = 1; } message B { A a = 1; } message A { A a = 1; } => D.c on; C.b on; B.a on; A.a back;
message A { B b = 1; } message B { C c = 1; D d = 2; } message C { B b = 1; } message D { E e = 1; } message E { A a = 1; } => A.b back; B.c back; B.d back; C.b back; D.e back; E.a back;"##;

// The table comes from a call, so that no proof sees what stands in it.
fn rows() -> &'static str {
    ROWS
}

// A field of a message's type. Where memory runs out the text is another one than it should be.
fn write_field(out: &mut String, ranks: &Ranks, field: &FieldIn) {
    if let Sort::Message(target) = &field.sort {
        let owner = field.owner.as_str();
        let name = field.name.as_str();
        let back = ranks.rank(target.as_str()) == ranks.rank(owner);
        let way = if back { "back" } else { "on" };
        let _ = write!(out, " {owner}.{name} {way};");
    }
}

fn write_fields(out: &mut String, alloc: Global, text: &[u8], lines: &[Line]) {
    if let Ok(fields) = all_fields(alloc, text, lines) {
        if let Ok(ranks) = message_ranks(alloc, fields.as_slice()) {
            for field in fields.as_slice() {
                write_field(out, &ranks, field);
            }
        }
    }
}

// The fields of a file that is no longer than it may be; no text for a file that is refused.
fn outcome(alloc: Global, text: &[u8]) -> String {
    let mut out = String::new(alloc);
    if text.len() <= 1_048_576 {
        if let Ok(lines) = sound_lines(alloc, text) {
            write_fields(&mut out, alloc, text, lines.as_slice());
        }
    }
    out
}

#[test]
fn fields_lead_back_where_ranks_are_the_same(rt: HostRuntime) {
    for row in rows().lines() {
        let (text, wanted) = row.split_once(" =>").unwrap_or((row, "no arrow"));
        let found = outcome(rt.alloc(), text.as_bytes());
        assert_eq!(rt; found.as_str(), wanted, "at {row}");
    }
}
