//! The messages of files, and their fields.
use std::alloc::Global;
use std::fmt::Write;
use sz_protofile::{FieldIn, Line, PlainKind, Scope, Sort};
use sz_protofile_names::sound_lines;
use sz_protofile_types::{all_fields, message_names, messages_in};
use sz_types::Encoding;

// In each row a file stands before `=>`, and after it its messages, each as its full and its joined name, and their fields.
const ROWS: &str = r##" =>
syntax = "proto3"; message Q { string country = 1; message P { sint64 d = 1; double x = 2; } repeated P type = 2; oneof o { int32 k = 3; } } => Q/Q Q.P/Q_P | Q country 1 text; Q.P d 1 zigzag; Q.P x 2 -; Q type_ 2 many Q.P;
message N { N next = 1; int64 v = 2; } => N/N | N next 1 N; N v 2 plain;
message A { enum E { X = 0; } E e = 1; bool b = 2; bytes c = 3; fixed32 d = 4; sfixed64 f = 5; float g = 6; } => A/A | A e 1 plain; A b 2 truth; A c 3 bytes; A d 4 fixed32; A f 5 fixed64; A g 6 -;
package p; message map { repeated .p.map for = 1; message A { message A { A a = 1; } p.map.A b = 2; } } => map/map map.A/map_A map.A.A/map_A_A | map for_ 1 many map; map.A.A a 1 map.A.A; map.A b 2 map.A;
message A { message B { lslrqlgswruj b = 1; enum piojjpthejgr { X = 0; } } message lslrqlgswruj { } } => A/A A.B/A_B A.lslrqlgswruj/A_lslrqlgswruj | A.B b 1 A.lslrqlgswruj;"##;

// The table comes from a call, so that no proof sees what stands in it.
fn rows() -> &'static str {
    ROWS
}

// A message, by its names. Where memory runs out the text is another one than it should be.
fn write_message(out: &mut String, scope: &Scope) {
    let full = scope.full.as_str();
    let joined = scope.joined.as_str();
    let _ = write!(out, " {full}/{joined}");
}

fn code_name(code: Encoding) -> &'static str {
    match code {
        Encoding::Plain => "plain",
        Encoding::Zigzag => "zigzag",
        Encoding::Fixed32 => "fixed32",
        Encoding::Fixed64 => "fixed64",
    }
}

fn sort_name(sort: &Sort) -> &str {
    match sort {
        Sort::Unkept => "-",
        Sort::Kept(plain) => match plain.kind {
            PlainKind::Truth => "truth",
            PlainKind::Whole => code_name(plain.code),
            PlainKind::Str => "text",
            PlainKind::Bytes => "bytes",
        },
        Sort::Message(name) => name.as_str(),
    }
}

fn write_field(out: &mut String, field: &FieldIn) {
    let many = if field.repeated { "many " } else { "" };
    let owner = field.owner.as_str();
    let name = field.name.as_str();
    let sort = sort_name(&field.sort);
    let _ = write!(out, " {owner} {name} {} {many}{sort};", field.number);
}

fn write_messages(out: &mut String, alloc: Global, text: &[u8], lines: &[Line]) {
    if let Ok(messages) = messages_in(alloc, text, lines) {
        for scope in messages.as_slice() {
            write_message(out, scope);
        }
        if !messages.is_empty() {
            let _ = write!(out, " |");
        }
    }
}

fn write_fields(out: &mut String, alloc: Global, text: &[u8], lines: &[Line]) {
    if let Ok(fields) = all_fields(alloc, text, lines) {
        for field in fields.as_slice() {
            write_field(out, field);
        }
    }
}

// The messages of a file that is no longer than it may be, and their fields; no text for a file that is refused.
fn outcome(alloc: Global, text: &[u8]) -> String {
    let mut out = String::new(alloc);
    if text.len() <= 1_048_576 {
        if let Ok(lines) = sound_lines(alloc, text) {
            write_messages(&mut out, alloc, text, lines.as_slice());
            write_fields(&mut out, alloc, text, lines.as_slice());
        }
    }
    out
}

// Whether the names of a file's messages have this one.
fn has_message(alloc: Global, text: &[u8], name: &str) -> bool {
    if text.len() <= 1_048_576 {
        if let Ok(lines) = sound_lines(alloc, text) {
            if let Ok(names) = message_names(alloc, text, lines.as_slice()) {
                return names.has(name);
            }
        }
    }
    false
}

#[test]
fn messages_have_their_fields(rt: HostRuntime) {
    for row in rows().lines() {
        let (text, wanted) = row.split_once(" =>").unwrap_or((row, "no arrow"));
        let found = outcome(rt.alloc(), text.as_bytes());
        assert_eq!(rt; found.as_str(), wanted, "at {row}");
    }
    assert!(rt; has_message(rt.alloc(), b"message A { message B { } }", "A.B"));
}
