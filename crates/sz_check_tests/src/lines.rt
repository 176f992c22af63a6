//! The lines of files, or where a file is refused.
use std::alloc::Global;
use std::fmt::Write;
use sz_protofile::{FieldLine, FileError, Line, Member, lines};
use sz_protofile_lex::{Token, lexeme};
use sz_types::NoMemory;

// In each row a file stands before `=>`, and after it what its lines are, or where it is refused.
const ROWS: &str = r##" =>
; => -
syntax = "proto3"; message Q { string country = 1; } => - message(Q) field(string country 1) end
message P { sint64 d = 1; double x = 2; } => message(P) field(sint64 d 1) field(double x 2) end
message Q { message P { } repeated P type = 2; oneof o { int32 k = 3; } } => message(Q) message(P) end repeated(P type 2) - end
package a.b; import "x"; import public 'y'; import weak "z"; => package(a.b) - - -
enum E { A = 0; B = -1 [deprecated = true]; } => enum(E)
service S { rpc F (A) returns (B) { option x = 1; } } extend a.B { int32 c = 5; } => - -
option (a.b).c = { d: [1, 2] e { f: "}" } }; => -
option a = (;); option b; => - -
message M { option o = 1; reserved 1, 3 to 5; reserved "a"; extensions 100 to max; extend E { int32 x = 1; } enum F { G = 0; }; } => message(M) - - - - - enum(F) - end
message M { map<string, a.B> m = 1; group G = 2 { int32 x = 1; } repeated group H = 3 [a = 1] { } } => message(M) unread(m 1) unread(G 2) unread(H 3) end
message M { optional int32 a = 1; required .x.Y b = 2 [default = "]", (c) = { d; }]; repeated int32 c = 3 []; } => message(M) field(int32 a 1) field(.x.Y b 2) repeated(int32 c 3) end
# Each of the words may be a name. => 1:1
message message { optional optional = 1; repeated repeated repeated = 2; message message = 3; enum enum = 4; } => message(message) field(optional optional 1) repeated(repeated repeated 2) field(message message 3) field(enum enum 4) end
message M { group group = 1; map map = 2; oneof oneof = 3; extend extend = 4; } => message(M) field(group group 1) field(map map 2) field(oneof oneof 3) field(extend extend 4) end
message M { optional group = 1; optional group group = 2; repeated map map = 3; } => message(M) field(optional group 1) field(group group 2) repeated(map map 3) end
message M { option x = 1; reserved x = 2; extensions x = 3; } => message(M) - - - end
# Numbers are decimal, octal or hexadecimal. => 1:1
message M { a b = 0; a c = 010; a d = 0x1F; a e = 0xaf; a f = 536870911; a g = 536870912; a h = 99999999999999999999; } => message(M) field(a b 0) field(a c 8) field(a d 31) field(a e 175) field(a f 536870911) field(a g 536870912) field(a h 536870912) end
message M { a b = 08; } => 1:1
message M { a b = 0x; } => 1:1
message M { a b = 0X1; } => 1:1
message M { a b = 1a; } => 1:1
message M { a b = -1; } => 1:1
# A refusal is at the first token of the part of the file. => 1:1
enum => 1:1
; message M { a b = 1 } => 1:3
message M { } ; message N { message O { a b = 1; } => 1:17
message M { message N { ; } => 1:1
message M { } } => 1:15
message a.b { } => 1:1
message M { a b.c = 1; } => 1:1
message 1 { } => 1:1
package a => 1:1
; syntax = proto3; => 1:3
import public weak "x"; => 1:1
option a = (]); => 1:1
option a = ); => 1:1
option a = { => 1:1
service S { ( } => 1:1
message M { optional oneof o { } } => 1:1
message M { optional map<a, b> c = 1; } => 1:1
message M { a b = 1 [c; d]; } => 1:1
edition = "2023"; => 1:1
message M { a b = 1; /* } => 1:22"##;

// The table comes from a call, so that no proof sees what stands in it.
fn rows() -> &'static str {
    ROWS
}

// The bytes of a token, as text.
fn word<'t>(text: &'t [u8], token: &Token) -> &'t str {
    str::from_utf8(lexeme(text, token)).unwrap_or("?")
}

fn write_member(out: &mut String, text: &[u8], member: &Member) {
    let _ = write!(out, "{} {})", word(text, &member.name), member.number);
}

fn write_field(out: &mut String, text: &[u8], field: &FieldLine) {
    let start = if field.repeated {
        " repeated("
    } else {
        " field("
    };
    let _ = write!(out, "{start}{} ", word(text, &field.word));
    write_member(out, text, &field.member);
}

fn write_named(out: &mut String, text: &[u8], kind: &str, name: &Token) {
    let _ = write!(out, " {kind}({})", word(text, name));
}

// A line after a space. Where memory runs out the text is another one than it should be.
fn write_line(out: &mut String, text: &[u8], line: &Line) {
    match line {
        Line::Passed => {
            let _ = write!(out, " -");
        }
        Line::Package(name) => write_named(out, text, "package", name),
        Line::Enum(name) => write_named(out, text, "enum", name),
        Line::Message(name) => write_named(out, text, "message", name),
        Line::End => {
            let _ = write!(out, " end");
        }
        Line::Field(field) => write_field(out, text, field),
        Line::Unread(member) => {
            let _ = write!(out, " unread(");
            write_member(out, text, member);
        }
    }
}

fn write_lines(out: &mut String, text: &[u8], lines: &[Line]) {
    for line in lines {
        write_line(out, text, line);
    }
}

// The lines of a file, which is no longer than it may be.
fn lines_in(alloc: Global, text: &[u8]) -> Result<Vec<Line>, FileError> {
    if text.len() > 1_048_576 {
        return Err(FileError::NoMemory);
    }
    lines(alloc, text)
}

// A file's lines, or where it is refused.
fn outcome(alloc: Global, text: &[u8]) -> String {
    let mut out = String::new(alloc);
    match lines_in(alloc, text) {
        Ok(lines) => write_lines(&mut out, text, lines.as_slice()),
        Err(FileError::Syntax(place)) => {
            let _ = write!(out, " {}:{}", place.line, place.column);
        }
        Err(FileError::NoMemory) => {
            let _ = write!(out, " no memory");
        }
    }
    out
}

// So many messages, each inside the one before.
fn nested(alloc: Global, depth: usize) -> Result<Vec<u8>, NoMemory> {
    let mut text = Vec::new(alloc);
    for _ in 0..depth {
        text.extend_from_slice(b"message A{")?;
    }
    for _ in 0..depth {
        text.push(b'}')?;
    }
    Ok(text)
}

// Whether so many messages inside one another are read.
fn nested_is_read(alloc: Global, depth: usize) -> bool {
    let Ok(text) = nested(alloc, depth) else {
        return false;
    };
    match lines_in(alloc, text.as_slice()) {
        Ok(lines) => lines.len() / 2 == depth,
        Err(_) => false,
    }
}

#[test]
fn files_are_read_line_by_line(rt: HostRuntime) {
    for row in rows().lines() {
        let (text, wanted) = row.split_once(" =>").unwrap_or((row, "no arrow"));
        let found = outcome(rt.alloc(), text.as_bytes());
        assert_eq!(rt; found.as_str(), wanted, "at {row}");
    }
    assert!(rt; nested_is_read(rt.alloc(), 95_000));
}
