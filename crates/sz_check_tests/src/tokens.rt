//! The tokens of files, or where a file is refused.
use std::alloc::Global;
use std::fmt::Write;
use sz_protofile_lex::{Kind, LexError, Token, lex, lexeme};

// A text, and its tokens: w, q or s for a word, a string or a sign, the place and the number of bytes.
const ROWS: &[(&[u8], &str)] = &[
    (b"", ""),
    (b" \t\x0b\x0c\r\n", ""),
    // Words are runs of letters, digits, underscores and dots.
    (b"message a_B9", " w1:1+7 w1:9+4"),
    (b".a.b 1.2 0x1F _", " w1:1+4 w1:6+3 w1:10+4 w1:15+1"),
    (b"a=1;", " w1:1+1 s1:2+1 w1:3+1 s1:4+1"),
    (
        b"{}[]()<>,;=-+!@~",
        " s1:1+1 s1:2+1 s1:3+1 s1:4+1 s1:5+1 s1:6+1 s1:7+1 s1:8+1 s1:9+1 s1:10+1 s1:11+1 s1:12+1 s1:13+1 s1:14+1 s1:15+1 s1:16+1",
    ),
    // Strings end at their own quote, and a backslash takes the next byte with it.
    (b"\"a'b\" 'a\"b'", " q1:1+5 q1:7+5"),
    (
        b"\"\\\"\" '\\'' \"\\\\\" x",
        " q1:1+4 q1:6+4 q1:11+4 w1:16+1",
    ),
    (b"\"/* // */\" '' \"\xff\"", " q1:1+10 q1:12+2 q1:15+3"),
    (b"\"a", " refused 1:1"),
    (b"a 'b\nc'", " refused 1:3"),
    (b"a \"b\\\nc\"", " refused 1:3"),
    (b"\"\\\"", " refused 1:1"),
    // Comments end with the line, or at the next star and slash after them.
    (b"a//b\nc", " w1:1+1 w2:1+1"),
    (b"a // b \"", " w1:1+1"),
    (b"a/**/b/* * / \n\xff'*/c", " w1:1+1 w1:6+1 w2:5+1"),
    (b"a / b", " w1:1+1 s1:3+1 w1:5+1"),
    (b"// /*\na */", " w2:1+1 s2:3+1 s2:4+1"),
    (b"a\n /*/", " refused 2:2"),
    (b"/* a **", " refused 1:1"),
    (b"/***/a", " w1:6+1"),
    (b"/", " s1:1+1"),
    // Other bytes begin no token.
    (b"a \x00", " refused 1:3"),
    (b"\x7f", " refused 1:1"),
    (b"a\xc3\xa9", " refused 1:2"),
    (b"\xff \"", " refused 1:1"),
];

// The table comes from a call, so that no proof sees what stands in it.
fn rows() -> &'static [(&'static [u8], &'static str)] {
    ROWS
}

fn letter(kind: Kind) -> char {
    match kind {
        Kind::Word => 'w',
        Kind::Quoted => 'q',
        Kind::Sign(_) => 's',
    }
}

// The tokens, each after a space. Where memory runs out the text is another one than it should be.
fn write_tokens(out: &mut String, text: &[u8], tokens: &[Token]) {
    for token in tokens {
        let (place, len) = (token.place, lexeme(text, token).len());
        let _ = write!(
            out,
            " {}{}:{}+{len}",
            letter(token.kind),
            place.line,
            place.column
        );
    }
}

// The tokens of a text, which is no longer than it may be.
fn tokens(alloc: Global, text: &[u8]) -> Result<Vec<Token>, LexError> {
    if text.len() > 1_048_576 {
        return Err(LexError::NoMemory);
    }
    lex(alloc, text)
}

// A text's tokens, or where it is refused.
fn outcome(alloc: Global, text: &[u8]) -> String {
    let mut out = String::new(alloc);
    match tokens(alloc, text) {
        Ok(tokens) => write_tokens(&mut out, text, tokens.as_slice()),
        Err(LexError::Refused(place)) => {
            let _ = write!(out, " refused {}:{}", place.line, place.column);
        }
        Err(LexError::NoMemory) => {
            let _ = write!(out, " no memory");
        }
    }
    out
}

fn row_holds(alloc: Global, text: &[u8], wanted: &str) -> bool {
    let found = outcome(alloc, text);
    found.as_str() == wanted
}

#[test]
fn files_are_cut_into_tokens(rt: HostRuntime) {
    for (text, wanted) in rows() {
        let holds = row_holds(rt.alloc(), text, wanted);
        assert!(rt; holds, "{wanted}");
    }
}
