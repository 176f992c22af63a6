//! The tokens of texts, or why a text has none.
use std::alloc::Global;
use std::fmt::Write;
use sz_lex::{LexError, Quoted, Tokens, decode, lex};
use sz_types::{NoMemory, Place};

// In each line a text stands before `=>`, and after it the kinds of its tokens, or why it has none.
const LINES: &str = r##"# Words and names. =>
all array bool break bytes continue => Word(All) Word(Array) Word(Bool) Word(Break) Word(Bytes) Word(Continue)
def do each else emit false for function => Word(Def) Word(Do) Word(Each) Word(Else) Word(Emit) Word(False) Word(For) Word(Function)
if int map of proto return some static => Word(If) Word(Int) Word(Map) Word(Of) Word(Proto) Word(Return) Word(Some) Word(Static)
string table time true type weight when while => Word(String) Word(Table) Word(Time) Word(True) Word(Type) Word(Weight) Word(When) Word(While)
_ a Z9 B b_1 iff If in whilea int_ __all__ => Name Name Name Name Name Name Name Name Name Name Name
x B => Name Name
B'a' => Name Character('a')
# Numbers. =>
0 9 10 => Number(0) Number(9) Number(10)
9223372036854775807 => Number(9223372036854775807)
0x0 0x1fA => Number(0) Number(506)
0x00000000000000000000000a => Number(10)
0x7fffffffffffffff => Number(9223372036854775807)
0x8000000000000000 => Number(-9223372036854775808)
0xffffffffffffffff 0xFFFFFFFFFFFFFFFE => Number(-1) Number(-2)
x: int = 07; => bad literal 1:10
00 => bad literal 1:1
9223372036854775808 => bad literal 1:1
18446744073709551616 => bad literal 1:1
-9223372036854775808 => bad literal 1:2
0x => bad literal 1:1
0X1 => bad literal 1:1
0x1g => bad literal 1:1
0x10000000000000000 => bad literal 1:1
1a => bad literal 1:1
1_000 => bad literal 1:1
# Characters. =>
'a' '"' ' ' => Character('a') Character('"') Character(' ')
'é' '€' '😀' => Character('é') Character('€') Character('😀')
'\n' '\t' '\r' => Character('\n') Character('\t') Character('\r')
'\\' '\"' '\'' => Character('\\') Character('"') Character('\'')
'\x41' '\x7E' '\u20aC' => Character('A') Character('~') Character('€')
'\ud7ff' '\ue000' => Character('\u{d7ff}') Character('\u{e000}')
'a'b' => bad literal 1:5
'' => bad literal 1:1
' => bad literal 1:1
'a => bad literal 1:1
'ab' => bad literal 1:1
'éé' => bad literal 1:1
'\' => bad literal 1:1
'\a' => bad literal 1:1
'\x80' => bad literal 1:1
'\x7' => bad literal 1:1
'\u00e' => bad literal 1:1
'\ud800' => bad literal 1:1
'\udfff' => bad literal 1:1
'\U0041' => bad literal 1:1
# Strings and bytes. =>
"" B"" "it's # no comment" => Str Bytes Str
"\n\t\r\\\"\'" B"\x00\xff\u00ff" AB"a" => Str Bytes Name Str
"\x80" => bad literal 1:1
"\x4" => bad literal 1:1
"\ud800" => bad literal 1:1
"\a" => bad literal 1:1
"\" => bad literal 1:1
"a => bad literal 1:1
B" => bad literal 1:1
x B"\x4g" => bad literal 1:3
B"\udfff" => bad literal 1:1
# The longest sign is taken. =>
<<- <-< <=<- => Sign(ShiftLeft) Sign(Minus) Sign(Arrow) Sign(Less) Sign(LessEqual) Sign(Arrow)
>=> >>>= => Sign(GreaterEqual) Sign(Greater) Sign(ShiftRight) Sign(GreaterEqual)
=== !=! => Sign(EqualEqual) Sign(Assign) Sign(NotEqual) Sign(Not)
&&& ||| => Sign(AndAnd) Sign(And) Sign(OrOr) Sign(Or)
+++ --- :=: => Sign(Increment) Sign(Plus) Sign(Decrement) Sign(Minus) Sign(Define) Sign(Colon)
*/%^~ => Sign(Star) Sign(Slash) Sign(Percent) Sign(Caret) Sign(Tilde)
()[]{} => Sign(OpenParen) Sign(CloseParen) Sign(OpenBracket) Sign(CloseBracket) Sign(OpenBrace) Sign(CloseBrace)
,;.@ => Sign(Comma) Sign(Semicolon) Sign(Dot) Sign(At)
a ? b => bad character 1:3
a $ => bad character 1:3
a é => bad character 1:3"##;

enum Row {
    // The kinds of the tokens of a text that no line can have, or why it has none.
    Kinds(&'static [u8], &'static str),
    // What a literal stands for, or that it is none.
    Decoded(Quoted, &'static str, Option<&'static [u8]>),
    // The places of a text's tokens with their lengths in bytes.
    Places(&'static str, &'static str),
    // A text of as many bytes as there may be.
    Longest,
}

const ROWS: &[Row] = &[
    Row::Kinds(b"", ""),
    Row::Kinds(b" # no newline", ""),
    Row::Kinds(b"# a\rb\nc", " Name"),
    Row::Kinds(b"'\n'", " bad literal 1:1"),
    Row::Kinds(b"\"a\n\"", " bad literal 1:1"),
    Row::Kinds(b"\"a\tb\rc\"", " Str"),
    Row::Kinds(b"\n '\xc3\xa9' \"\xc3\xa9", " bad literal 2:7"),
    Row::Kinds(b"\x61\xc3\x28", " not UTF-8 1:2"),
    Row::Kinds(b"07 ?\n \xff", " not UTF-8 2:2"),
    Row::Kinds(b"a\xed\xa0\x80", " not UTF-8 1:2"),
    Row::Kinds(b"\xc0\x80", " not UTF-8 1:1"),
    Row::Kinds(b"\n\xf4\x90\x80\x80", " not UTF-8 2:1"),
    // The end cuts a character off.
    Row::Kinds(b"\"\xc3\xa9\xf0\x9f\x98", " not UTF-8 1:4"),
    Row::Decoded(
        Quoted::Str,
        r#""a\n\t\r\\\"\'\x41\u00e9é\u20ac""#,
        Some(b"a\n\t\r\\\"'A\xc3\xa9\xc3\xa9\xe2\x82\xac"),
    ),
    Row::Decoded(
        Quoted::Str,
        r#""\ud7ff\ue000""#,
        Some(b"\xed\x9f\xbf\xee\x80\x80"),
    ),
    Row::Decoded(
        Quoted::Bytes,
        r#"B"\x00\xff\x80\u00ffé""#,
        Some(b"\x00\xff\x80\xc3\xbf\xc3\xa9"),
    ),
    Row::Decoded(Quoted::Str, "\"\"", Some(b"")),
    Row::Decoded(Quoted::Str, "\"a\" ", None),
    Row::Decoded(Quoted::Bytes, "\"a\"", None),
    Row::Places(
        "\tx: int; # é\n\r\n  \"é€\" AB\"b\" # end\n'😀'\tB\"é\"+1",
        " 1:2+1 1:3+1 1:5+3 1:8+1 3:3+7 3:11+2 3:13+3 4:1+6 4:8+5 4:13+1 4:14+1",
    ),
    Row::Longest,
];

// The tables come from calls, so that no proof sees what stands in them.
fn table() -> &'static str {
    LINES
}

fn rows() -> &'static [Row] {
    ROWS
}

// The kinds of tokens, each after a space. Where memory runs out the text is another one than it should be.
fn kinds(out: &mut String, tokens: &Tokens) {
    for token in tokens.as_slice() {
        let _ = write!(out, " {:?}", token.kind);
    }
}

// The places of tokens with their lengths in bytes, each after a space.
fn places(out: &mut String, tokens: &Tokens) {
    for token in tokens.as_slice() {
        let (place, len) = (token.place, tokens.lexeme(token).len());
        let _ = write!(out, " {}:{}+{len}", place.line, place.column);
    }
}

fn refusal(out: &mut String, reason: &str, place: Place) {
    let _ = write!(out, " {reason} {}:{}", place.line, place.column);
}

// The tokens of a text, which is no longer than it may be.
fn tokens(alloc: Global, text: &[u8]) -> Result<Tokens, LexError> {
    if text.len() > 1_048_576 {
        return Err(LexError::NoMemory);
    }
    lex(alloc, text)
}

// The kinds of a text's tokens, or their places, or why the text has none.
fn outcome(alloc: Global, text: &[u8], is_of_kinds: bool) -> String {
    let mut out = String::new(alloc);
    match tokens(alloc, text) {
        Ok(tokens) if is_of_kinds => kinds(&mut out, &tokens),
        Ok(tokens) => places(&mut out, &tokens),
        Err(LexError::BadChar(place)) => refusal(&mut out, "bad character", place),
        Err(LexError::BadLiteral(place)) => refusal(&mut out, "bad literal", place),
        Err(LexError::NotUtf8(place)) => refusal(&mut out, "not UTF-8", place),
        Err(LexError::NoMemory) => refusal(&mut out, "no memory", Place { line: 0, column: 0 }),
    }
    out
}

// Whether these kinds or places come of a text.
fn comes_of(alloc: Global, text: &[u8], is_of_kinds: bool, wanted: &str) -> bool {
    let found = outcome(alloc, text, is_of_kinds);
    found.as_str() == wanted
}

// Whether what stands after the arrow comes of what stands in front of it.
fn line_holds(alloc: Global, line: &str) -> bool {
    match line.split_once(" =>") {
        Some((text, wanted)) => comes_of(alloc, text.as_bytes(), true, wanted),
        None => false,
    }
}

// Whether this is what a literal stands for.
fn is_decoded(alloc: Global, quoted: Quoted, literal: &str, wanted: Option<&[u8]>) -> bool {
    let found = decode(alloc, quoted, literal.as_bytes());
    match (&found, wanted) {
        (Ok(Some(found)), Some(wanted)) => found.as_slice() == wanted,
        (Ok(None), None) => true,
        _ => false,
    }
}

// As many bytes as a text may have.
fn longest(alloc: Global) -> Result<Vec<u8>, NoMemory> {
    let mut text = Vec::new(alloc);
    for _ in 0..65_536 {
        text.extend_from_slice(b"total <- 0x1f; \n")?;
    }
    Ok(text)
}

// How many bytes and tokens there are, and the place of the last token.
fn counts(tokens: &Tokens) -> (usize, usize, u32, u32) {
    let (bytes, count) = (tokens.text().len(), tokens.as_slice().len());
    match tokens.as_slice().last() {
        Some(last) => (bytes, count, last.place.line, last.place.column),
        None => (bytes, count, 0, 0),
    }
}

// Whether the longest text has its tokens.
fn longest_is_read(alloc: Global) -> Result<bool, NoMemory> {
    let text = longest(alloc)?;
    let Ok(tokens) = tokens(alloc, &text) else {
        return Ok(false);
    };
    Ok(counts(&tokens) == (1_048_576, 262_144, 65_536, 14))
}

fn holds(alloc: Global, row: &Row) -> bool {
    match row {
        Row::Kinds(text, wanted) => comes_of(alloc, text, true, wanted),
        Row::Decoded(quoted, literal, wanted) => is_decoded(alloc, *quoted, literal, *wanted),
        Row::Places(text, wanted) => comes_of(alloc, text.as_bytes(), false, wanted),
        Row::Longest => matches!(longest_is_read(alloc), Ok(true)),
    }
}

// What one byte alone is.
fn class_of(byte: u8) -> &'static str {
    match byte {
        b' ' | b'\t' | b'\n' | b'\r' | b'#' => "",
        b'A'..=b'Z' | b'a'..=b'z' | b'_' => " Name",
        b'0'..=b'9' => " Number",
        b'"' | b'\'' => " bad literal 1:1",
        b'<' | b'>' | b'=' | b'!' | b'&' | b'|' | b'+' | b'-' | b':' | b'*' | b'/' | b'%' =>
            " Sign",
        b'^' | b'~' | b'(' | b')' | b'[' | b']' | b'{' | b'}' | b',' | b';' | b'.' | b'@' =>
            " Sign",
        128.. => " not UTF-8 1:1",
        _ => " bad character 1:1",
    }
}

// Whether a byte alone is what it should be, and where it should be nothing, nothing.
fn byte_holds(alloc: Global, byte: u8) -> bool {
    let found = outcome(alloc, &[byte], true);
    let class = class_of(byte);
    found.as_str().starts_with(class) && (class != "" || found.is_empty())
}

#[test]
fn each_text_has_its_tokens_or_its_refusal(rt: HostRuntime) {
    for line in table().lines() {
        assert!(rt; line_holds(rt.alloc(), line), "at {line}");
    }
    for (number, row) in rows().iter().enumerate() {
        assert!(rt; holds(rt.alloc(), row), "row {number}");
    }
    for byte in 0..=255u8 {
        assert!(rt; byte_holds(rt.alloc(), byte), "at {byte}");
    }
}
