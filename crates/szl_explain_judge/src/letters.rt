//! What is said of a text that has no tokens: of a byte, of a literal, or that it isn't UTF-8.
use sz_types::Place;
use szl_explain_source::{Page, part, place_of, text_from};

/// Characters that look like signs of a program, by their bytes, and what stands for them.
const LOOKALIKES: &[(&[u8], &str)] = &[
    (b"\xe2\x80\x9c", "`\"`"),
    (b"\xe2\x80\x9d", "`\"`"),
    (b"\xe2\x80\x98", "`'`"),
    (b"\xe2\x80\x99", "`'`"),
    (b"\xe2\x80\x93", "`-`"),
    (b"\xe2\x80\x94", "`-`"),
    (b"\xe2\x88\x92", "`-`"),
    (b"\xc3\x97", "`*`"),
    (b"\xe2\x89\xa4", "`<=`"),
    (b"\xe2\x89\xa5", "`>=`"),
    (b"\xe2\x89\xa0", "`!=`"),
    (b"\xc2\xa0", "a blank"),
    (
        b"\xef\xbb\xbf",
        "nothing, as this mark is none of a program",
    ),
];

fn lookalikes() -> &'static [(&'static [u8], &'static str)] {
    LOOKALIKES
}

/// Shows the byte that begins no token, and says what it is.
pub fn say_character(page: &mut Page, text: &[u8], place: Place) {
    let rest = text_from(text, place);
    let character = part(rest, 0, character_len(rest));
    page.line(text, place, character.len());
    page.fill("No token begins with %", &[character]);
    match rest {
        [b'?', ..] => page.say(": there is no `a ? b : c`. Hint: an `if` does it.\n"),
        [0..=127, ..] => page.say(": it stands in strings and comments alone.\n"),
        _ => {
            page.say(": outside of strings and comments a program has ASCII alone.\n");
            say_lookalike(page, character);
        }
    }
}

/// How many bytes the character at the front of a text has, as far as the text goes.
fn character_len(text: &[u8]) -> usize {
    let mut count: usize = 0;
    for byte in text {
        if count > 0 && byte / 64 != 2 {
            return count;
        }
        count = count.saturating_add(1);
    }
    count
}

/// Says what stands for a character that looks like a sign.
fn say_lookalike(page: &mut Page, character: &[u8]) {
    for (other, own) in lookalikes() {
        if *other == character {
            page.say("Hint: in its place write ");
            page.say(own);
            page.say(".\n");
        }
    }
}

/// Shows the literal that begins at a place, and says what is wrong with it.
pub fn say_literal(page: &mut Page, text: &[u8], place: Place) {
    let rest = text_from(text, place);
    if let [b'"', ..] | [b'B', b'"', ..] = rest {
        say_string(page, text, place);
        return;
    }
    page.line(text, place, 1);
    match rest {
        [b'0', b'x' | b'X', ..] => page.say(
            "A number to the base 16 has one or more digits after `0x` (a small `x`), is below 2^64, and has no letter after them.\n",
        ),
        [b'0', b'0'..=b'9', ..] => page.say(
            "A number has no 0 in front, unless it is 0. Hint: leave it out.\n",
        ),
        [b'0'..=b'9', ..] => say_number(page, rest),
        _ => page.say(
            "Between single quotes stands one character, or an escape, and it is a number. Hint: a string stands between double quotes.\n",
        ),
    }
}

/// Says what is wrong with a decimal number: a letter follows it, or it is too large.
fn say_number(page: &mut Page, rest: &[u8]) {
    for byte in rest {
        if byte.is_ascii_alphabetic() || *byte == b'_' {
            page.fill(
                "A number has digits alone, and % follows them.\n",
                &[&[*byte]],
            );
            return;
        }
        if !byte.is_ascii_digit() {
            break;
        }
    }
    page.say("A number is at most 9223372036854775807.\n");
}

/// Shows what is wrong with the string or bytes at a place: an escape that there isn't, or that it doesn't end.
fn say_string(page: &mut Page, text: &[u8], place: Place) {
    let rest = text_from(text, place);
    let Some(at) = bad_escape(rest) else {
        page.line(text, place, rest.len());
        page.say("It ends with `\"` in the line that it begins in.\n");
        return;
    };
    let start = text.len().saturating_sub(rest.len());
    page.line(text, place_of(text, start.saturating_add(at)), 2);
    page.fill(
        "No escape begins with %, or it goes on wrongly. Escapes are `\\n`, `\\t`, `\\r`, `\\\\`, `\\\"`, `\\'`, `\\x` with two digits to the base 16, in a string up to `7f`, and `\\u` with four.\n",
        &[part(rest, at, at.saturating_add(2))],
    );
}

/// The offset of the first backslash in a string or bytes that begins no escape.
fn bad_escape(literal: &[u8]) -> Option<usize> {
    let is_string = part(literal, 0, 1) == b"\"".as_slice();
    let mut is_escaped = false;
    for (at, byte) in literal.iter().enumerate() {
        if is_escaped {
            if !is_escape(part(literal, at, at.saturating_add(5)), is_string) {
                return Some(at.saturating_sub(1));
            }
            is_escaped = false;
        } else if *byte == b'\n' {
            return None;
        } else {
            is_escaped = *byte == b'\\';
        }
    }
    None
}

/// Whether an escape stands at the front of what follows a backslash.
fn is_escape(text: &[u8], is_string: bool) -> bool {
    match text {
        [b'n' | b't' | b'r' | b'\\' | b'"' | b'\'', ..] => true,
        [b'x', first, second, ..] => {
            are_digits(&[*first, *second]) && !(is_string && *first > b'7')
        }
        [b'u', first, second, third, fourth] => {
            let is_half = (*first == b'd' || *first == b'D') && *second > b'7';
            are_digits(&[*first, *second, *third, *fourth]) && !is_half
        }
        _ => false,
    }
}

/// Whether all of these are digits to the base 16.
fn are_digits(bytes: &[u8]) -> bool {
    bytes.iter().all(|byte| byte.is_ascii_hexdigit())
}

/// Shows which byte isn't UTF-8.
pub fn say_not_utf8(page: &mut Page, text: &[u8], place: Place) {
    page.line(text, place, 1);
    if let [byte, ..] = text_from(text, place) {
        page.say("The text is UTF-8 up to the byte ");
        page.hexadecimal(*byte);
        page.say(". Hint: `iconv -f latin1 -t utf-8` makes UTF-8 of Latin-1.\n");
    }
}
