//! The lines of an explanation as they are written.
use crate::source::{line_of, part};
use itoa::Buffer;
use std::alloc::{AllocError, Global};
use sz_types::Place;

/// A text that grows. Where memory runs out it notes that, and has no use any more.
#[derive(Drop)]
pub struct Page {
    bytes: Vec<u8>,
    is_whole: bool,
}

/// The most bytes of a line that is shown.
const MOST_SHOWN: usize = 400;

/// About the most bytes of a part of the program that is quoted.
const MOST_QUOTED: usize = 80;

impl Page {
    /// No lines.
    pub fn new(alloc: Global) -> Page {
        Page {
            bytes: Vec::new(alloc),
            is_whole: true,
        }
    }

    /// The lines, if there was memory for all of them.
    pub fn into_bytes(self) -> Result<Vec<u8>, AllocError> {
        let Self { bytes, is_whole } = self;
        if is_whole { Ok(bytes) } else { Err(AllocError) }
    }

    fn put(&mut self, bytes: &[u8]) {
        if self.bytes.extend_from_slice(bytes).is_err() {
            self.is_whole = false;
        }
    }

    /// Appends words.
    pub fn say(&mut self, words: &str) {
        self.put(words.as_bytes());
    }

    /// Appends words in which each `%` stands for a part of the program, which is quoted.
    pub fn fill(&mut self, words: &str, parts: &[&[u8]]) {
        for (at, piece) in words.split('%').enumerate() {
            if at > 0
                && let Some(part) = parts.get(at - 1)
            {
                self.quote(part);
            }
            self.say(piece);
        }
    }

    /// Appends a number.
    pub fn number(&mut self, number: u64) {
        let mut digits = Buffer::new();
        self.say(digits.format(number));
    }

    /// Appends a place, its line and its column.
    pub fn place(&mut self, place: Place) {
        self.number(place.line as u64);
        self.say(":");
        self.number(place.column as u64);
    }

    /// Appends the byte of a part of the program that has this offset: the end of a line as a blank, and any other character that controls a
    /// terminal as a question mark, also one from U+0080 to U+009F, which has two bytes.
    fn shown(&mut self, bytes: &[u8], at: usize) {
        match part(bytes, at, at.saturating_add(2)) {
            [b'\n', ..] => self.say(" "),
            [0..=8 | 10..=31 | 127, ..] | [0xc2, 0x80..=0x9f] => self.say("?"),
            [0x80..=0x9f, ..] if part(bytes, at.saturating_sub(1), at) == b"\xc2".as_slice() => {}
            [byte, ..] => self.put(&[*byte]),
            [] => {}
        }
    }

    /// Appends a part of the program between quotes; of a long one the first characters.
    pub fn quote(&mut self, bytes: &[u8]) {
        self.say("`");
        for (at, byte) in bytes.iter().enumerate() {
            if at >= MOST_QUOTED && begins_character(*byte) {
                self.say(" ..`");
                return;
            }
            self.shown(bytes, at);
        }
        self.say("`");
    }

    /// Appends what stands before one of several items, which is counted from 0: nothing, a comma, or `or`.
    pub fn before_item(&mut self, item: usize, count: usize) {
        if item > 0 {
            self.say(if item.saturating_add(1) < count {
                ", "
            } else {
                " or "
            });
        }
    }

    /// Appends names between quotes, with `or` before the last.
    pub fn names(&mut self, names: &[&[u8]]) {
        for (item, name) in names.iter().enumerate() {
            self.before_item(item, names.len());
            self.quote(name);
        }
    }

    /// Appends a number and what it counts: the word for one, or the word for more or none.
    pub fn count(&mut self, number: u64, one: &str, more: &str) {
        self.number(number);
        self.say(" ");
        self.say(if number == 1 { one } else { more });
    }

    /// Appends a byte as two digits to the base 16.
    pub fn hexadecimal(&mut self, byte: u8) {
        self.put(&[digit(byte / 16), digit(byte % 16)]);
    }

    /// Appends the line of a place with its number, and below it a mark under so many bytes from the place on, as far as the line has them. A
    /// line that is long isn't shown.
    pub fn line(&mut self, text: &[u8], place: Place, width: usize) {
        let line = line_of(text, place.line);
        if line.len() > MOST_SHOWN {
            return;
        }
        self.number(place.line as u64);
        self.say(" | ");
        for at in 0..line.len() {
            self.shown(line, at);
        }
        self.say("\n");
        let mut digits = Buffer::new();
        for _ in digits.format(place.line).bytes() {
            self.say(" ");
        }
        self.say(" | ");
        self.mark(line, place.column, width);
    }

    /// The mark under a column of a line, which is counted in bytes, and under as many bytes as are asked for.
    fn mark(&mut self, line: &[u8], column: u32, width: usize) {
        let start = (column as usize).saturating_sub(1);
        for byte in part(line, 0, start) {
            self.below(*byte, " ");
        }
        self.say("^");
        for byte in part(line, start.saturating_add(1), start.saturating_add(width)) {
            self.below(*byte, "^");
        }
        self.say("\n");
    }

    /// What stands below a byte of a line: a tab below a tab, and nothing below a byte by which a character goes on.
    fn below(&mut self, byte: u8, sign: &str) {
        if byte == b'\t' {
            self.say("\t");
        } else if begins_character(byte) {
            self.say(sign);
        }
    }
}

/// Whether the byte is the first of a character.
fn begins_character(byte: u8) -> bool {
    byte / 64 != 2
}

/// A digit to the base 16.
fn digit(value: u8) -> u8 {
    if value < 10 {
        b'0' + value
    } else {
        b'a'.saturating_add(value.saturating_sub(10))
    }
}
