//! What is said of declarations of tables and of fields of messages.
use crate::fault::Fault;
use sz_lex::Kind;
use szl_explain_source::{Page, Source};

/// What stands for things that are left out.
const LEFT_OUT: &[(&str, &str)] = &[
    (
        "float",
        "whole numbers serve for most of it, as thousandths",
    ),
    (
        "match",
        "`strfind` finds a text in another; there are no patterns",
    ),
    (
        "top",
        "a `sum` by key counts all keys, and `maximum` takes the largest of its rows in a second run; the cookbook has such a pair",
    ),
    (
        "quantile",
        "a `sum` by ranges counts the numbers in each; the cookbook has percentiles by such ranges",
    ),
    (
        "unique",
        "the rows of a `set` are the distinct values, up to its limit",
    ),
    ("text", "a `collection` prints all that is emitted to it"),
];

fn left_outs() -> &'static [(&'static str, &'static str)] {
    LEFT_OUT
}

/// The most that the limit of a kind of table may be, where the kind has a limit.
fn most_of(kind: &[u8]) -> Option<u64> {
    if kind == b"set".as_slice() {
        Some(1_000_000)
    } else if kind == b"maximum".as_slice() || kind == b"minimum".as_slice() {
        Some(10_000)
    } else {
        None
    }
}

/// The number that a token is, if it is one.
fn number_at(source: Source<'_>, index: usize) -> Option<i64> {
    match source.kind(index) {
        Some(Kind::Number(number)) => Some(number),
        _ => None,
    }
}

/// Whether a token has one of these spellings.
fn is_spelled(source: Source<'_>, index: usize, words: &[&str]) -> bool {
    words
        .iter()
        .any(|word| source.spelled(index) == word.as_bytes())
}

impl<'t> Fault<'t> {
    /// Says what of a table's declaration is at fault, at whose kind this stands: its limit, its weight, or a type.
    pub fn say_table(&self, page: &mut Page) {
        let source = self.source;
        let kind = self.token;
        let has_limit = source.is(kind.saturating_add(1), "(");
        let limit = number_at(source, kind.saturating_add(2)).unwrap_or(0);
        page.fill("A table of kind % ", &[self.name()]);
        match most_of(self.name()) {
            Some(most) if !has_limit || limit < 1 || limit as u64 > most => {
                page.say(if has_limit {
                    "has a limit out of its bounds: write a number from 1 to "
                } else {
                    "has no limit here: write a number from 1 to "
                });
                page.number(most);
                page.say(" between parentheses after the kind.\n");
            }
            None if has_limit => page.say(
                "has no limit: leave out the number between parentheses.\n",
            ),
            _ => page.say(self.weight_or_type()),
        }
    }

    /// What is wrong with a table whose limit is right.
    fn weight_or_type(&self) -> &'static str {
        let source = self.source;
        let takes_weight = is_spelled(source, self.token, &["maximum", "minimum"]);
        let has_weight = source.next(self.token, "weight") < source.next(self.token, ";");
        match (takes_weight, has_weight) {
            (true, true) => {
                "has a weight of type `int` or `time`, and this one's has another type.\n"
            }
            (true, false) => "has a weight: `weight int` or `weight time` stands at the end.\n",
            (false, true) => "has no weight: leave out `weight` and what follows.\n",
            (false, false) => {
                "is of `int`, or of a tuple or a message whose parts all are, and this one is of another type.\n"
            }
        }
    }

    /// Says what is wrong with the field of a message or of a tuple whose name this is.
    pub fn say_field(&self, page: &mut Page) {
        let source = self.source;
        let brace = source.open_bracket(0, self.token).unwrap_or(0);
        let at = sign_of_number(source, self.token);
        if self.has_name_before(brace) {
            page.say("Another field before it has this name.\n");
        } else if let Some(number) = number_at(source, at.saturating_add(1)) {
            if number < 1 || number > 536_870_911 {
                page.say("A field's number is from 1 to 536870911.\n");
            } else if self.has_number_before(brace, number) {
                page.say("Another field before it has the number ");
                page.number(number as u64);
                page.say(".\n");
            } else {
                say_encoding(page, source, at.saturating_add(2));
            }
        }
    }

    /// Whether a field between a brace and this one has its name.
    fn has_name_before(&self, brace: usize) -> bool {
        let source = self.source;
        let mut depth: usize = 0;
        for index in brace..self.token {
            depth = source.depth_after(index, depth);
            let is_name = depth == 1 && source.is(index.saturating_add(1), ":");
            if is_name && source.spelled(index) == self.name() {
                return true;
            }
        }
        false
    }

    /// Whether a field between a brace and this one has this number.
    fn has_number_before(&self, brace: usize, number: i64) -> bool {
        let source = self.source;
        let mut depth: usize = 0;
        for index in brace..self.token {
            depth = source.depth_after(index, depth);
            let is_sign = depth == 1 && source.is(index, "@");
            if is_sign && number_at(source, index.saturating_add(1)) == Some(number) {
                return true;
            }
        }
        false
    }
}

/// Says what can stand for what is left out.
pub fn say_left_out(page: &mut Page, name: &[u8]) {
    page.fill("Sawzall elsewhere has %, and szl has not.\n", &[name]);
    for (left_out, hint) in left_outs() {
        if left_out.as_bytes() == name {
            page.say("Hint: ");
            page.say(hint);
            page.say(".\n");
        }
    }
}

/// The sign before the number of a field, or the number of tokens.
fn sign_of_number(source: Source<'_>, field: usize) -> usize {
    let mut depth: usize = 0;
    for index in field..source.tokens.len() {
        depth = source.depth_after(index, depth);
        if depth == 0 && source.is(index, "@") {
            return index;
        }
    }
    source.tokens.len()
}

/// Says what encodings a field may have, and what types, where a word may stand at a token.
fn say_encoding(page: &mut Page, source: Source<'_>, word: usize) {
    let encoding = source.spelled(word);
    if !source.is(word, "name") {
        page.say(
            "A message has no field of this type: no map, no tuple, and no array of arrays.\n",
        );
    } else if is_spelled(source, word, &["zigzag", "fixed32", "fixed64"]) {
        page.fill(
            "% stands at fields of type `int` or `time`, or of an array of one of them, and this one has another type.\n",
            &[encoding],
        );
    } else {
        page.fill(
            "% is none of the encodings `zigzag`, `fixed32` and `fixed64`.\n",
            &[encoding],
        );
    }
}
