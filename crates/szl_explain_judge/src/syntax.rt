//! What is said of a statement that isn't one: the first token that can't stand where it does, and what could.
use crate::hints::hint;
use crate::stuck::Stuck;
use std::alloc::{AllocError, Global};
use sz_lex::Kind;
use sz_types::Place;
use szl_explain_source::{Expected, Front, Page, Source, Walk, place_of, tokens_of};

/// Shows where the statement at a place can't be read further, and says what was expected there.
pub fn say_syntax(
    alloc: Global,
    page: &mut Page,
    source: Source<'_>,
    place: Place,
) -> Result<(), AllocError> {
    let from = source.token_at(place);
    let mut walk = Walk::over(alloc, "Statement")?;
    let at = walk.read_all(source.tokens, from)?;
    let front = Front {
        tokens: source.front(at),
        from,
    };
    if front.is_whole(alloc)? {
        page.line(source.text, place, source.spelled(from).len());
        page.say(
            "Its tokens stand in their places, but it has more than 256 parts in one another.\n",
        );
        return Ok(());
    }
    let expected = front.expected(alloc)?;
    let stuck = Stuck {
        source,
        from,
        at,
        expected: &expected,
    };
    stuck.say(page);
    Ok(())
}

/// Says what can stand at a place, with `or` before the last.
fn say_expected(page: &mut Page, expected: &[Expected]) {
    for (item, it) in expected.iter().enumerate() {
        page.before_item(item, expected.len());
        if it.name.is_empty() {
            page.quote(it.tokens.as_bytes());
        } else {
            page.say(it.name);
        }
    }
}

impl<'t, 'e> Stuck<'t, 'e> {
    /// Shows the token, and says what was expected in its place, and what was often meant.
    fn say(&self, page: &mut Page) {
        self.show(page);
        page.say("Expected ");
        say_expected(page, self.expected);
        if self.is_end() {
            page.say(", found the end of the program");
        } else {
            page.fill(", found % at ", &[self.source.spelled(self.at)]);
            page.place(self.source.place(self.at));
        }
        page.say(".\n");
        self.say_meant(page);
    }

    /// Shows the line of the token, below that of the statement where this is another. Where a sign is missing at the end of the line before,
    /// that end is shown.
    fn show(&self, page: &mut Page) {
        let source = self.source;
        let is_missing = self.is_line_end(self.last()) && self.missing().is_some();
        let (place, width) = if self.at > self.from && (self.is_end() || is_missing) {
            (place_of(source.text, source.end(self.last())), 1)
        } else {
            (source.place(self.at), source.spelled(self.at).len())
        };
        let first = source.place(self.from);
        if first.line < place.line {
            page.line(source.text, first, source.spelled(self.from).len());
        }
        page.line(source.text, place, width);
    }

    /// Says what was often meant, or what is left open.
    fn say_meant(&self, page: &mut Page) {
        let source = self.source;
        if self.begins_with_reserved() {
            say_reserved(page, source.spelled(self.from));
        } else if let Some(hint) = hint(self) {
            page.say("Hint: ");
            page.say(hint);
            page.say(".\n");
        } else if let Some(open) = self.unclosed() {
            page.fill("% at ", &[source.spelled(open)]);
            page.place(source.place(open));
            page.say(" isn't closed.\n");
        } else if let Some(missing) = self.missing() {
            page.fill("Hint: is a % missing", &[missing.as_bytes()]);
            page.fill(" after %?\n", &[source.spelled(self.last())]);
        } else if self.at > self.from && self.takes("name") && is_word(source, self.at) {
            say_reserved(page, source.spelled(self.at));
        }
    }

    /// Whether a word begins the statement, and what follows it follows a name.
    fn begins_with_reserved(&self) -> bool {
        let second = self.from.saturating_add(1);
        self.at <= second && self.source.is(second, ": := =") && is_word(self.source, self.from)
    }

    /// The sign that may be missing before the token, which begins something where what stands before it could have ended.
    fn missing(&self) -> Option<&'static str> {
        let is_beginning = self.source.is(self.at, tokens_of("a statement"))
            || self.source.is(self.at, tokens_of("an expression"));
        if self.at == self.from || !is_beginning {
            None
        } else if self.takes(";") {
            Some(";")
        } else if self.takes(",") {
            Some(",")
        } else {
            None
        }
    }
}

/// Whether a token is a reserved word.
fn is_word(source: Source<'_>, index: usize) -> bool {
    matches!(source.kind(index), Some(Kind::Word(_)))
}

/// Says that a word is no name.
fn say_reserved(page: &mut Page, word: &[u8]) {
    page.fill("% is a reserved word, and no name.\n", &[word]);
}
