//! The token at which a statement can't be read further, and what stands round it.
use szl_explain_source::{
    CLOSING, Expected, Source, any_begins_with, has_word, tokens_of, word_of,
};

/// A statement that can't be read: its first token, the first that can't stand where it does, and what could stand there.
#[derive(Clone, Copy)]
pub struct Stuck<'t, 'e> {
    pub source: Source<'t>,
    pub from: usize,
    pub at: usize,
    pub expected: &'e [Expected],
}

impl<'t, 'e> Stuck<'t, 'e> {
    /// Whether the token is the end of the program.
    pub fn is_end(&self) -> bool {
        self.at >= self.source.tokens.len()
    }

    /// Whether this token could stand there.
    pub fn takes(&self, token: &str) -> bool {
        any_begins_with(self.expected, token.as_bytes())
    }

    /// How many of these tokens could stand there.
    fn count_taken(&self, tokens: &str) -> usize {
        let mut count: usize = 0;
        for token in tokens.split(' ') {
            count = count.saturating_add(self.takes(token) as usize);
        }
        count
    }

    /// The index of the token before.
    pub fn last(&self) -> usize {
        self.at.saturating_sub(1)
    }

    /// Whether the token after one of these indexes stands on another line.
    pub fn is_line_end(&self, index: usize) -> bool {
        let source = self.source;
        source.place(index).line < source.place(index.saturating_add(1)).line
    }

    /// The bracket of the statement that is open before the token.
    fn open(&self) -> Option<usize> {
        self.source.open_bracket(self.from, self.at)
    }

    /// The word of the bracket that is open before the token, or `nothing`.
    fn open_word(&self) -> &'static [u8] {
        match self.open() {
            Some(open) => match self.source.kind(open) {
                Some(kind) => word_of(kind),
                None => b"nothing",
            },
            None => b"nothing",
        }
    }

    /// The bracket that should have been closed before the token.
    pub fn unclosed(&self) -> Option<usize> {
        let open = self.open()?;
        let is_closing = self.source.is(self.at, CLOSING) || self.source.is(self.at, "; { <-");
        let closing = if self.source.is(open, "(") {
            ")"
        } else if self.source.is(open, "[") {
            "]"
        } else {
            "}"
        };
        if (self.is_end() || is_closing) && self.takes(closing) {
            Some(open)
        } else {
            None
        }
    }

    /// Whether a condition of a hint holds: a word, and what it is said of.
    pub fn holds(&self, condition: &str) -> bool {
        let (what, words) = condition.split_once(' ').unwrap_or((condition, ""));
        let before = self.last();
        match what {
            "start" => self.at == self.from,
            "second" => self.at == self.from.saturating_add(1),
            "third" => self.at == self.from.saturating_add(2),
            "first" => self.source.is(self.from, words),
            "before" => self.at > self.from && self.source.is(before, words),
            "at" => self.source.is(self.at, tokens_of(words)),
            "after" => self.source.spelled(before) == words.as_bytes(),
            "spelled" => self.source.spelled(self.at) == words.as_bytes(),
            "in" => has_word(words, self.open_word()),
            "takes" => self.count_taken(words) == words.split(' ').count(),
            "not" => self.count_taken(words) == 0,
            "alone" => self.expected.len() == 1,
            _ => self.holds_after(what, words),
        }
    }

    /// Whether a condition of what stands after the token holds: these words do, with nothing between or with blanks, or anything in the line.
    fn holds_after(&self, what: &str, words: &str) -> bool {
        let next = self.at.saturating_add(1);
        let is_next = self.source.is(next, words);
        match what {
            "next" => is_next,
            "joined" => is_next && self.source.end(self.at) == self.source.start(next),
            "inside" => next < self.source.tokens.len() && !self.is_line_end(self.at),
            _ => false,
        }
    }
}
