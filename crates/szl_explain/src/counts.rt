//! What is said of counts and weights: arguments, parts, indexes.
use crate::fault::Fault;
use std::alloc::{AllocError, Global};
use szl_explain_judge::Trial;
use szl_explain_source::{CLOSING, Declared, Names, Page, Sort, Source, say_declared};

impl<'t> Fault<'t> {
    /// Says how many arguments, parts or indexes are given, and how many are wanted where it is sure.
    pub fn say_count(&self, alloc: Global, page: &mut Page) -> Result<(), AllocError> {
        let next = self.token.saturating_add(1);
        if self.source.is(self.token, "{") {
            return self.say_parts(alloc, page);
        }
        if self.source.is(self.token.saturating_sub(1), "emit") {
            return self.say_indexes(alloc, page);
        }
        match self.declared(alloc)? {
            Some(declared) if declared.sort == Sort::Function => {
                let wanted = Names::of(alloc, self.source)?.parameters(declared.token);
                self.say_wanted(page, declared, wanted, "parameter", "parameters");
            }
            Some(_) => {}
            None => say_predeclared(page, self.name()),
        }
        say_given(
            page,
            count_given(self.source, next),
            "argument",
            "arguments",
        );
        Ok(())
    }

    /// Says how many parts a composite has, and of which type the statement takes one.
    fn say_parts(&self, alloc: Global, page: &mut Page) -> Result<(), AllocError> {
        let last = last_of_braces(self.source, self.token);
        let trial = Trial::new(self.source, self.top, self.token, last);
        let types = trial.wanted_types(alloc)?;
        if !types.is_empty() {
            page.say("Expected a value of type ");
            page.names(&types);
            page.say(".\n");
        }
        say_given(page, count_given(self.source, self.token), "part", "parts");
        Ok(())
    }

    /// Says where something is declared, and with how many parameters or indexes.
    fn say_wanted(&self, page: &mut Page, declared: Declared, wanted: u64, one: &str, more: &str) {
        say_declared(page, self.source, declared);
        page.say(" with ");
        page.count(wanted, one, more);
        page.say(".\n");
    }

    /// Says how many indexes the table of an emit has.
    fn say_indexes(&self, alloc: Global, page: &mut Page) -> Result<(), AllocError> {
        let source = self.source;
        if let Some(declared) = self.declared(alloc)? {
            let wanted = indexes_after(source, first_index(source, declared.token));
            self.say_wanted(page, declared, wanted, "index", "indexes");
            let given = indexes_after(source, self.token.saturating_add(1));
            say_given(page, given, "index", "indexes");
        }
        Ok(())
    }

    /// Says whether the table of an emit has a weight.
    pub fn say_weight(&self, alloc: Global, page: &mut Page) -> Result<(), AllocError> {
        let source = self.source;
        let table = Fault {
            source,
            token: self.token.saturating_add(1),
            top: self.top,
        };
        if let Some(declared) = table.declared(alloc)? {
            say_declared(page, source, declared);
        }
        page.say(if source.next(self.token, "weight") < source.next(self.token, ";") {
            " without a weight. Hint: leave out `weight` and what follows it.\n"
        } else {
            " with a weight. Hint: write it at the end, as in `emit c <- x weight 1;`.\n"
        });
        Ok(())
    }
}

/// The token that closes the bracket which a token opens, or the last token.
fn last_of_braces(source: Source<'_>, from: usize) -> usize {
    let mut depth: usize = 0;
    for index in from..source.tokens.len() {
        depth = source.depth_after(index, depth);
        if depth == 0 {
            return index;
        }
    }
    source.tokens.len().saturating_sub(1)
}

/// How many things stand between commas in the bracket that a token opens.
fn count_given(source: Source<'_>, from: usize) -> u64 {
    if source.is(from.saturating_add(1), CLOSING) {
        return 0;
    }
    let mut depth: usize = 0;
    let mut count: u64 = 1;
    for index in from..source.tokens.len() {
        depth = source.depth_after(index, depth);
        if depth == 0 {
            return count;
        }
        if depth == 1 && source.is(index, ",") {
            count = count.saturating_add(1);
        }
    }
    count
}

/// Says how many of something are given.
fn say_given(page: &mut Page, given: u64, one: &str, more: &str) {
    page.say("Found ");
    page.count(given, one, more);
    page.say(".\n");
}

/// Says how many arguments a function takes that each program has.
fn say_predeclared(page: &mut Page, name: &[u8]) {
    if name == b"len".as_slice() || name == b"keys".as_slice() {
        page.fill("% takes 1 argument.\n", &[name]);
    } else if name == b"haskey".as_slice() || name == b"strfind".as_slice() {
        page.fill("% takes 2 arguments.\n", &[name]);
    }
}

/// How many pairs of brackets stand in a row from a token on.
fn indexes_after(source: Source<'_>, from: usize) -> u64 {
    let mut depth: usize = 0;
    let mut count: u64 = 0;
    for index in from..source.tokens.len() {
        if depth == 0 && !source.is(index, "[") {
            return count;
        }
        depth = source.depth_after(index, depth);
        if depth == 0 {
            count = count.saturating_add(1);
        }
    }
    count
}

/// Where the indexes of a table begin whose name is this token, after its kind and its limit.
fn first_index(source: Source<'_>, table: usize) -> usize {
    let after_kind = table.saturating_add(4);
    if source.is(after_kind, "(") {
        after_kind.saturating_add(3)
    } else {
        after_kind
    }
}
