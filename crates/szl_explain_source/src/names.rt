//! What is said of names: where they are declared, and which others are spelled nearly so.
use crate::grammar::{NameChange, Sort};
use crate::page::Page;
use crate::source::Source;
use crate::walk::{Event, Walk};
use std::alloc::{AllocError, Global};

/// What the program declares, in the order of its tokens.
pub struct Names {
    events: Vec<Event>,
}

impl Drop for Names {
    fn drop(self) {
        let Names { events: _ } = self;
    }
}

/// A declared name: what it stands for, and the index of its token.
#[derive(Clone, Copy)]
pub struct Declared {
    pub sort: Sort,
    pub token: usize,
}

/// What a name is to stand for: a name of one of some sorts, or one of the words that each program has for it.
#[derive(Clone, Copy)]
pub struct Wanted {
    pub sorts: &'static [Sort],
    pub words: &'static [&'static str],
}

impl Names {
    /// The names of a program.
    pub fn of(alloc: Global, source: Source<'_>) -> Result<Names, AllocError> {
        let mut walk = Walk::over(alloc, "Program")?;
        walk.read_all(source.tokens, 0)?;
        Ok(Names {
            events: walk.into_events(),
        })
    }

    /// The first declaration of a name in the program, wherever it stands.
    pub fn first(&self, source: Source<'_>, name: &[u8]) -> Option<Declared> {
        for event in self.events.as_slice() {
            if let NameChange::Declares(sort) = event.change
                && source.spelled(event.token) == name
            {
                return Some(Declared {
                    sort,
                    token: event.token,
                });
            }
        }
        None
    }

    /// The names that are declared before a token in the blocks that are open there, those of the innermost block last.
    fn open_at(&self, alloc: Global, token: usize) -> Result<Vec<Option<Declared>>, AllocError> {
        let mut open = Vec::new(alloc);
        for event in self.events.as_slice() {
            if !is_past(event, token) {
                return Ok(open);
            }
            match event.change {
                NameChange::Declares(sort) => open.push(Some(Declared {
                    sort,
                    token: event.token,
                }))?,
                NameChange::Enters => open.push(None)?,
                NameChange::Leaves => close_block(&mut open),
                NameChange::NamesPart => {}
            }
        }
        Ok(open)
    }

    /// The last declaration of a name before a token in a block that is open there.
    pub fn seen_at(
        &self,
        alloc: Global,
        source: Source<'_>,
        token: usize,
        name: &[u8],
    ) -> Result<Option<Declared>, AllocError> {
        let open = self.open_at(alloc, token)?;
        for found in open.iter().rev() {
            if let Some(declared) = found
                && source.spelled(declared.token) == name
            {
                return Ok(Some(*declared));
            }
        }
        Ok(None)
    }

    /// How many parameters the function has whose name is this token.
    pub fn parameters(&self, function: usize) -> u64 {
        let mut count: u64 = 0;
        let mut is_there = false;
        for event in self.events.as_slice() {
            match event.change {
                NameChange::Declares(Sort::Parameter) if is_there => count = count.saturating_add(
                    1,
                ),
                NameChange::Declares(_) if is_there => return count,
                NameChange::Leaves if is_there => return count,
                NameChange::Declares(Sort::Function) => is_there = event.token == function,
                _ => {}
            }
        }
        count
    }

    /// The names of parts of tuples and messages, by the indexes of their tokens.
    pub fn parts(&self, alloc: Global) -> Result<Vec<usize>, AllocError> {
        let mut found = Vec::new(alloc);
        for event in self.events.as_slice() {
            if let NameChange::NamesPart = event.change {
                found.push(event.token)?;
            }
        }
        Ok(found)
    }

    /// Those names and words that are spelled nearly as a token and could stand for what is wanted there. The names are declared before the
    /// token, in a block that is open there.
    pub fn near<'t>(
        &self,
        alloc: Global,
        source: Source<'t>,
        token: usize,
        wanted: Wanted,
    ) -> Result<Vec<&'t [u8]>, AllocError> {
        let name = source.spelled(token);
        let mut near: Vec<&'t [u8]> = Vec::new(alloc);
        for found in &self.open_at(alloc, token)? {
            if let Some(declared) = found
                && wanted.sorts.contains(&declared.sort)
            {
                push_near(&mut near, source.spelled(declared.token), name)?;
            }
        }
        for word in wanted.words {
            push_near(&mut near, word.as_bytes(), name)?;
        }
        Ok(near)
    }
}

/// Whether the event is one before this token: the end of a block may stand right before it.
fn is_past(event: &Event, token: usize) -> bool {
    match event.change {
        NameChange::Leaves => event.token <= token,
        _ => event.token < token,
    }
}

/// Takes away the names of the innermost block, and its mark.
fn close_block(open: &mut Vec<Option<Declared>>) {
    for _ in 0..open.len() {
        match open.pop() {
            Some(Some(_)) => {}
            _ => return,
        }
    }
}

/// Appends a name if it is near to another, and new.
fn push_near<'t>(near: &mut Vec<&'t [u8]>, word: &'t [u8], name: &[u8]) -> Result<(), AllocError> {
    if is_near(word, name) && !near.as_slice().contains(&word) {
        near.push(word)?;
    }
    Ok(())
}

/// Whether two bytes are the same letter or sign.
fn is_alike(a: u8, b: u8) -> bool {
    a.to_ascii_lowercase() == b.to_ascii_lowercase()
}

/// How many bytes two texts have alike at the front, and then at the end.
fn alike(a: &[u8], b: &[u8]) -> usize {
    let mut count: usize = 0;
    let mut in_front = true;
    for (x, y) in a.iter().zip(b.iter()) {
        in_front = in_front && is_alike(*x, *y);
        count = count.saturating_add(in_front as usize);
    }
    let mut at_end = true;
    for (x, y) in a.iter().rev().zip(b.iter().rev()) {
        at_end = at_end && is_alike(*x, *y);
        count = count.saturating_add(at_end as usize);
    }
    count
}

/// Whether two names are spelled nearly alike: they differ in two bytes in a row at most, and in less than a half of the shorter one.
fn is_near(a: &[u8], b: &[u8]) -> bool {
    let shorter = a.len().min(b.len());
    let differing = a
        .len()
        .max(b.len())
        .saturating_sub(alike(a, b).min(shorter));
    a != b && differing <= 2 && differing.saturating_mul(2) < shorter
}

/// What a name of this sort is called.
fn sort_name(sort: Sort) -> &'static str {
    match sort {
        Sort::Variable => "a variable",
        Sort::Table => "a table",
        Sort::Function => "a function",
        Sort::Static => "a static",
        Sort::Type => "a type",
        Sort::Parameter => "a parameter",
        Sort::Quantified => "a variable of a `when`",
    }
}

/// Says where a name is declared, and as what.
pub fn say_declared(page: &mut Page, source: Source<'_>, declared: Declared) {
    page.fill("% is declared at ", &[source.spelled(declared.token)]);
    page.place(source.place(declared.token));
    page.say(" as ");
    page.say(sort_name(declared.sort));
}
