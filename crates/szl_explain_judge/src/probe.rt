//! Small changes of a program, and what is said of the changed one: so is found what stands at a place, and what could.
use crate::judge::refusal_in;
use std::alloc::{AllocError, Global};
use sz_check_rules::Cause;
use sz_refusals::Refusal;
use sz_types::Place;
use szl_explain_source::{Source, is_before, joined, part, place_of};

/// A part of a program that is to be changed: its first byte and the byte after it, the first byte of the statement at the top level
/// that it stands in, and where a semicolon ends the statement. All count from 0.
#[derive(Clone, Copy)]
pub struct Spot {
    pub top: usize,
    pub start: usize,
    pub end: usize,
    pub until: usize,
}

/// A change: a declaration before the statement at the top level, and what stands before the part, in its place, and after it.
#[derive(Clone, Copy)]
pub struct Change<'c> {
    pub declaration: &'c [u8],
    pub before: &'c [u8],
    pub inside: &'c [u8],
    pub after: &'c [u8],
}

/// What is said of a changed program.
#[derive(Drop)]
pub struct Answer {
    /// The place of what stands for the part.
    pub inside: Place,
    /// The place after the declaration.
    pub declared: Place,
    /// The place of the semicolon after the part.
    pub until: Place,
    /// The refusal, if there is one.
    pub refusal: Option<Refusal>,
}

impl Answer {
    /// Whether the changed part itself is refused for this cause.
    pub fn is_refused_inside(&self, cause: Cause) -> bool {
        match &self.refusal {
            Some(refusal) => refusal.place == self.inside && refusal.cause == cause,
            None => false,
        }
    }

    /// Whether it is refused at a place after that of the part.
    pub fn is_later(&self) -> bool {
        match &self.refusal {
            Some(refusal) => is_before(self.inside, refusal.place),
            None => false,
        }
    }

    /// Whether the declaration is refused, or the text isn't read as a program.
    pub fn is_unclear(&self) -> bool {
        match &self.refusal {
            Some(refusal) => {
                refusal.cause.number() <= Cause::Syntax.number()
                    || is_before(refusal.place, self.declared)
            }
            None => false,
        }
    }

    /// Whether the program passes, at least up to the semicolon after the part.
    pub fn passes(&self) -> bool {
        match &self.refusal {
            Some(refusal) => is_before(self.until, refusal.place),
            None => true,
        }
    }
}

/// The program with the change, and what is said of it.
pub fn probed(
    alloc: Global,
    source: Source<'_>,
    spot: Spot,
    change: Change<'_>,
) -> Result<Answer, AllocError> {
    let text = source.text;
    let middle = part(text, spot.top, spot.start);
    let made = joined(
        alloc,
        &[
            part(text, 0, spot.top),
            change.declaration,
            middle,
            change.before,
            change.inside,
            change.after,
            part(text, spot.end, text.len()),
        ],
    )?;
    let declared = spot.top.saturating_add(change.declaration.len());
    let inside = declared
        .saturating_add(middle.len())
        .saturating_add(change.before.len());
    let until = inside
        .saturating_add(change.inside.len())
        .saturating_add(change.after.len())
        .saturating_add(spot.until.saturating_sub(spot.end));
    let refusal = refusal_in(alloc, &made)?;
    Ok(Answer {
        inside: place_of(&made, inside),
        declared: place_of(&made, declared),
        until: place_of(&made, until),
        refusal,
    })
}
