//! What is tried at an expression: its type, the types that its statement takes in its place, and other text for it.
use crate::probe::{Answer, Change, Spot, probed};
use crate::written::{MOST_TRIED, written_types};
use std::alloc::{AllocError, Global};
use sz_check_rules::Cause;
use sz_types::Place;
use szl_explain_source::{Source, is_before, joined, part};

/// Whether no token of the program is the name of what trials declare.
pub fn can_be_tried(source: Source<'_>) -> bool {
    for index in 0..source.tokens.len() {
        if source.spelled(index) == b"szl_explains".as_slice() {
            return false;
        }
    }
    true
}

/// An expression of the program that is tried.
#[derive(Clone, Copy)]
pub struct Trial<'t> {
    source: Source<'t>,
    spot: Spot,
}

impl<'t> Trial<'t> {
    /// The trial of the expression from one token to another, in the statement at the top level whose first byte has the offset `top`. All
    /// count from 0.
    pub fn new(source: Source<'t>, top: usize, first: usize, last: usize) -> Trial<'t> {
        let spot = Spot {
            top,
            start: source.start(first),
            end: source.end(last),
            until: source.start(source.next(last, ";")),
        };
        Trial { source, spot }
    }

    /// The text of the expression.
    pub fn text(&self) -> &'t [u8] {
        part(self.source.text, self.spot.start, self.spot.end)
    }

    /// What is said of the program where other text stands before the expression and after it.
    fn between(&self, alloc: Global, before: &[u8], after: &[u8]) -> Result<Answer, AllocError> {
        let change = Change {
            declaration: b"",
            before,
            inside: self.text(),
            after,
        };
        probed(alloc, self.source, self.spot, change)
    }

    /// Whether a field of this name could stand in the place of what is tried.
    fn has_field(&self, alloc: Global, name: &[u8]) -> Result<bool, AllocError> {
        let change = Change {
            declaration: b"",
            before: b"",
            inside: name,
            after: b"",
        };
        let answer = probed(alloc, self.source, self.spot, change)?;
        Ok(!answer.is_unclear() && !answer.is_refused_inside(Cause::NoField))
    }

    /// Whether the program passes, at least to the end of this statement, where other text stands before the expression and after it.
    pub fn passes_between(
        &self,
        alloc: Global,
        before: &[u8],
        after: &[u8],
    ) -> Result<bool, AllocError> {
        let answer = self.between(alloc, before, after)?;
        Ok(!answer.is_unclear() && answer.passes())
    }

    /// Whether the expression has a type of its own: `def(..)` takes all that have one. A path that is assigned to has one if one is found.
    pub fn has_type(&self, alloc: Global) -> Result<bool, AllocError> {
        let answer = self.between(alloc, b"def(", b")")?;
        if answer.is_unclear() {
            return Ok(!self.types_of(alloc)?.is_empty());
        }
        Ok(!answer.is_refused_inside(Cause::WrongType) && !answer.is_refused_inside(Cause::NoType))
    }

    /// What is said of the program where a function of one parameter of this type takes the expression, and other text follows.
    fn taken(&self, alloc: Global, ty: &[u8], after: &[u8]) -> Result<Answer, AllocError> {
        let declaration = joined(
            alloc,
            &[
                b"szl_explains: function(x: ",
                ty,
                b"): bool { return true; } ",
            ],
        )?;
        let change = Change {
            declaration: &declaration,
            before: b"szl_explains(",
            inside: self.text(),
            after,
        };
        probed(alloc, self.source, self.spot, change)
    }

    /// Whether the expression is of this type. A path that is assigned to is tried in a statement before its own.
    fn is_of(&self, alloc: Global, ty: &[u8]) -> Result<bool, AllocError> {
        let mut answer = self.taken(alloc, ty, b")")?;
        if answer.is_unclear() {
            let after = joined(alloc, &[b"); ", self.text()])?;
            answer = self.taken(alloc, ty, &after)?;
        }
        Ok(!answer.is_unclear() && !answer.is_refused_inside(Cause::WrongType))
    }

    /// The types of the expression among those that are tried. There are several where two names stand for one type.
    pub fn types_of(&self, alloc: Global) -> Result<Vec<&'t [u8]>, AllocError> {
        let mut found = Vec::new(alloc);
        for ty in &written_types(alloc, self.source)? {
            if self.is_of(alloc, ty)? {
                found.push(*ty)?;
            }
        }
        Ok(found)
    }

    /// The type of the expression, if one is found. Where it seems to be both of the first two that are tried, the trials show nothing.
    pub fn one_type(&self, alloc: Global) -> Result<Option<&'t [u8]>, AllocError> {
        let types = self.types_of(alloc)?;
        Ok(match types.as_slice() {
            [first, second, ..] if *first == b"bool".as_slice() && *second == b"int".as_slice() =>
                None,
            [first, ..] => Some(*first),
            [] => None,
        })
    }

    /// What is said of the program with a value of this type in place of the expression.
    fn replaced(&self, alloc: Global, ty: &[u8]) -> Result<Answer, AllocError> {
        let declaration = joined(
            alloc,
            &[
                b"szl_explains: function(): ",
                ty,
                b" { x: ",
                ty,
                b"; return x; } ",
            ],
        )?;
        let change = Change {
            declaration: &declaration,
            before: b"",
            inside: b"szl_explains()",
            after: b"",
        };
        probed(alloc, self.source, self.spot, change)
    }

    /// The types of which a value can stand in the place of the expression: with those the program passes, at least to the end of this
    /// statement. Where there is none, those with which only what stands after the expression is refused.
    pub fn wanted_types(&self, alloc: Global) -> Result<Vec<&'t [u8]>, AllocError> {
        let mut passing = Vec::new(alloc);
        let mut taken = Vec::new(alloc);
        for ty in &written_types(alloc, self.source)? {
            let answer = self.replaced(alloc, ty)?;
            if !answer.is_unclear() && answer.passes() {
                passing.push(*ty)?;
            } else if !answer.is_unclear() && answer.is_later() {
                taken.push(*ty)?;
            }
        }
        Ok(if passing.is_empty() { taken } else { passing })
    }
}

/// Those of the names of these tokens that could stand in the place of the token of a field.
pub fn fields_there<'t>(
    alloc: Global,
    source: Source<'t>,
    top: usize,
    field: usize,
    parts: &[usize],
) -> Result<Vec<&'t [u8]>, AllocError> {
    let trial = Trial::new(source, top, field, field);
    let mut tried: Vec<&'t [u8]> = Vec::new(alloc);
    let mut found = Vec::new(alloc);
    for part in parts {
        let name = source.spelled(*part);
        if tried.len() < MOST_TRIED && !tried.as_slice().contains(&name) {
            tried.push(name)?;
            if trial.has_field(alloc, name)? {
                found.push(name)?;
            }
        }
    }
    Ok(found)
}

/// The offset of the statement at the top level that a place stands in: the last one of those at `tops` that isn't after it.
pub fn top_of(tops: &[Place], source: Source<'_>, place: Place) -> usize {
    let mut last = None;
    for top in tops {
        if !is_before(place, *top) {
            last = Some(*top);
        }
    }
    match last {
        Some(top) => source.start(source.token_at(top)),
        None => 0,
    }
}
