//! The types that a program writes, and where its expressions end.
use std::alloc::{AllocError, Global};
use szl_explain_source::{Source, Walk, word_of};

/// Types that are tried before those that the program writes.
const TYPES: &[&str] = &[
    "bool",
    "int",
    "time",
    "string",
    "bytes",
    "array of int",
    "array of string",
    "array of bytes",
    "array of bool",
    "array of time",
];

fn types() -> &'static [&'static str] {
    TYPES
}

/// The most types, expressions and fields that are tried.
pub const MOST_TRIED: usize = 40;

/// The types of the program: those that are tried first, and each that it writes after a colon, `of` or `=`.
pub fn written_types<'t>(alloc: Global, source: Source<'t>) -> Result<Vec<&'t [u8]>, AllocError> {
    let mut found: Vec<&'t [u8]> = Vec::new(alloc);
    for word in types() {
        found.push(word.as_bytes())?;
    }
    for index in 1..source.tokens.len() {
        if begins_written_type(source, index) && found.len() < MOST_TRIED {
            let ends = ends_of(alloc, source, index, "Type", 1)?;
            for last in ends.as_slice() {
                push_new(&mut found, source.spelled_from(index, *last))?;
            }
        }
    }
    Ok(found)
}

fn push_new<'t>(found: &mut Vec<&'t [u8]>, ty: &'t [u8]) -> Result<(), AllocError> {
    if !found.as_slice().contains(&ty) {
        found.push(ty)?;
    }
    Ok(())
}

/// Whether a type may begin at the token.
fn begins_written_type(source: Source<'_>, index: usize) -> bool {
    let before = index.saturating_sub(1);
    source.is(before, ": of")
        || (source.is(before, "=") && source.is(index.saturating_sub(3), "type"))
}

/// The last tokens of the expressions that begin at a token, the shortest first.
pub fn ends_of_expressions(
    alloc: Global,
    source: Source<'_>,
    from: usize,
) -> Result<Vec<usize>, AllocError> {
    ends_of(alloc, source, from, "Expression", MOST_TRIED)
}

/// The last tokens of what a symbol stands for from a token on, the shortest first, and no more than so many.
fn ends_of(
    alloc: Global,
    source: Source<'_>,
    from: usize,
    symbol: &'static str,
    most: usize,
) -> Result<Vec<usize>, AllocError> {
    let mut ends = Vec::new(alloc);
    let mut walk = Walk::over(alloc, symbol)?;
    for index in from..source.tokens.len() {
        let Some(kind) = source.kind(index) else {
            return Ok(ends);
        };
        if ends.len() >= most || !walk.read(word_of(kind), index)? {
            return Ok(ends);
        }
        if walk.is_complete() {
            ends.push(index)?;
        }
    }
    Ok(ends)
}
