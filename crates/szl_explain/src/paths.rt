//! Paths, as `a.b[1].c`: where one begins, and the types of its fronts.
use crate::fault::Fault;
use std::alloc::{AllocError, Global};
use szl_explain_judge::Trial;
use szl_explain_source::{CLOSING, OPENING, Page, Source};

/// Says the type of each front of a path from its first token on, up to another token, where one is found.
pub fn say_levels(
    alloc: Global,
    page: &mut Page,
    fault: Fault<'_>,
    first: usize,
    until: usize,
) -> Result<(), AllocError> {
    let source = fault.source;
    for last in first..until.min(source.tokens.len()) {
        if source.is(last.saturating_add(1), ". [") {
            let trial = Trial::new(source, fault.top, first, last);
            if let Some(ty) = trial.one_type(alloc)? {
                page.fill("% is of type %.\n", &[trial.text(), ty]);
            }
        }
    }
    Ok(())
}

/// The first token of the path that a field stands in.
pub fn first_of_path(source: Source<'_>, field: usize) -> usize {
    let mut first = field;
    let mut depth: usize = 0;
    for index in (0..field.min(source.tokens.len())).rev() {
        let is_dot = source.is(index, ".");
        if depth == 0 && !is_dot && !source.is(index.saturating_add(1), ". [ (") {
            return first;
        }
        if source.is(index, CLOSING) {
            depth = depth.saturating_add(1);
        } else if source.is(index, OPENING) {
            if depth == 0 {
                return first;
            }
            depth -= 1;
        } else if depth == 0 && !is_dot && !source.is(index, "name") {
            return first;
        }
        if depth == 0 {
            first = index;
        }
    }
    first
}
