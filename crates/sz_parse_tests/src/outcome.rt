//! Texts, parsed and shown, and the loops that run the tables of texts.
use crate::{forms, refusals, shown};
use std::alloc::Global;
use std::fmt::Write;
use std::process::Abort;
use sz_lex::lex;
use sz_parse::{ParseError, parse};
use sz_tree::{Stmt, Tree};

/// What is shown of a tree.
#[derive(Clone, Copy)]
pub enum Shown {
    /// Each statement in parentheses.
    Trees,
    /// The places of its parts.
    Places,
    /// How many statements there are.
    Count,
}

// The tables are what a call gives, so that no proof sees what stands in them.
fn tables() -> [&'static str; 19] {
    [
        forms::EACH_FORM_OF_EXPRESSION_IS_READ,
        forms::OPERATORS_BIND_BY_THEIR_LEVEL_AND_GROUP_TO_THE_LEFT,
        forms::EACH_FORM_OF_TYPE_IS_READ,
        forms::EACH_FORM_OF_STATEMENT_IS_READ,
        forms::AN_ELSE_BELONGS_TO_THE_IF_WHOSE_PART_IT_FOLLOWS,
        forms::TREES_KNOW_THEIR_PLACES,
        refusals::A_REFUSAL_IS_AT_THE_FIRST_STATEMENT_THAT_IS_NOT_WHOLE,
        refusals::A_WRONG_DECLARATION_IS_REFUSED,
        refusals::A_WRONG_TABLE_IS_REFUSED,
        refusals::A_WRONG_FUNCTION_IS_REFUSED,
        refusals::A_WRONG_ASSIGNMENT_OR_CALL_IS_REFUSED,
        refusals::A_WRONG_IF_OR_LOOP_IS_REFUSED,
        refusals::A_WRONG_JUMP_IS_REFUSED,
        refusals::A_WRONG_EMIT_IS_REFUSED,
        refusals::A_WRONG_WHEN_IS_REFUSED,
        refusals::A_WRONG_TYPE_IS_REFUSED,
        refusals::A_WRONG_OPERAND_IS_REFUSED,
        refusals::A_WRONG_LIST_OR_MAP_IS_REFUSED,
        refusals::A_WRONG_OPERATOR_IS_REFUSED,
    ]
}

// The tree of a text, or why it has none; nothing where it is too long or has no tokens.
fn parsed(alloc: Global, text: &[u8]) -> Option<Result<Tree, ParseError>> {
    if text.len() > 1_048_576 {
        return None;
    }
    let tokens = lex(alloc, text).ok()?;
    Some(parse(alloc, &tokens))
}

// Why a text has no tree.
fn refusal(out: &mut String, error: Option<ParseError>) {
    let _ = match error {
        Some(ParseError::Syntax(place)) => write!(out, " {}:{}", place.line, place.column),
        Some(ParseError::NoMemory) => write!(out, " no memory"),
        None => write!(out, " no tokens"),
    };
}

fn show(out: &mut String, how: Shown, statements: &Vec<Stmt>) {
    match how {
        Shown::Trees => shown::stmts(out, statements),
        Shown::Places => {
            let _ = write!(out, " at");
            shown::places(out, statements);
        }
        Shown::Count => {
            let _ = write!(out, " {} read", statements.len());
        }
    }
}

// What is shown of a text's tree, or the place of its refusal.
fn outcome(alloc: Global, how: Shown, text: &str) -> String {
    let mut out = String::new(alloc);
    match parsed(alloc, text.as_bytes()) {
        Some(Ok(tree)) => show(&mut out, how, &tree.statements),
        Some(Err(error)) => refusal(&mut out, Some(error)),
        None => refusal(&mut out, None),
    }
    out
}

/// Whether this is shown of a text.
pub fn comes_to(alloc: Global, how: Shown, text: &str, expected: &str) -> bool {
    let found = outcome(alloc, how, text);
    found.as_str() == expected
}

// Whether a line holds: a text stands before `=>`, and after it its tree, or `at` and the places in it.
fn holds(alloc: Global, line: &str) -> bool {
    let (text, expected) = line.split_once(" =>").unwrap_or((line, "no arrow"));
    let how = if expected.starts_with(" at") {
        Shown::Places
    } else {
        Shown::Trees
    };
    comes_to(alloc, how, text, expected)
}

#[test]
fn each_text_has_its_outcome(rt: HostRuntime) {
    for table in tables() {
        for line in table.lines() {
            assert!(rt; holds(rt.alloc(), line), "at {line}");
        }
    }
}
