//! What no contract says: that `check` gives a program or its refusal where there is memory, on each of its arms, and that the
//! definition is the one that was meant.

use crate::declarations::{EMITS, NAMED_TYPES, PROTO_TYPES, TABLES};
use crate::programs::{EXPRESSIONS, PROGRAMS, STATEMENTS};
use crate::quantified::WHENS;
use std::alloc::{AllocError, Global};
use std::fmt::Write;
use std::test::Fail;
use sz_check::{CheckError, check};
use sz_lex::lex;
use sz_parse::parse;
use sz_tree::Tree;

// In each line a program stands before `=>`, where `$` is the end of a line, and after it what `check` says of it.
const ROWS: &[&str] = &[
    PROGRAMS,
    STATEMENTS,
    WHENS,
    EXPRESSIONS,
    TABLES,
    EMITS,
    PROTO_TYPES,
    NAMED_TYPES,
];

fn rows() -> &'static [&'static str] {
    ROWS
}

// The program that a row writes with a mark for the end of each line.
pub(crate) fn program_of(alloc: Global, marked: &str) -> Result<Vec<u8>, AllocError> {
    let mut program = Vec::with_capacity(alloc, marked.len())?;
    for byte in marked.bytes() {
        program.push(if byte == b'$' { b'\n' } else { byte })?;
    }
    Ok(program)
}

// What `check` says of a program: `fine`, or the number of the refusal, its place, and its name if it has one.
fn outcome(alloc: Global, program: &[u8]) -> Result<String, AllocError> {
    if program.len() > 1_048_576 {
        return String::from_str(alloc, "too long");
    }
    let Ok(tokens) = lex(alloc, program) else {
        return String::from_str(alloc, "no tokens");
    };
    match parse(alloc, &tokens) {
        Ok(tree) => said(alloc, &tree),
        Err(_) => String::from_str(alloc, "no tree"),
    }
}

fn said(alloc: Global, tree: &Tree) -> Result<String, AllocError> {
    match check(alloc, tree) {
        Ok(_) => String::from_str(alloc, "fine"),
        Err(error) => told(alloc, &error),
    }
}

// A refusal by its number, its place, and its name if it has one.
pub(crate) fn told(alloc: Global, error: &CheckError) -> Result<String, AllocError> {
    let CheckError::Refused {
        number,
        place,
        name,
    } = error
    else {
        return String::from_str(alloc, "no memory");
    };
    let mut text = String::new(alloc);
    write!(text, "{number} at {}:{}", place.line, place.column)?;
    if let Some(name) = name {
        write!(text, ": {}", name.as_str())?;
    }
    Ok(text)
}

// Whether `check` says of a program what its row says.
fn holds(alloc: Global, row: &str) -> Result<bool, Fail> {
    let (program, wanted) = row.split_once(" => ").ok_or("no arrow")?;
    let program = program_of(alloc, program)?;
    Ok(outcome(alloc, &program)?.as_str() == wanted)
}

#[test]
fn each_program_is_judged_as_its_row_says(rt: HostRuntime) -> Result<(), Fail> {
    for table in rows() {
        for row in table.lines() {
            assert!(&rt; holds(rt.alloc(), row)?, "at {row}");
        }
    }
    Ok(())
}

// A program of this many tables.
fn tables(alloc: Global, count: usize) -> Result<String, Fail> {
    let mut program = String::new(alloc);
    for number in 0..count {
        write!(program, "t{number}: table sum of int;\n")?;
    }
    Ok(program)
}

#[test]
fn a_65th_table_is_refused(rt: HostRuntime) -> Result<(), Fail> {
    for (count, wanted) in [(64, "fine"), (65, "21 at 65:1")] {
        let program = tables(rt.alloc(), count)?;
        let found = outcome(rt.alloc(), program.as_bytes())?;
        assert_eq!(&rt; found.as_str(), wanted, "of {count}");
    }
    Ok(())
}
