//! What no contract says: that `compile` gives code where there is memory, for each form of expression and of statement, and that the
//! definition of code is the one that was meant.

use crate::{rows, shown};
use std::alloc::Global;
use std::fmt::Write;
use sz_check::check;
use sz_core::Program;
use sz_gen_stmt::compile;
use sz_lex::lex;
use sz_parse::parse;

/// The checked program of a text; nothing where it is none.
pub fn checked(alloc: Global, text: &[u8]) -> Option<Program> {
    if text.len() > 1_048_576 {
        return None;
    }
    let tokens = lex(alloc, text).ok()?;
    let tree = parse(alloc, &tokens).ok()?;
    check(alloc, &tree).ok()
}

// The code of a text, as that of an ignoring program or not, shown.
fn outcome(alloc: Global, text: &[u8], ignore: bool) -> String {
    let mut out = String::new(alloc);
    let Some(program) = checked(alloc, text) else {
        let _ = write!(out, "no program");
        return out;
    };
    match compile(alloc, program, ignore) {
        Ok(compiled) => shown::code(&mut out, compiled.code()),
        Err(_) => {
            let _ = write!(out, "no memory");
        }
    }
    out
}

// The code of a row, ` | ` after each of its lines.
fn joined(alloc: Global, lines: &str) -> String {
    let mut text = String::new(alloc);
    for line in lines.lines() {
        let _ = write!(text, "{} | ", line.trim_start());
    }
    text
}

// Whether the program of a row has the code after it.
fn holds(alloc: Global, row: &str) -> bool {
    let (program, lines) = row.split_once("=> ").unwrap_or((row, "no code"));
    let wanted = joined(alloc, lines);
    let found = outcome(alloc, program.as_bytes(), false);
    found.as_str() == wanted.as_str()
}

// Whether an ignoring program has the same code, and the table that counts lines besides.
fn is_same_but_counts(alloc: Global, row: &str) -> bool {
    let (program, _) = row.split_once("=> ").unwrap_or((row, "no code"));
    let plain = outcome(alloc, program.as_bytes(), false);
    let found = outcome(alloc, program.as_bytes(), true);
    match found.as_str().strip_prefix(plain.as_str()) {
        Some(more) => more.starts_with("ignore "),
        None => false,
    }
}

#[test]
fn each_program_has_the_code_of_its_row(rt: HostRuntime) {
    for table in rows::rows() {
        for row in table.split("\n\n") {
            assert!(rt; holds(rt.alloc(), row), "of {row}");
        }
    }
}

#[test]
fn an_ignoring_program_has_the_same_lines(rt: HostRuntime) {
    for table in rows::rows() {
        for row in table.split("\n\n") {
            assert!(rt; is_same_but_counts(rt.alloc(), row), "of {row}");
        }
    }
}

#[test]
fn lines_are_counted_in_a_table_behind_all_others(rt: HostRuntime) {
    let none = outcome(rt.alloc(), b"", true);
    assert!(rt; none.as_str() == "record 0 of 0 | 0 EndRecord +0 1:1 | ignore 0 | ");
    let two = outcome(
        rt.alloc(),
        b"a: table sum of int; b: table sum of int;",
        true,
    );
    assert!(rt; two.as_str() == "record 0 of 0 | 0 EndRecord +0 1:1 | ignore 2 | ");
}
