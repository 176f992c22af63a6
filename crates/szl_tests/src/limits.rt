//! Programs and inputs that are as large as they may be, or larger, and texts that no row can have.
use crate::command::{PLAIN, Setting, left};
use crate::limits::Large::{Blanks, NoText, Parentheses, Sum, Tables};
use std::alloc::Global;
use std::fmt::Write;
use std::sync::Wait;
use std::test::Fail;
use std::thread::Threads;
use sz_io::NoMemory;

/// A program that no row can have.
#[derive(Clone, Copy)]
enum Large {
    /// A value in so many pairs of parentheses, between two texts.
    Parentheses(usize, &'static str, &'static str),
    /// It emits 1 and so many more times 1, added from the left.
    Sum(usize),
    /// So many tables, each declared in a line of its own.
    Tables(u32),
    /// So many blanks.
    Blanks(usize),
    /// A byte that is no text.
    NoText,
}

const LINE: &str = "c: table sum of int;\nx: int = ";

const EMIT: &str = ";\nemit c <- x;";

/// The words, the input, the program, and what its run leaves.
type Row = (&'static str, &'static str, Large, &'static str);

const ROWS: &[Row] = &[
    // A statement is 256 high at most, and operators from the left add to its height.
    ("run p f", "3¶", Parentheses(254, LINE, EMIT), "0 c[] = 1¶"),
    (
        "run p f",
        "3¶",
        Parentheses(255, LINE, EMIT),
        "2 ! program: syntax at 2:1",
    ),
    (
        "run p f",
        "3¶",
        Parentheses(300, "x: int = ", ";"),
        "2 ! program: syntax at 1:1",
    ),
    ("run p f", "3¶", Sum(254), "0 c[] = 255¶"),
    ("run p f", "3¶", Sum(255), "2 ! program: syntax at 2:1"),
    // A program has 64 tables at most.
    ("run p f", "", Tables(64), "0"),
    (
        "run p f",
        "",
        Tables(65),
        "2 ! program: too many tables at 65:1",
    ),
    ("check p", "", Tables(64), "0"),
    (
        "check p",
        "",
        Tables(65),
        "2 ! program: too many tables at 65:1",
    ),
    // What is no text, or longer than one may be.
    ("run p f", "3¶", NoText, "2 ! program: not UTF-8 at 1:1"),
    (
        "run p f",
        "3¶",
        Blanks(1_048_577),
        "2 ! program: too long at 1:1",
    ),
    ("run p f", "3¶", Blanks(1_048_576), "0"),
];

fn rows() -> &'static [Row] {
    ROWS
}

/// A value in so many pairs of parentheses, between two texts.
fn in_parentheses(
    alloc: Global,
    count: usize,
    before: &str,
    later: &str,
) -> Result<Vec<u8>, NoMemory> {
    let mut text = Vec::new(alloc);
    text.extend_from_slice(before.as_bytes())?;
    for _ in 0..count {
        text.push(b'(')?;
    }
    text.push(b'1')?;
    for _ in 0..count {
        text.push(b')')?;
    }
    text.extend_from_slice(later.as_bytes())?;
    Ok(text)
}

/// A program that emits 1 and then so many more times 1, added from the left.
fn long_sum(alloc: Global, count: usize) -> Result<Vec<u8>, NoMemory> {
    let mut text = Vec::new(alloc);
    text.extend_from_slice(b"c: table sum of int;\nx: int = 1")?;
    for _ in 0..count {
        text.extend_from_slice(b" + 1")?;
    }
    text.extend_from_slice(b";\nemit c <- x;")?;
    Ok(text)
}

/// So many tables, each declared in a line of its own.
fn declarations(alloc: Global, count: u32) -> Result<Vec<u8>, NoMemory> {
    let mut text = String::new(alloc);
    for number in 0..count {
        writeln!(text, "t{number}: table sum of int;")?;
    }
    Ok(text.into_bytes())
}

fn program_of(alloc: Global, large: Large) -> Result<Vec<u8>, NoMemory> {
    match large {
        Large::Parentheses(count, before, later) => in_parentheses(alloc, count, before, later),
        Large::Sum(count) => long_sum(alloc, count),
        Large::Tables(count) => declarations(alloc, count),
        Large::Blanks(count) => Ok(vec![in alloc; b' '; count]?),
        Large::NoText => Ok(vec![in alloc; 0xff; 1]?),
    }
}

/// Whether a run leaves what its row says.
fn holds<R: Threads + Wait + Sync>(
    rt: &R,
    alloc: Global,
    (words, input, large, wanted): Row,
) -> Result<bool, Fail> {
    let program = program_of(alloc, large)?;
    let given = Setting {
        words,
        input,
        ..PLAIN
    };
    Ok(left(rt, alloc, &given, &program)?.as_str() == wanted)
}

/// A line that is longer than a record may be.
fn long_line(alloc: Global) -> Result<String, NoMemory> {
    let mut line = String::new(alloc);
    for _ in 0..4_194_305 {
        line.push('1')?;
    }
    Ok(line)
}

/// Whether a line that is longer than a record may be is refused.
fn long_line_is_refused<R: Threads + Wait + Sync>(rt: &R, alloc: Global) -> Result<bool, Fail> {
    let line = long_line(alloc)?;
    let given = Setting {
        input: line.as_str(),
        ..PLAIN
    };
    let found = left(
        rt,
        alloc,
        &given,
        b"c: table sum of int;\nx: int = input;\nif (x > 0) emit c <- 1;",
    )?;
    Ok(found.as_str() == "9 ! input limit at byte 0")
}

/// What a check leaves of a `.proto` file of so many blanks.
fn checked_with<R: Threads + Wait + Sync>(
    rt: &R,
    alloc: Global,
    blanks: usize,
) -> Result<String, Fail> {
    let file = String::from_utf8(vec![in alloc; b' '; blanks]?).or(Err("not UTF-8"))?;
    let given = Setting {
        words: "check p --proto q",
        proto: file.as_str(),
        ..PLAIN
    };
    left(rt, alloc, &given, b"x: int = 1;")
}

/// Whether a `.proto` file that is longer than one may be is refused, and one that isn't isn't.
fn long_file_is_refused<R: Threads + Wait + Sync>(rt: &R, alloc: Global) -> Result<bool, Fail> {
    let long = checked_with(rt, alloc, 1_048_577)?;
    let short = checked_with(rt, alloc, 1_048_576)?;
    Ok(long.as_str() == "13 ! proto file: too long at 1:1" && short.as_str() == "0")
}

#[test]
fn what_is_as_large_as_it_may_be_is_run_and_what_is_larger_is_refused(
    rt: HostRuntime,
) -> Result<(), Fail> {
    for (number, row) in rows().iter().enumerate() {
        assert!(&rt; holds(&rt, rt.alloc(), *row)?, "row {number}");
    }
    assert!(&rt; long_line_is_refused(&rt, rt.alloc())?);
    assert!(&rt; long_file_is_refused(&rt, rt.alloc())?);
    Ok(())
}
