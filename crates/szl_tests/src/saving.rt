//! Saved tables: runs that save them, and programs whose tables can't be saved.
ghost use Rattle.std.specs.Prelude.{◌≡◌, [], IfOk};
ghost use Rattle.sz_io.specs.MemFiles.{names_opened};

use crate::command::{bytes_of, text_of, told, words_of};
use std::alloc::Global;
use std::fmt::Write;
use std::sync::Wait;
use std::test::Fail;
use std::thread::Threads;
use sz_io::{MemFiles, MemSink, NoGate};
use szl::szl_main;

/// A file under a name.
#[derive(Clone, Copy)]
pub struct Named<'t> {
    pub name: &'t str,
    pub bytes: &'t [u8],
}

/// What a run left: its status, its output and its line.
#[derive(Drop)]
pub struct Left {
    pub status: u8,
    pub out: Vec<u8>,
    pub err: Vec<u8>,
}

/// The files.
fn files_of(alloc: Global, given: &[Named<'_>]) -> Result<MemFiles, Fail>
    ensures { IfOk result (λ files. names_opened files ≡ []) }
{
    let mut files = MemFiles::new(alloc)?;
    for file in given {
        files.put(file.name, file.bytes, &[])?;
    }
    Ok(files)
}

/// What a run over these files leaves.
pub fn left_over<R: Threads + Wait + Sync>(
    rt: &R,
    alloc: Global,
    words: &str,
    files: &[Named<'_>],
) -> Result<Left, Fail> {
    let words = words_of(alloc, words)?;
    let mut files = files_of(alloc, files)?;
    let mut out = MemSink::new(alloc, 5, &[])?;
    let mut err = MemSink::new(alloc, 4, &[])?;
    let status = szl_main(rt, alloc, &words, &mut files, &mut out, &mut err, &NoGate);
    Ok(Left {
        status: status.code(),
        out: Vec::from_slice(alloc, out.bytes())?,
        err: Vec::from_slice(alloc, err.bytes())?,
    })
}

/// The saved table of the sum 1, with the bound 16.
const SAVED: &str = "SZTABLE1\\x00\\x00\\x00\\x00\\x00\\x00\\x00\\x10\\x00\\x00\\x00\\x01\
     \\x00\\x00\\x00\\x01c\\x00\\x00\\x00\\x00\\x00\\x00\\x00\\x00\\x00\\x02\\x00\
     \\x00\\x00\\x00\\x00\\x00\\x00\\x00\\x01\\x00\\x00\\x00\\x01\
     \\x00\\x00\\x00\\x00\\x00\\x00\\x00\\x00\\x00\\x00\\x00\\x00\\x00\\x00\\x00\\x01";

/// The same of the sum 2, with the bound 32.
const BOTH: &str = "SZTABLE1\\x00\\x00\\x00\\x00\\x00\\x00\\x00\\x20\\x00\\x00\\x00\\x01\
     \\x00\\x00\\x00\\x01c\\x00\\x00\\x00\\x00\\x00\\x00\\x00\\x00\\x00\\x02\\x00\
     \\x00\\x00\\x00\\x00\\x00\\x00\\x00\\x01\\x00\\x00\\x00\\x01\
     \\x00\\x00\\x00\\x00\\x00\\x00\\x00\\x00\\x00\\x00\\x00\\x00\\x00\\x00\\x00\\x02";

/// The same of the sum 2, with the bound 48: one of three records faults and is passed over.
const OF_THREE: &str = "SZTABLE1\\x00\\x00\\x00\\x00\\x00\\x00\\x00\\x30\\x00\\x00\\x00\\x01\
     \\x00\\x00\\x00\\x01c\\x00\\x00\\x00\\x00\\x00\\x00\\x00\\x00\\x00\\x02\\x00\
     \\x00\\x00\\x00\\x00\\x00\\x00\\x00\\x01\\x00\\x00\\x00\\x01\
     \\x00\\x00\\x00\\x00\\x00\\x00\\x00\\x00\\x00\\x00\\x00\\x00\\x00\\x00\\x00\\x02";

/// The table without any row, of no record.
const EMPTY: &str = "SZTABLE1\\x00\\x00\\x00\\x00\\x00\\x00\\x00\\x00\\x00\\x00\\x00\\x01\
     \\x00\\x00\\x00\\x01c\\x00\\x00\\x00\\x00\\x00\\x00\\x00\\x00\\x00\\x02\\x00\
     \\x00\\x00\\x00\\x00\\x00\\x00\\x00\\x00";

const ONE: &str = "c: table sum of int;\nemit c <- 1;";

const COUNT: &str = "c: table sum of int;\nx: int = input;\nif (x > 0) emit c <- 1;\n";

/// The words, the program, the input, and the bytes that its run writes.
const RUNS: &[(&str, &str, &str, &str)] = &[
    ("run p f --save --budget 16", ONE, "¶", SAVED),
    ("run p f --budget 16 --save", ONE, "¶¶", BOTH),
    (
        "run --save p f --budget 16 --shard 1 --workers 3",
        ONE,
        "¶¶",
        BOTH,
    ),
    ("run p f --save --budget 16", ONE, "", EMPTY),
    (
        "run p f --save --budget 16 --skip 1",
        COUNT,
        "1¶¶1¶",
        OF_THREE,
    ),
    (
        "run p f --save --budget 16 --skip 1 --shard 1 --workers 8",
        COUNT,
        "1¶¶1¶",
        OF_THREE,
    ),
    (
        "run p f --save --skip 1 --budget 16 --shard 1 --attempts 2 --kill 0.0.0,2.0.1 --twice 1",
        COUNT,
        "¶1¶1¶",
        OF_THREE,
    ),
    // Nothing is written where a run has no tables.
    (
        "run p f --save",
        COUNT,
        "1¶¶1¶",
        "3 ! record 2: undefined value used at 3:1",
    ),
    (
        "run p f --save --attempts 1 --kill 0.0.0",
        ONE,
        "¶",
        "7 ! shard 0 lost",
    ),
    (
        "run p f --save --frame delimited",
        ONE,
        "\\x05ab",
        "4 ! input damaged at byte 0",
    ),
    ("run p f --save --save", ONE, "¶", "1 ! bad command line"),
];

fn runs() -> &'static [(&'static str, &'static str, &'static str, &'static str)] {
    RUNS
}

/// Whether a run leaves what its row says: the bytes at status 0, else the status and the line.
fn is_left(alloc: Global, left: &Left, wanted: &str) -> Result<bool, Fail> {
    if left.status == 0 {
        return Ok(left.out.as_slice() == bytes_of(alloc, wanted)?.as_slice());
    }
    let told = told(alloc, left.status, &left.out, &left.err)?;
    Ok(told.as_str() == wanted)
}

#[test]
fn tables_are_saved_with_the_ticks_of_all_records_for_a_bound(rt: HostRuntime) -> Result<(), Fail> {
    for (number, row) in runs().iter().enumerate() {
        let (words, program, input, wanted) = *row;
        let input = bytes_of(rt.alloc(), input)?;
        let files = [
            Named {
                name: "p",
                bytes: program.as_bytes(),
            },
            Named {
                name: "f",
                bytes: &input,
            },
        ];
        let left = left_over(&rt, rt.alloc(), words, &files)?;
        assert!(&rt; is_left(rt.alloc(), &left, wanted)?, "row {number}");
    }
    Ok(())
}

/// Types of which each is an array of the one before it, the first with one level and the last with so many, each in a line of its own; and
/// then a text, in which the last type has the name `T`.
fn high(alloc: Global, levels: u32, then: &str) -> Result<String, Fail> {
    let mut program = String::new(alloc);
    writeln!(program, "type A1 = int;")?;
    for level in 2..levels {
        writeln!(
            program,
            "type A{level} = array of A{};",
            level.saturating_sub(1)
        )?;
    }
    writeln!(program, "type T = array of A{};", levels.saturating_sub(1))?;
    program.push_str(text_of(alloc, then)?.as_str())?;
    Ok(program)
}

/// The words, the number of levels of the type `T`, a text behind its declaration, and what the run leaves.
const HIGH: &[(&str, u32, &str, &str)] = &[
    ("run p f", 257, "t: table collection of T;", "0"),
    (
        "run p f --save",
        256,
        "t: table collection of T;¶u: table sum[T] of int;",
        "0",
    ),
    (
        "run p f --save",
        257,
        "t: table collection of T;",
        "2 ! program: table type too deep: t at 258:1",
    ),
    (
        "run p f --save",
        257,
        "c: table sum of int;¶  u: table sum[int][T] of int;",
        "2 ! program: table type too deep: u at 259:3",
    ),
    (
        "run p f --save",
        257,
        "b: table set(1) of T;¶a: table set(1) of T;",
        "2 ! program: table type too deep: b at 258:1",
    ),
    ("run p f --save", 257, "x: T;¶c: table sum of int;", "0"),
    (
        "run p f --save --ignore-undefs",
        257,
        "t: table collection of T;¶_undefs: table sum of int;",
        "2 ! program: reserved name: _undefs at 259:1",
    ),
    (
        "run p f --save",
        257,
        "t: table collection of T;¶x: bool = 1;",
        "2 ! program: wrong type at 259:11",
    ),
    ("check p", 257, "t: table collection of T;", "0"),
];

fn high_rows() -> &'static [(&'static str, u32, &'static str, &'static str)] {
    HIGH
}

#[test]
fn tables_of_high_types_are_not_saved(rt: HostRuntime) -> Result<(), Fail> {
    for (number, row) in high_rows().iter().enumerate() {
        let (words, levels, then, wanted) = *row;
        let program = high(rt.alloc(), levels, then)?;
        let files = [
            Named {
                name: "p",
                bytes: program.as_bytes(),
            },
            Named {
                name: "f",
                bytes: &[],
            },
        ];
        let left = left_over(&rt, rt.alloc(), words, &files)?;
        if left.status == 0 {
            assert!(&rt; wanted == "0", "row {number}");
        } else {
            assert!(&rt; is_left(rt.alloc(), &left, wanted)?, "row {number}");
        }
    }
    Ok(())
}
