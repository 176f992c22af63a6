//! Command lines over devices of which no call fails: the answer is the outcome's, with each status that an outcome has.
ghost use Rattle.std.specs.Prelude.{◌≡◌, [], IfOk};
ghost use Rattle.sz_io.specs.SureFiles.{sure_names};

use crate::command::{bytes_of, text_of, told, words_of};
use std::alloc::Global;
use std::sync::Wait;
use std::test::Fail;
use std::thread::Threads;
use sz_io::{NoGate, SureFiles, SureSink};
use szl::szl_in_memory;

/// The words, the program, the input, and what its run leaves, all as the rows of `runs.rt` write them.
type Row = (&'static str, &'static str, &'static str, &'static str);

const COUNT: &str = "c: table sum of int; x: int = input; emit c <- x;";

const ROWS: &[Row] = &[
    ("run p f", COUNT, "3¶-1¶", "0 c[] = 2¶"),
    // A name that was never put has no bytes.
    ("run p none", COUNT, "3¶", "0"),
    ("run none f", COUNT, "3¶", "0"),
    ("check none", COUNT, "", "0"),
    ("walk p f", COUNT, "3¶", "1 ! bad command line"),
    // Without a disk no job is resumed.
    ("resume p f", COUNT, "3¶", "1 ! bad command line"),
    (
        "check p",
        "x: bool = 1;",
        "",
        "2 ! program: wrong type at 1:11",
    ),
    (
        "run p f",
        "x: int = input; if (x > 0) ;",
        "3¶¶",
        "3 ! record 2: undefined value used at 1:17",
    ),
    (
        "run p f --frame delimited",
        COUNT,
        "\\x011\\x05ab",
        "4 ! input damaged at byte 2",
    ),
    (
        "run p f --attempts 1 --kill 0.0.0",
        COUNT,
        "3¶",
        "7 ! shard 0 lost",
    ),
    (
        "run p f --frame delimited",
        COUNT,
        "\\x011\\x81\\x80\\x80\\x02",
        "9 ! input limit at byte 2",
    ),
    (
        "selftest 1 1 1",
        "",
        "",
        "0 queries[\"fr\"] = 1¶slow[] = \"fr\" weight 305¶hours[] = 17¶",
    ),
];

fn rows() -> &'static [Row] {
    ROWS
}

/// The files `p` and `f`.
fn files_of(alloc: Global, program: &str, input: &str) -> Result<SureFiles, Fail>
    ensures { IfOk result (λ files. sure_names files ≡ []) }
{
    let mut files = SureFiles::new(alloc)?;
    let text = text_of(alloc, program)?;
    files.put("p", text.as_bytes())?;
    let bytes = bytes_of(alloc, input)?;
    files.put("f", bytes.as_slice())?;
    Ok(files)
}

/// Whether a run leaves what its row says.
fn holds<R: Threads + Wait + Sync>(rt: &R, alloc: Global, row: Row) -> Result<bool, Fail> {
    let (words, program, input, wanted) = row;
    let words = words_of(alloc, words)?;
    let mut files = files_of(alloc, program, input)?;
    let mut out = SureSink::new(alloc, 5)?;
    let mut err = SureSink::new(alloc, 4)?;
    let status = szl_in_memory(rt, alloc, &words, &mut files, &mut out, &mut err, &NoGate);
    Ok(told(alloc, status.code(), out.bytes(), err.bytes())?.as_str() == wanted)
}

#[test]
fn the_answer_is_the_outcome_where_no_device_fails(rt: HostRuntime) -> Result<(), Fail> {
    for (number, row) in rows().iter().enumerate() {
        assert!(&rt; holds(&rt, rt.alloc(), *row)?, "row {number}");
    }
    Ok(())
}
