//! Jobs that are resumed on the disk that earlier calls left.
use crate::command::{COUNT, Given, THREE_ROUNDS, bytes_of, left_by};
use std::alloc::Global;
use std::process::Abort;
use std::sync::Wait;
use std::test::Fail;
use std::thread::Threads;
use sz_disk::MemDisk;
use sz_io::NoGate;

/// What the job of three rounds leaves.
const ALL: &str = "0 c[] = 10000¶";

const OTHER_JOB: &str = "14 ! other job in journal";

/// The job of three rounds with other words.
fn with_words(words: &str) -> Given<'_> {
    Given {
        words,
        ..THREE_ROUNDS
    }
}

/// A disk that holds the bytes that a text writes.
fn disk_of(alloc: Global, written: &str) -> Result<MemDisk, Fail> {
    let held = bytes_of(alloc, written)?;
    Ok(MemDisk::new(alloc, held.as_slice(), &[])?)
}

/// Fails where a command line leaves something else.
fn leaves<R: Abort + Threads + Wait + Sync>(
    rt: &R,
    alloc: Global,
    disk: &mut MemDisk,
    given: Given<'_>,
    wanted: &str,
) -> Result<(), Fail> {
    let left = left_by(rt, alloc, &given, &NoGate, disk)?;
    assert!(rt; left.as_str() == wanted, "{} left {left}", given.words);
    Ok(())
}

#[test]
fn a_job_that_is_done_is_not_run_again(rt: HostRuntime) -> Result<(), Fail> {
    let mut disk = disk_of(rt.alloc(), "")?;
    leaves(&rt, rt.alloc(), &mut disk, THREE_ROUNDS, ALL)?;
    leaves(&rt, rt.alloc(), &mut disk, THREE_ROUNDS, ALL)?;
    for words in [
        "resume p f --shard 1 --workers 1",
        "resume --shard=1 --workers 64 -- p f",
        "run p f --shard 1",
    ] {
        leaves(&rt, rt.alloc(), &mut disk, with_words(words), ALL)?;
    }
    Ok(())
}

#[test]
fn a_journal_of_another_job_is_refused(rt: HostRuntime) -> Result<(), Fail> {
    let mut disk = disk_of(rt.alloc(), "")?;
    leaves(&rt, rt.alloc(), &mut disk, THREE_ROUNDS, ALL)?;
    for words in [
        "resume p f --shard 2",
        "resume p f --shard 1 --skip 1",
        "resume p f --shard 1 --ignore-undefs",
        "resume p f --shard 1 --budget 9",
        "resume p f --shard 1 --attempts 2",
        "resume p f --shard 1 --kill 1.0.0",
        "resume p f --shard 1 --twice 1",
        "resume p f --shard 1 --frame delimited",
    ] {
        leaves(&rt, rt.alloc(), &mut disk, with_words(words), OTHER_JOB)?;
    }
    let other = Given {
        program: "c: table sum of int; c2: table sum of int;",
        ..THREE_ROUNDS
    };
    leaves(&rt, rt.alloc(), &mut disk, other, OTHER_JOB)?;
    leaves(&rt, rt.alloc(), &mut disk, THREE_ROUNDS, ALL)
}

#[test]
fn a_journal_is_empty_or_damaged_or_goes_on(rt: HostRuntime) -> Result<(), Fail> {
    let mut damaged = disk_of(rt.alloc(), "\\x01\\x00")?;
    let line = "15 ! journal damaged at byte 0";
    leaves(&rt, rt.alloc(), &mut damaged, THREE_ROUNDS, line)?;
    for empty in ["\\x01", "\\x00\\xff", "\\x00", "\\x07\\x07\\x07"] {
        let mut disk = disk_of(rt.alloc(), empty)?;
        leaves(&rt, rt.alloc(), &mut disk, THREE_ROUNDS, ALL)?;
        leaves(&rt, rt.alloc(), &mut disk, THREE_ROUNDS, ALL)?;
    }
    Ok(())
}

// The journal is damaged, but what is wrong before it is opened comes first.
#[test]
fn what_is_wrong_before_the_journal_comes_first(rt: HostRuntime) -> Result<(), Fail> {
    let mut disk = disk_of(rt.alloc(), "\\x01\\x00")?;
    for words in ["resume p", "resume p f --save", "resume - -"] {
        let line = "1 ! bad command line";
        leaves(&rt, rt.alloc(), &mut disk, with_words(words), line)?;
    }
    let refused = Given {
        program: "static s: int = 1 +;",
        ..THREE_ROUNDS
    };
    let line = "2 ! program: syntax at 1:1";
    leaves(&rt, rt.alloc(), &mut disk, refused, line)?;
    let faults = Given {
        program: "f: function(n: int): int { return f(n); } static s: int = f(1);",
        ..THREE_ROUNDS
    };
    let line = "3 ! record 0: calls too deep at 1:35";
    leaves(&rt, rt.alloc(), &mut disk, faults, line)?;
    let types = Given {
        words: "resume p f --proto q",
        proto: "message M {",
        ..THREE_ROUNDS
    };
    let line = "13 ! proto file: syntax at 1:1";
    leaves(&rt, rt.alloc(), &mut disk, types, line)
}

#[test]
fn an_input_has_what_its_rounds_say(rt: HostRuntime) -> Result<(), Fail> {
    let mut disk = disk_of(rt.alloc(), "")?;
    leaves(&rt, rt.alloc(), &mut disk, THREE_ROUNDS, ALL)?;
    // The gate of the job is at 0 and those of its rounds at 123, 224 and 325: a job with this program has 114 bytes, and a round with one sum 92.
    let short = Given {
        count: 9_999,
        ..THREE_ROUNDS
    };
    let line = "15 ! journal damaged at byte 325";
    leaves(&rt, rt.alloc(), &mut disk, short, line)?;
    let longer = Given {
        count: 10_001,
        ..THREE_ROUNDS
    };
    leaves(&rt, rt.alloc(), &mut disk, longer, "0 c[] = 10001¶")
}

/// A job that ends so is resumed on the disk that it left, and ends so again.
fn ends_so<R: Abort + Threads + Wait + Sync>(
    rt: &R,
    alloc: Global,
    given: Given<'_>,
    wanted: &str,
) -> Result<(), Fail> {
    let mut disk = disk_of(alloc, "")?;
    leaves(rt, alloc, &mut disk, given, wanted)?;
    leaves(rt, alloc, &mut disk, given, wanted)
}

#[test]
fn a_job_with_a_record_that_faults_ends_so_again(rt: HostRuntime) -> Result<(), Fail> {
    let faults = Given {
        later: "x\n1\n",
        ..THREE_ROUNDS
    };
    let wanted = "3 ! record 10001: undefined value used at 3:1";
    ends_so(&rt, rt.alloc(), faults, wanted)
}

#[test]
fn a_job_with_a_lost_shard_ends_so_again(rt: HostRuntime) -> Result<(), Fail> {
    let kills = with_words("resume p f --shard 1 --attempts 1 --kill 9000.0.0");
    ends_so(&rt, rt.alloc(), kills, "7 ! shard 9000 lost")
}

#[test]
fn a_job_with_a_damaged_input_ends_so_again(rt: HostRuntime) -> Result<(), Fail> {
    let damaged = Given {
        words: "resume p f --shard 1 --frame delimited",
        part: "\\x011",
        later: "\\x05ab",
        ..THREE_ROUNDS
    };
    ends_so(&rt, rt.alloc(), damaged, "4 ! input damaged at byte 20000")
}

#[test]
fn a_job_whose_last_line_has_no_end_ends_so_again(rt: HostRuntime) -> Result<(), Fail> {
    let unended = Given {
        later: "1",
        ..THREE_ROUNDS
    };
    ends_so(&rt, rt.alloc(), unended, "0 c[] = 10001¶")
}

#[test]
fn a_job_counts_the_records_that_it_passed_over(rt: HostRuntime) -> Result<(), Fail> {
    let skips = Given {
        words: "resume p f --shard 1 --skip 2",
        front: "x\n",
        later: "x\n1\nx\n",
        ..THREE_ROUNDS
    };
    let wanted = "3 ! record 10004: undefined value used at 3:1";
    ends_so(&rt, rt.alloc(), skips, wanted)
}

// A round ends where a shard does, and that is rarely where a piece does.
#[test]
fn rounds_end_within_pieces(rt: HostRuntime) -> Result<(), Fail> {
    let large = Given {
        words: "resume p f --shard 10 --workers 2",
        part: "12345\n",
        count: 60_000,
        ..THREE_ROUNDS
    };
    let mut disk = disk_of(rt.alloc(), "")?;
    leaves(&rt, rt.alloc(), &mut disk, large, "0 c[] = 60000¶")?;
    leaves(&rt, rt.alloc(), &mut disk, large, "0 c[] = 60000¶")
}

// An input whose rounds are done may go on.
#[test]
fn an_input_that_grew_is_run_on(rt: HostRuntime) -> Result<(), Fail> {
    let none = Given {
        count: 0,
        program: COUNT,
        ..THREE_ROUNDS
    };
    let mut disk = disk_of(rt.alloc(), "")?;
    leaves(&rt, rt.alloc(), &mut disk, none, "0")?;
    leaves(&rt, rt.alloc(), &mut disk, none, "0")?;
    leaves(&rt, rt.alloc(), &mut disk, THREE_ROUNDS, ALL)
}
