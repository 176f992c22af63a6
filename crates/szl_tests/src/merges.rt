//! Command lines that merge files of saved tables, and what each leaves.
ghost use Rattle.std.specs.Prelude.{◌≡◌, [], IfOk};
ghost use Rattle.sz_io.specs.MemFiles.{names_opened};

use crate::command::{told, words_of};
use std::alloc::Global;
use std::sync::Wait;
use std::test::Fail;
use std::thread::Threads;
use sz_io::{MemFiles, MemSink, NoGate};
use szl::szl_main;

/// A sum of one emit, under a budget of 16 ticks.
const ONE: &[u8] = &[
    83, 90, 84, 65, 66, 76, 69, 49, 0, 0, 0, 0, 0, 0, 0, 16, 0, 0, 0, 1, 0, 0, 0, 1, 99, 0, 0, 0,
    0, 0, 0, 0, 0, 0, 2, 0, 0, 0, 0, 0, 0, 0, 0, 1, 0, 0, 0, 1, 0, 0, 0, 0, 0, 0, 0, 0, 0, 0, 0, 0,
    0, 0, 0, 1,
];

/// Twice this sum, under the bounds added.
const TWO: &[u8] = &[
    83, 90, 84, 65, 66, 76, 69, 49, 0, 0, 0, 0, 0, 0, 0, 32, 0, 0, 0, 1, 0, 0, 0, 1, 99, 0, 0, 0,
    0, 0, 0, 0, 0, 0, 2, 0, 0, 0, 0, 0, 0, 0, 0, 1, 0, 0, 0, 1, 0, 0, 0, 0, 0, 0, 0, 0, 0, 0, 0, 0,
    0, 0, 0, 2,
];

/// The first without its last byte.
const CUT: &[u8] = &[
    83, 90, 84, 65, 66, 76, 69, 49, 0, 0, 0, 0, 0, 0, 0, 16, 0, 0, 0, 1, 0, 0, 0, 1, 99, 0, 0, 0,
    0, 0, 0, 0, 0, 0, 2, 0, 0, 0, 0, 0, 0, 0, 0, 1, 0, 0, 0, 1, 0, 0, 0, 0, 0, 0, 0, 0, 0, 0, 0, 0,
    0, 0, 0,
];

/// The first with another name.
const NAMED: &[u8] = &[
    83, 90, 84, 65, 66, 76, 69, 49, 0, 0, 0, 0, 0, 0, 0, 16, 0, 0, 0, 1, 0, 0, 0, 1, 100, 0, 0, 0,
    0, 0, 0, 0, 0, 0, 2, 0, 0, 0, 0, 0, 0, 0, 0, 1, 0, 0, 0, 1, 0, 0, 0, 0, 0, 0, 0, 0, 0, 0, 0, 0,
    0, 0, 0, 1,
];

/// The first with the greatest bound.
const GREAT: &[u8] = &[
    83, 90, 84, 65, 66, 76, 69, 49, 128, 0, 0, 0, 0, 0, 0, 0, 0, 0, 0, 1, 0, 0, 0, 1, 99, 0, 0, 0,
    0, 0, 0, 0, 0, 0, 2, 0, 0, 0, 0, 0, 0, 0, 0, 1, 0, 0, 0, 1, 0, 0, 0, 0, 0, 0, 0, 0, 0, 0, 0, 0,
    0, 0, 0, 1,
];

/// The files: a sum as `a`, the same cut as `cut`, with another name as `named` and with the greatest bound as `great`; no bytes as `empty`; and the
/// sum again as `unread`, a read of which fails. There is no other file.
fn files_of(alloc: Global) -> Result<MemFiles, Fail>
    ensures { IfOk result (λ files. names_opened files ≡ []) }
{
    let mut files = MemFiles::new(alloc)?;
    files.put("a", ONE, &[])?;
    files.put("cut", CUT, &[])?;
    files.put("named", NAMED, &[])?;
    files.put("great", GREAT, &[])?;
    files.put("empty", &[], &[])?;
    files.put("unread", ONE, &[1])?;
    Ok(files)
}

/// What a command line leaves, as a row says it.
fn left<R: Threads + Wait + Sync>(rt: &R, alloc: Global, line: &str) -> Result<String, Fail> {
    let words = words_of(alloc, line)?;
    let mut files = files_of(alloc)?;
    let mut out = MemSink::new(alloc, 5, &[])?;
    let mut err = MemSink::new(alloc, 4, &[])?;
    let status = szl_main(rt, alloc, &words, &mut files, &mut out, &mut err, &NoGate);
    told(alloc, status.code(), out.bytes(), err.bytes())
}

/// Command lines, and what they leave.
const MERGES: &[(&str, &str)] = &[
    ("merge a", "0 c[] = 1¶"),
    ("merge a a", "0 c[] = 2¶"),
    ("merge a a a", "0 c[] = 3¶"),
    ("merge -- a a", "0 c[] = 2¶"),
    ("merge great", "0 c[] = 1¶"),
    ("merge a cut", "10 ! bad tables in file 2"),
    ("merge a empty", "10 ! bad tables in file 2"),
    ("merge cut a", "10 ! bad tables in file 1"),
    ("merge empty", "10 ! bad tables in file 1"),
    ("merge a named", "11 ! other tables in file 2"),
    ("merge a a named", "11 ! other tables in file 3"),
    ("merge a named cut", "11 ! other tables in file 2"),
    ("merge a cut named", "10 ! bad tables in file 2"),
    ("merge a great", "12 ! table limit in file 2"),
    ("merge great a", "12 ! table limit in file 2"),
    ("merge great named", "11 ! other tables in file 2"),
    ("merge a none", "5 ! read failed"),
    ("merge none a", "5 ! read failed"),
    ("merge a unread", "5 ! read failed"),
    ("merge cut none", "10 ! bad tables in file 1"),
    ("merge a named unread", "11 ! other tables in file 2"),
    ("merge", "1 ! bad command line"),
    ("merge - -", "1 ! bad command line"),
    ("merge a --workers 2", "1 ! bad command line"),
];

#[test]
fn files_are_merged(rt: HostRuntime) -> Result<(), Fail> {
    for (line, wanted) in MERGES {
        let left = left(&rt, rt.alloc(), line)?;
        assert_eq!(&rt; left.as_str(), *wanted, "at {line}");
    }
    Ok(())
}

/// Whether a command line writes these bytes, with status 0.
fn writes<R: Threads + Wait + Sync>(
    rt: &R,
    alloc: Global,
    line: &str,
    bytes: &[u8],
) -> Result<bool, Fail> {
    let words = words_of(alloc, line)?;
    let mut files = files_of(alloc)?;
    let mut out = MemSink::new(alloc, 5, &[])?;
    let mut err = MemSink::new(alloc, 4, &[])?;
    let status = szl_main(rt, alloc, &words, &mut files, &mut out, &mut err, &NoGate);
    Ok(status.code() == 0 && out.bytes() == bytes && err.bytes().is_empty())
}

#[test]
fn merged_files_are_saved_again(rt: HostRuntime) -> Result<(), Fail> {
    assert!(&rt; writes(&rt, rt.alloc(), "merge a --save", ONE)?);
    assert!(&rt; writes(&rt, rt.alloc(), "merge a a --save", TWO)?);
    assert!(&rt; writes(&rt, rt.alloc(), "merge --save great", GREAT)?);
    Ok(())
}
