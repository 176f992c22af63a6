//! Files that are merged, one after the other.

use crate::joining::{has_text, is_written};
use crate::lists::{printed, stopped};
use crate::pairs::{joined, limit, other};
use crate::samples::{GREAT_BOUND, NO_SUMS, ONE_SUM};
use std::alloc::Global;
use std::test::Fail;
use sz_merge::{MergeError, Merging};
use sz_save::Saved;

// Why files aren't merged: the number of one of them, from 1, and its cause.
#[derive(Drop)]
struct Stopped {
    file: usize,
    cause: MergeError,
}

// What files hold together. No files at all count as want of memory.
fn merge(alloc: Global, files: &[&[u8]]) -> Result<Saved, Stopped> {
    let mut merging = Merging::new(alloc);
    for i in 0..files.len() {
        merging = match merging.add(alloc, files[i]) {
            Ok(more) => more,
            Err(cause) => return Err(Stopped { file: i + 1, cause }),
        };
    }
    finish(alloc, merging)
}

fn finish(alloc: Global, merging: Merging) -> Result<Saved, Stopped> {
    let none = Stopped {
        file: 0,
        cause: MergeError::NoMemory,
    };
    if merging.is_empty() {
        return Err(none);
    }
    match merging.finish(alloc) {
        Ok(all) => Ok(all),
        Err(_) => Err(none),
    }
}

// Whether merging the files comes to these bytes.
fn is_merged(alloc: Global, files: &[&[u8]], bytes: &[u8]) -> bool {
    match merge(alloc, files) {
        Ok(all) => is_written(alloc, &all, bytes),
        Err(_) => false,
    }
}

// Whether this is the text of what the files hold together.
fn is_printed(alloc: Global, files: &[&[u8]], text: &str) -> bool {
    match merge(alloc, files) {
        Ok(all) => has_text(alloc, &all, text),
        Err(_) => false,
    }
}

// The cause of a file, as a row writes it.
fn letter_of(cause: &MergeError) -> char {
    match cause {
        MergeError::BadTables => 'b',
        MergeError::OtherTables => 'o',
        MergeError::TablesLimit => 'l',
        MergeError::NoMemory => 'm',
    }
}

// Whether merging ends at the file with this number, for this cause.
fn is_stopped(alloc: Global, files: &[&[u8]], file: usize, cause: char) -> bool {
    match merge(alloc, files) {
        Ok(_) => false,
        Err(stopped) => stopped.file == file && letter_of(&stopped.cause) == cause,
    }
}

#[test]
fn two_files_are_merged_as_they_are_joined(rt: HostRuntime) -> Result<(), Fail> {
    for (what, one, second, bytes) in joined() {
        assert!(rt; is_merged(rt.alloc(), &[one, second], bytes), "at {what}");
        assert!(rt;
            is_merged(rt.alloc(), &[second, one], bytes),
            "at {what}, the other way"
        );
        assert!(rt; is_merged(rt.alloc(), &[bytes], bytes), "at {what}, alone");
    }
    Ok(())
}

#[test]
fn a_second_file_that_cant_be_joined_is_named(rt: HostRuntime) -> Result<(), Fail> {
    for (what, one, second) in other() {
        assert!(rt; is_stopped(rt.alloc(), &[one, second], 2, 'o'), "at {what}");
    }
    for (what, one, second) in limit() {
        assert!(rt; is_stopped(rt.alloc(), &[one, second], 2, 'l'), "at {what}");
    }
    Ok(())
}

// The sum of one emit without its last byte.
const CUT: &[u8] = &[
    83, 90, 84, 65, 66, 76, 69, 49, 0, 0, 0, 0, 0, 0, 0, 16, 0, 0, 0, 1, 0, 0, 0, 1, 99, 0, 0, 0,
    0, 0, 0, 0, 0, 0, 2, 0, 0, 0, 0, 0, 0, 0, 0, 1, 0, 0, 0, 1, 0, 0, 0, 0, 0, 0, 0, 0, 0, 0, 0, 0,
    0, 0, 0,
];

// The same with another name.
const NAMED: &[u8] = &[
    83, 90, 84, 65, 66, 76, 69, 49, 0, 0, 0, 0, 0, 0, 0, 16, 0, 0, 0, 1, 0, 0, 0, 1, 100, 0, 0, 0,
    0, 0, 0, 0, 0, 0, 2, 0, 0, 0, 0, 0, 0, 0, 0, 1, 0, 0, 0, 1, 0, 0, 0, 0, 0, 0, 0, 0, 0, 0, 0, 0,
    0, 0, 0, 1,
];

// The same with another name and the greatest bound.
const NAMED_GREAT: &[u8] = &[
    83, 90, 84, 65, 66, 76, 69, 49, 128, 0, 0, 0, 0, 0, 0, 0, 0, 0, 0, 1, 0, 0, 0, 1, 100, 0, 0, 0,
    0, 0, 0, 0, 0, 0, 2, 0, 0, 0, 0, 0, 0, 0, 0, 1, 0, 0, 0, 1, 0, 0, 0, 0, 0, 0, 0, 0, 0, 0, 0, 0,
    0, 0, 0, 1,
];

// The same with half the greatest bound.
const HALF: &[u8] = &[
    83, 90, 84, 65, 66, 76, 69, 49, 64, 0, 0, 0, 0, 0, 0, 0, 0, 0, 0, 1, 0, 0, 0, 1, 99, 0, 0, 0,
    0, 0, 0, 0, 0, 0, 2, 0, 0, 0, 0, 0, 0, 0, 0, 1, 0, 0, 0, 1, 0, 0, 0, 0, 0, 0, 0, 0, 0, 0, 0, 0,
    0, 0, 0, 1,
];

// Files, the number of the one at which merging them ends, and the letter of its cause.
const STOPPED: &[(&str, &[&[u8]], usize, char)] = &[
    ("no bytes", &[&[]], 1, 'b'),
    ("no bytes behind a file", &[ONE_SUM, &[]], 2, 'b'),
    ("a file that is cut", &[ONE_SUM, CUT], 2, 'b'),
    ("the first file is cut", &[CUT, ONE_SUM], 1, 'b'),
    (
        "the first file is cut, and the second has another name",
        &[CUT, NAMED],
        1,
        'b',
    ),
    ("another name", &[ONE_SUM, NAMED], 2, 'o'),
    (
        "the third file has another name than the first two",
        &[ONE_SUM, ONE_SUM, NAMED],
        3,
        'o',
    ),
    (
        "another name before a file that is cut",
        &[ONE_SUM, NAMED, CUT],
        2,
        'o',
    ),
    (
        "a file that is cut before another name",
        &[ONE_SUM, CUT, NAMED],
        2,
        'b',
    ),
    (
        "another name, and a bound that is too large",
        &[ONE_SUM, NAMED_GREAT],
        2,
        'o',
    ),
    ("a bound that is too large", &[ONE_SUM, GREAT_BOUND], 2, 'l'),
    (
        "the greatest bound, and then one of more",
        &[GREAT_BOUND, NO_SUMS, ONE_SUM],
        3,
        'l',
    ),
    (
        "half the greatest bound twice, and then one of more",
        &[HALF, HALF, ONE_SUM],
        3,
        'l',
    ),
    (
        "a bound that is too large before a file that is cut",
        &[GREAT_BOUND, ONE_SUM, CUT],
        2,
        'l',
    ),
    ("nothing, and another name", &[NO_SUMS, NAMED], 2, 'o'),
];

#[test]
fn the_first_file_that_cant_be_joined_is_named(rt: HostRuntime) -> Result<(), Fail> {
    for (what, files, file, cause) in STOPPED {
        assert!(rt; is_stopped(rt.alloc(), files, *file, *cause), "at {what}");
    }
    Ok(())
}

// Files, and the text of what they hold together.
const PRINTED: &[(&str, &[&[u8]], &str)] = &[
    ("one file", &[ONE_SUM], "c[] = 1\n"),
    ("a file twice", &[ONE_SUM, ONE_SUM], "c[] = 2\n"),
    ("no emits", &[NO_SUMS, NO_SUMS, NO_SUMS], ""),
    ("the greatest bound", &[GREAT_BOUND, NO_SUMS], "c[] = 1\n"),
    (
        "half the greatest bound twice",
        &[HALF, HALF, NO_SUMS],
        "c[] = 2\n",
    ),
    ("three files", &[ONE_SUM, NO_SUMS, ONE_SUM], "c[] = 2\n"),
    (
        "five files",
        &[ONE_SUM, ONE_SUM, ONE_SUM, ONE_SUM, ONE_SUM],
        "c[] = 5\n",
    ),
    (
        "seven files",
        &[
            ONE_SUM, ONE_SUM, NO_SUMS, ONE_SUM, ONE_SUM, ONE_SUM, ONE_SUM,
        ],
        "c[] = 6\n",
    ),
    ("sixty-four files", &[ONE_SUM; 64], "c[] = 64\n"),
];

#[test]
fn files_are_merged_however_many(rt: HostRuntime) -> Result<(), Fail> {
    for (what, files, text) in PRINTED {
        assert!(rt; is_printed(rt.alloc(), files, text), "at {what}");
    }
    Ok(())
}

#[test]
fn files_with_index_lists_are_merged(rt: HostRuntime) -> Result<(), Fail> {
    for (what, files, text) in printed() {
        assert!(rt; is_printed(rt.alloc(), files, text), "at {what}");
    }
    Ok(())
}

#[test]
fn a_file_with_index_lists_that_cant_be_joined_is_named(rt: HostRuntime) -> Result<(), Fail> {
    for (what, files, file, cause) in stopped() {
        assert!(rt; is_stopped(rt.alloc(), files, *file, *cause), "at {what}");
    }
    Ok(())
}
