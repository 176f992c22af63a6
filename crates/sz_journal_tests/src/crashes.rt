//! What a crash leaves of a disk in memory, by rows.
use crate::calls::{Step, succeeds};
use std::alloc::Global;
use sz_disk::MemDisk;

// What a disk holds, the calls on it that fail, the calls, and what a crash leaves by the choices 0 (no write since the last sync
// reached the disk), 1 (each one did) and 2 (each byte of them is 1).
type Row = (
    &'static [u8],
    &'static [u64],
    &'static [Step],
    [&'static [u8]; 3],
);

const ROWS: &[Row] = &[
    (b"ab", &[], &[], [b"ab", b"ab", b"ab"]),
    (
        b"abcd",
        &[],
        &[Step::Write(1, b"XY")],
        [b"abcd", b"aXYd", b"a\x01\x01d"],
    ),
    (
        b"ab",
        &[],
        &[Step::Write(1, b"XYZ")],
        [b"ab", b"aXYZ", b"a\x01\x01\x01"],
    ),
    (
        b"ab",
        &[],
        &[Step::Write(2, b"c"), Step::Sync],
        [b"abc", b"abc", b"abc"],
    ),
    (
        b"abcd",
        &[],
        &[Step::Write(0, b"X"), Step::Write(3, b"YZ")],
        [b"abcd", b"XbcYZ", b"\x01bc\x01\x01"],
    ),
    (
        b"ab",
        &[],
        &[Step::Write(0, b"X"), Step::Sync, Step::Write(1, b"Y")],
        [b"Xb", b"XY", b"X\x01"],
    ),
    (
        b"ab",
        &[],
        &[Step::Write(0, b"X"), Step::Sync, Step::Sync],
        [b"Xb", b"Xb", b"Xb"],
    ),
    // A sync that fails makes sure of nothing.
    (
        b"ab",
        &[1],
        &[Step::Write(2, b"c"), Step::Sync],
        [b"ab", b"abc", b"ab\x01"],
    ),
    (
        b"ab",
        &[1],
        &[Step::Write(2, b"c"), Step::Sync, Step::Sync],
        [b"abc", b"abc", b"abc"],
    ),
    // A write that fails may have written each of its bytes.
    (
        b"abcd",
        &[0],
        &[Step::Write(0, b"XYZ")],
        [b"abcd", b"Xbcd", b"\x01\x01\x01d"],
    ),
];

fn rows() -> &'static [Row] {
    ROWS
}

// The disk of a row after its calls, whatever they answer.
fn called(alloc: Global, row: &Row) -> Option<MemDisk> {
    let Ok(mut disk) = MemDisk::new(alloc, row.0, row.1) else {
        return None;
    };
    for step in row.2 {
        succeeds(&mut disk, step);
    }
    Some(disk)
}

// Whether a crash leaves of a row's disk what the row says, by each of the three choices.
fn leaves_as_told(alloc: Global, row: &Row) -> bool {
    for (pick, image) in row.3.iter().enumerate() {
        let Some(disk) = called(alloc, row) else {
            return false;
        };
        if disk.crash(pick as u64).bytes() != *image {
            return false;
        }
    }
    true
}

#[test]
fn a_crash_leaves_what_the_choice_says(rt: HostRuntime) {
    for (number, row) in rows().iter().enumerate() {
        let same = leaves_as_told(rt.alloc(), row);
        assert!(rt; same, "at row {}", number);
    }
}

const TWO_WRITES: Row = (
    b"abcdef",
    &[],
    &[Step::Write(1, b"X"), Step::Write(4, b"UVWXYZ")],
    [b"", b"", b""],
);

fn two_writes() -> Row {
    TWO_WRITES
}

// Whether an image may be left of the two writes: of 6 to 10 bytes, and as before at the places that no write went over.
fn may_be_left(image: &[u8]) -> bool {
    6 <= image.len()
        && image.len() <= 10
        && image[0] == b'a'
        && image[2] == b'c'
        && image[3] == b'd'
}

// How many of the first choices leave an image that neither of the simple ones is; none where an image may not be left.
fn mixed_images(alloc: Global) -> u32 {
    let mut mixed: u32 = 0;
    for pick in 3..60 {
        let Some(disk) = called(alloc, &two_writes()) else {
            return 0;
        };
        let crashed = disk.crash(pick);
        let image = crashed.bytes();
        if !may_be_left(image) {
            return 0;
        }
        if image != b"abcdef".as_slice() && image != b"aXcdUVWXYZ".as_slice() {
            mixed = mixed.saturating_add(1);
        }
    }
    mixed
}

#[test]
fn a_drawn_image_is_one_that_may_be_left(rt: HostRuntime) {
    assert!(rt; mixed_images(rt.alloc()) >= 40);
}

// Whether a disk that crashed is called anew: nothing fails, and what was left is synced.
fn begins_anew(alloc: Global) -> bool {
    let row: Row = (b"ab", &[0, 1], &[Step::Length], [b"", b"", b""]);
    let Some(disk) = called(alloc, &row) else {
        return false;
    };
    let mut crashed = disk.crash(1);
    succeeds(&mut crashed, &Step::Length)
        && succeeds(&mut crashed, &Step::Sync)
        && crashed.crash(0).bytes() == b"ab".as_slice()
}

#[test]
fn a_crashed_disk_begins_anew(rt: HostRuntime) {
    assert!(rt; begins_anew(rt.alloc()));
}
