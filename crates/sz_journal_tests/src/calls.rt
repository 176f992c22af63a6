//! Calls of a disk in memory, by rows.
use std::alloc::Global;
use sz_disk::{Disk, MemDisk};
use sz_io::{Failed, OutsideError};

/// A call on a disk.
pub enum Step {
    Length,
    /// From a place on, so many bytes, of which there are at most 4.
    Read(u64, usize),
    Write(u64, &'static [u8]),
    Sync,
}

// Reads bytes that are there. What isn't there is not read.
fn read(disk: &mut MemDisk, at: u64, count: usize, into: &mut [u8; 4]) -> Result<(), Failed> {
    let held = disk.bytes().len() as u64;
    if count > 4 || at > held || count as u64 > held - at {
        return Err(Failed);
    }
    disk.read_at(at, &mut into[..count])
}

// Writes at a place that is there.
fn write(disk: &mut MemDisk, at: u64, written: &[u8]) -> Result<(), OutsideError> {
    if at > disk.bytes().len() as u64 {
        return Err(OutsideError::NoMemory);
    }
    disk.write_at(at, written)
}

/// Whether the call succeeds.
pub fn succeeds(disk: &mut MemDisk, step: &Step) -> bool {
    match step {
        Step::Length => disk.length().is_ok(),
        Step::Read(at, count) => read(disk, *at, *count, &mut [0; 4]).is_ok(),
        Step::Write(at, written) => write(disk, *at, *written).is_ok(),
        Step::Sync => disk.sync().is_ok(),
    }
}

// What a disk holds, the calls on it that fail, the calls, which of them succeed, and what a read gives then.
type Row = (
    &'static [u8],
    &'static [u64],
    &'static [Step],
    &'static [bool],
    &'static [u8],
);

const ROWS: &[Row] = &[
    (
        b"ab",
        &[],
        &[Step::Length, Step::Sync],
        &[true, true],
        b"ab",
    ),
    (
        b"abcd",
        &[],
        &[Step::Read(1, 3), Step::Read(4, 0)],
        &[true, true],
        b"abcd",
    ),
    (b"abcd", &[], &[Step::Write(1, b"XY")], &[true], b"aXYd"),
    (
        b"ab",
        &[],
        &[Step::Write(2, b"cd"), Step::Write(4, b"")],
        &[true, true],
        b"abcd",
    ),
    (
        b"",
        &[],
        &[Step::Write(0, b"a"), Step::Write(0, b"bc")],
        &[true, true],
        b"bc",
    ),
    (
        b"ab",
        &[0],
        &[Step::Length, Step::Length],
        &[false, true],
        b"ab",
    ),
    (
        b"ab",
        &[1, 0],
        &[Step::Read(0, 2), Step::Read(0, 2), Step::Read(0, 2)],
        &[false, false, true],
        b"ab",
    ),
    // A write that fails has written the first half.
    (
        b"abcd",
        &[0],
        &[Step::Write(0, b"WXYZ"), Step::Write(3, b"!")],
        &[false, true],
        b"WXc!",
    ),
    (
        b"ab",
        &[1],
        &[Step::Write(0, b"X"), Step::Sync, Step::Sync],
        &[true, false, true],
        b"Xb",
    ),
];

fn rows() -> &'static [Row] {
    ROWS
}

// Whether the calls of a row succeed and fail as it says, and leave what it says.
fn goes_as_told(alloc: Global, row: &Row) -> bool {
    let (held, fails, steps, answers, after) = *row;
    let Ok(mut disk) = MemDisk::new(alloc, held, fails) else {
        return false;
    };
    for (step, answer) in steps.iter().zip(answers) {
        if succeeds(&mut disk, step) != *answer {
            return false;
        }
    }
    disk.bytes() == after
}

#[test]
fn calls_fail_where_the_list_says_so(rt: HostRuntime) {
    for (number, row) in rows().iter().enumerate() {
        let same = goes_as_told(rt.alloc(), row);
        assert!(rt; same, "at row {}", number);
    }
}

// Whether a disk tells its length and its bytes.
fn tells_what_it_holds(alloc: Global) -> bool {
    let Ok(mut disk) = MemDisk::new(alloc, b"abcdef", &[]) else {
        return false;
    };
    let mut into = [0; 4];
    disk.length() == Ok(6) && read(&mut disk, 1, 4, &mut into).is_ok() && &into == b"bcde"
}

#[test]
fn a_read_gives_what_is_held(rt: HostRuntime) {
    assert!(rt; tells_what_it_holds(rt.alloc()));
}
