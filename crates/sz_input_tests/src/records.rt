//! What no contract says of records: that calls succeed where there is memory, and that the definition is the one that was meant.
use crate::records::Limits::{Full, Short, Small};
use std::alloc::Global;
use sz_records::Ending::{Damaged, Limit, Whole};
use sz_records::{Ending, FrameLimits, Framer, NoMemory, Records, shard_end};
use sz_types::Frame::{self, Delimited, Lines};

// What a file may hold.
#[derive(Clone, Copy)]
pub(crate) enum Limits {
    Full,
    // A record of four bytes, two records.
    Small,
    // A record of four bytes, six bytes in all.
    Short,
}

pub(crate) fn limits_of(limits: Limits) -> FrameLimits {
    let (record_bytes, records, input_bytes) = match limits {
        Full => return FrameLimits::FULL,
        Small => (4, 2, 100),
        Short => (4, 9, 6),
    };
    FrameLimits {
        record_bytes,
        records,
        input_bytes,
    }
}

// A file under a frame and limits, its records, and its ending.
type Row = (
    Frame,
    Limits,
    &'static [u8],
    &'static [&'static [u8]],
    Ending,
);

const ROWS: &[Row] = &[
    (Lines, Full, b"", &[], Whole),
    (Lines, Full, b"a\n\r\n\nb", &[b"a", b"\r", b"", b"b"], Whole),
    (Lines, Small, b"a\nb\nc\n", &[b"a", b"b"], Limit(4)),
    (Lines, Small, b"a\nb\n", &[b"a", b"b"], Whole),
    (Lines, Small, b"abcd", &[b"abcd"], Whole),
    (Lines, Small, b"abcde", &[], Limit(0)),
    (Lines, Short, b"ab\ncde\n", &[b"ab"], Limit(3)),
    (Lines, Short, b"ab\ncde", &[b"ab", b"cde"], Whole),
    (Lines, Short, b"abcde\n", &[], Limit(0)),
    (Delimited, Full, b"", &[], Whole),
    (Delimited, Full, b"\x011\x05ab", &[b"1"], Damaged(2)),
    (Delimited, Full, b"\x80\x00", &[b""], Whole),
    (Delimited, Full, b"\x80", &[], Damaged(0)),
    (
        Delimited,
        Full,
        b"\xff\xff\xff\xff\xff\xff\xff\xff\xff\x01",
        &[],
        Limit(0),
    ),
    (
        Delimited,
        Full,
        b"\xff\xff\xff\xff\xff\xff\xff\xff\xff\xff",
        &[],
        Damaged(0),
    ),
    (
        Delimited,
        Full,
        b"\x02\x08\x05\x82\x00\x01\x02\x00",
        &[b"\x08\x05", b"\x01\x02", b""],
        Whole,
    ),
    (Delimited, Full, b"\x81\x80\x80\x02\x00", &[], Limit(0)),
    (Delimited, Small, b"\x05\x00", &[], Limit(0)),
    (Delimited, Small, b"\x00\x00\x00", &[b"", b""], Limit(2)),
    (Delimited, Small, b"\x00\x01", &[b""], Damaged(1)),
    (Delimited, Short, b"\x02ab\x03cde", &[b"ab"], Limit(3)),
    (Delimited, Short, b"\x02ab\x02cd", &[b"ab", b"cd"], Whole),
];

fn rows() -> &'static [Row] {
    ROWS
}

// The ending of a file that comes in pieces of so many bytes, and one byte more.
pub(crate) fn fed(
    framer: &mut Framer,
    records: &mut Records,
    file: &[u8],
    step: u8,
) -> Result<Ending, NoMemory> {
    for piece in file.chunks(usize::from(step) + 1) {
        framer.feed(piece, records)?;
    }
    framer.finish(records)
}

// Whether these are the records.
pub(crate) fn are(records: &Records, wanted: &[&[u8]]) -> bool {
    if records.len() != wanted.len() {
        return false;
    }
    for (i, bytes) in wanted.iter().enumerate() {
        if records.get(i) != *bytes {
            return false;
        }
    }
    true
}

// Whether a file that comes in such pieces is cut as its row says.
fn holds(alloc: Global, row: &Row, step: u8) -> bool {
    let (frame, limits, file, wanted, end) = *row;
    let mut framer = Framer::new(alloc, frame, limits_of(limits));
    let mut records = Records::new(alloc);
    let ending = fed(&mut framer, &mut records, file, step);
    ending == Ok(end) && are(&records, wanted)
}

#[test]
fn files_are_cut_however_they_come(rt: HostRuntime) {
    for row in rows() {
        for step in [0, 1, 2, 3, 255] {
            let same = holds(rt.alloc(), row, step);
            assert!(rt; same, "at {:?}, {step}", row.2);
        }
    }
}

// The beginning of a file under a frame and limits, and the ending that it fixes, if it does.
type Beginning = (Frame, Limits, &'static [u8], Option<Ending>);

const BEGINNINGS: &[Beginning] = &[
    (Lines, Small, b"a\nabcd", None),
    (Lines, Small, b"a\nabcde", Some(Limit(2))),
    (Lines, Small, b"a\nb\n", None),
    (Lines, Small, b"a\nb\nc", Some(Limit(4))),
    (Lines, Short, b"ab\ncde", None),
    (Lines, Short, b"ab\ncde\n", Some(Limit(3))),
    (
        Delimited,
        Full,
        b"\xff\xff\xff\xff\xff\xff\xff\xff\xff",
        None,
    ),
    (
        Delimited,
        Full,
        b"\xff\xff\xff\xff\xff\xff\xff\xff\xff\xff",
        Some(Damaged(0)),
    ),
    (Delimited, Small, b"\x00\x84", None),
    (Delimited, Small, b"\x00\x05", Some(Limit(1))),
    (Delimited, Small, b"\x00\x04abc", None),
    (Delimited, Short, b"\x02ab\x02c", None),
    (Delimited, Short, b"\x02ab\x03", Some(Limit(3))),
];

fn beginnings() -> &'static [Beginning] {
    BEGINNINGS
}

// Whether the bytes of a row fix the ending that it says, as soon as the last of them came.
fn fixes(alloc: Global, row: &Beginning) -> bool {
    let (frame, limits, bytes, ending) = *row;
    let mut framer = Framer::new(alloc, frame, limits_of(limits));
    let mut records = Records::new(alloc);
    framer.feed(bytes, &mut records) == Ok(ending)
}

#[test]
fn an_ending_is_answered_as_soon_as_the_bytes_fix_it(rt: HostRuntime) {
    for row in beginnings() {
        let same = fixes(rt.alloc(), row);
        assert!(rt; same, "at {:?}", row.2);
    }
}

const FILE: &[u8] = &[2, 8, 5, 130, 0, 18, 0, 0, 1, 10, 3, 97, 98, 99, 0];

fn file() -> &'static [u8] {
    FILE
}

// Whether the records are the same.
fn are_same(these: &Records, others: &Records) -> bool {
    if these.len() != others.len() {
        return false;
    }
    for i in 0..these.len() {
        if these.get(i) != others.get(i) {
            return false;
        }
    }
    true
}

// A framer of small records, with a length before each.
fn framer_of_small(alloc: Global) -> Framer {
    let limits = FrameLimits {
        record_bytes: 9,
        records: 99,
        input_bytes: 99,
    };
    Framer::new(alloc, Delimited, limits)
}

// Whether a file has the same records and ending in pieces of one byte as whole.
fn is_same_in_pieces(alloc: Global, file: &[u8]) -> bool {
    let mut whole = Records::new(alloc);
    let mut single = Records::new(alloc);
    let end = fed(&mut framer_of_small(alloc), &mut whole, file, 255);
    let ending = fed(&mut framer_of_small(alloc), &mut single, file, 0);
    end.is_ok() && ending == end && are_same(&whole, &single)
}

// Of how many bytes a beginning of the file is of which this isn't so, if there is one.
fn other_beginning(alloc: Global, file: &[u8]) -> Option<usize> {
    for len in 0..=file.len() {
        if !is_same_in_pieces(alloc, &file[..len]) {
            return Some(len);
        }
    }
    None
}

// Whether it is so with another byte at this place.
fn is_same_with(alloc: Global, file: &[u8], at: usize, byte: u8) -> bool {
    let Ok(mut changed) = Vec::from_slice(alloc, file) else {
        return false;
    };
    if at < changed.len() {
        changed[at] = byte;
    }
    is_same_in_pieces(alloc, &changed)
}

// A byte at a place of the file with which it isn't so, if there is one.
fn other_change(alloc: Global, file: &[u8]) -> Option<(usize, u8)> {
    for at in 0..file.len() {
        for byte in 0..=255u8 {
            if !is_same_with(alloc, file, at, byte) {
                return Some((at, byte));
            }
        }
    }
    None
}

#[test]
fn each_beginning_and_each_changed_byte_has_an_ending(rt: HostRuntime) {
    assert_eq!(rt; other_beginning(rt.alloc(), file()), None);
    assert_eq!(rt; other_change(rt.alloc(), file()), None);
}

// The ending of a file whose first record is cleared before the last is cut.
fn cleared(framer: &mut Framer, records: &mut Records) -> Result<Ending, NoMemory> {
    framer.feed(b"a\nb\nc", records)?;
    if !records.is_empty() {
        records.clear(1);
    }
    framer.finish(records)
}

fn clearing_leaves_the_others(alloc: Global) -> bool {
    let mut framer = Framer::new(alloc, Lines, FrameLimits::FULL);
    let mut records = Records::new(alloc);
    let ending = cleared(&mut framer, &mut records);
    ending == Ok(Whole) && are(&records, &[b"b", b"c"])
}

#[test]
fn cleared_records_leave_the_others(rt: HostRuntime) {
    assert!(rt; clearing_leaves_the_others(rt.alloc()));
}

const QUARTER: usize = 4_194_304;

// Where a shard begins, how many records it may have, whether no more come, and where it ends.
type Shard = (usize, u32, bool, Option<usize>);

const SHARDS_OF_FEW: &[Shard] = &[
    (0, 2, false, Some(2)),
    (2, 3, false, Some(5)),
    (3, 3, false, None),
    (3, 3, true, Some(5)),
    (5, 1, true, None),
    (6, 1, false, None),
];

const SHARDS_OF_HEAVY: &[Shard] = &[
    (0, 1000, false, Some(5)),
    (1, 1000, false, Some(5)),
    (2, 1000, false, None),
    (2, 1000, true, Some(6)),
    (0, 3, false, Some(3)),
];

// The lengths of records, and shards of them.
const SHARDS: &[(&[usize], &[Shard])] = &[
    (&[0, 1, 0, 2, 3], SHARDS_OF_FEW),
    (&[1, QUARTER, QUARTER, QUARTER, QUARTER, 1], SHARDS_OF_HEAVY),
];

fn shards() -> &'static [(&'static [usize], &'static [Shard])] {
    SHARDS
}

// Adds lines of these lengths to a file.
fn add_lines(
    framer: &mut Framer,
    records: &mut Records,
    line: &[u8],
    lengths: &[usize],
) -> Result<(), NoMemory> {
    for len in lengths {
        framer.feed(line.get(..*len).unwrap_or(line), records)?;
        framer.feed(b"\n", records)?;
    }
    Ok(())
}

// Whether a shard ends where its row says.
fn ends(records: &Records, row: &Shard) -> bool {
    let (from, most, at_end, end) = *row;
    most >= 1 && shard_end(records, from, most, at_end) == end
}

// Whether each does.
fn all_end(records: &Records, rows: &[Shard]) -> bool {
    for row in rows {
        if !ends(records, row) {
            return false;
        }
    }
    true
}

// Whether the shards of records of these lengths end where their rows say.
fn have_shards(alloc: Global, lengths: &[usize], rows: &[Shard]) -> bool {
    let Ok(line) = vec![in alloc; 7u8; QUARTER] else {
        return false;
    };
    let mut framer = Framer::new(alloc, Lines, FrameLimits::FULL);
    let mut records = Records::new(alloc);
    let added = add_lines(&mut framer, &mut records, &line, lengths);
    added.is_ok() && all_end(&records, rows)
}

#[test]
fn shards_end_at_a_count_or_with_the_bytes(rt: HostRuntime) {
    for (lengths, rows) in shards() {
        let same = have_shards(rt.alloc(), lengths, rows);
        assert!(rt; same, "with {lengths:?}");
    }
}
