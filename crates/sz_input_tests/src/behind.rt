//! Files that are read on behind some of their records.
use crate::ends::end_at;
use crate::records::Limits::{self, Full, Short, Small};
use crate::records::{are, fed, limits_of};
use std::alloc::Global;
use sz_records::Ending::{self, Damaged, Limit, Whole};
use sz_records::{Framer, Records};
use sz_types::Frame::{self, Delimited, Lines};

// A file under a frame and limits, and so many of its bytes, which so many records take.
type Front = (Frame, Limits, &'static [u8], usize, u64);

// The records behind them, where these end in the file, and its ending.
type Row = (Front, &'static [&'static [u8]], &'static [u64], Ending);

const ROWS: &[Row] = &[
    (
        (Lines, Full, b"ab\ncd\ne", 0, 0),
        &[b"ab", b"cd", b"e"],
        &[3, 6, 7],
        Whole,
    ),
    (
        (Lines, Full, b"ab\ncd\ne", 3, 1),
        &[b"cd", b"e"],
        &[6, 7],
        Whole,
    ),
    ((Lines, Full, b"ab\ncd\ne", 6, 2), &[b"e"], &[7], Whole),
    ((Lines, Full, b"ab\ncd\ne", 7, 3), &[], &[], Whole),
    (
        (Lines, Full, b"a\n\n\nb\n", 3, 2),
        &[b"", b"b"],
        &[4, 6],
        Whole,
    ),
    ((Lines, Small, b"a\nb\nc\n", 2, 1), &[b"b"], &[4], Limit(4)),
    ((Lines, Small, b"a\nb\nc\n", 4, 2), &[], &[], Limit(4)),
    ((Lines, Small, b"a\nb\n", 4, 2), &[], &[], Whole),
    ((Lines, Small, b"a\nabcde", 2, 1), &[], &[], Limit(2)),
    ((Lines, Short, b"ab\ncde\n", 3, 1), &[], &[], Limit(3)),
    ((Lines, Short, b"ab\ncde", 3, 1), &[b"cde"], &[6], Whole),
    ((Lines, Short, b"ab\ncd\ne", 6, 2), &[], &[], Limit(6)),
    (
        (Delimited, Full, b"\x01a\x02bc\x00", 2, 1),
        &[b"bc", b""],
        &[5, 6],
        Whole,
    ),
    (
        (Delimited, Full, b"\x01a\x82\x00bc\x00", 6, 2),
        &[b""],
        &[7],
        Whole,
    ),
    ((Delimited, Full, b"\x01a\x02bc\x00", 6, 3), &[], &[], Whole),
    (
        (Delimited, Full, b"\x011\x05ab", 2, 1),
        &[],
        &[],
        Damaged(2),
    ),
    (
        (Delimited, Full, b"\x011\x00\x80", 2, 1),
        &[b""],
        &[3],
        Damaged(3),
    ),
    (
        (
            Delimited,
            Full,
            b"\x00\xff\xff\xff\xff\xff\xff\xff\xff\xff\xff",
            1,
            1,
        ),
        &[],
        &[],
        Damaged(1),
    ),
    (
        (Delimited, Full, b"\x00\x81\x80\x80\x02\x00", 1, 1),
        &[],
        &[],
        Limit(1),
    ),
    (
        (Delimited, Small, b"\x00\x00\x00", 1, 1),
        &[b""],
        &[2],
        Limit(2),
    ),
    (
        (Delimited, Small, b"\x00\x00\x00", 2, 2),
        &[],
        &[],
        Limit(2),
    ),
    (
        (Delimited, Short, b"\x02ab\x03cde", 3, 1),
        &[],
        &[],
        Limit(3),
    ),
    (
        (Delimited, Short, b"\x02ab\x02cd", 3, 1),
        &[b"cd"],
        &[6],
        Whole,
    ),
];

fn rows() -> &'static [Row] {
    ROWS
}

// Whether a file that comes in such pieces goes on as its row says.
fn holds(alloc: Global, row: &Row, step: u8) -> bool {
    let ((frame, limits, file, bytes, count), wanted, ends, end) = *row;
    let limits = limits_of(limits);
    let Some(rest) = file.get(bytes..) else {
        return false;
    };
    if bytes as u64 > limits.input_bytes || count > limits.records {
        return false;
    }
    let mut framer = Framer::behind(alloc, frame, limits, bytes as u64, count);
    let mut records = Records::new(alloc);
    let ending = fed(&mut framer, &mut records, rest, step);
    ending == Ok(end) && are(&records, wanted) && end_at(&records, ends)
}

#[test]
fn files_go_on_behind_their_records_however_they_come(rt: HostRuntime) {
    for row in rows() {
        for step in 0..=11 {
            let same = holds(rt.alloc(), row, step);
            assert!(rt; same, "at {:?}, {step}", row.0.2);
        }
    }
}
