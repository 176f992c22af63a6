//! Where records end in their files.
use crate::records::fed;
use std::alloc::Global;
use sz_records::{FrameLimits, Framer, NoMemory, Records};
use sz_types::Frame::{self, Delimited, Lines};

// A file under a frame, and where its records end.
type Row = (Frame, &'static [u8], &'static [u64]);

const ROWS: &[Row] = &[
    (Lines, b"", &[]),
    (Lines, b"\n", &[1]),
    (Lines, b"a", &[1]),
    (Lines, b"ab\ncd\n", &[3, 6]),
    (Lines, b"ab\ncd", &[3, 5]),
    (Lines, b"a\r\n\r\nb", &[3, 5, 6]),
    (Lines, b"\n\n\n", &[1, 2, 3]),
    (Lines, b"a\n\n\nb\n\n", &[2, 3, 4, 6, 7]),
    (Delimited, b"", &[]),
    (Delimited, b"\x00", &[1]),
    (Delimited, b"\x01a\x02bc\x00", &[2, 5, 6]),
    // Lengths of more bytes than they need.
    (
        Delimited,
        b"\x81\x00a\x01b\x82\x80\x00cd\x01e",
        &[3, 5, 10, 12],
    ),
    // A file that is damaged behind its first record.
    (Delimited, b"\x01a\x05bc", &[2]),
    (Delimited, b"\x01a\x80", &[2]),
];

fn rows() -> &'static [Row] {
    ROWS
}

// Whether records end at these places.
pub(crate) fn end_at(records: &Records, wanted: &[u64]) -> bool {
    if records.len() != wanted.len() {
        return false;
    }
    for (i, end) in wanted.iter().enumerate() {
        if records.end(i) != *end {
            return false;
        }
    }
    true
}

// Whether the records of a file that comes in such pieces end where its row says.
fn holds(alloc: Global, row: &Row, step: u8) -> bool {
    let (frame, file, wanted) = *row;
    let mut framer = Framer::new(alloc, frame, FrameLimits::FULL);
    let mut records = Records::new(alloc);
    let ending = fed(&mut framer, &mut records, file, step);
    ending.is_ok() && end_at(&records, wanted)
}

#[test]
fn records_end_where_they_do_however_they_come(rt: HostRuntime) {
    for row in rows() {
        for step in [0, 1, 2, 255] {
            let same = holds(rt.alloc(), row, step);
            assert!(rt; same, "at {:?}, {step}", row.1);
        }
    }
}

// Messages by their lengths, as they are written and as numbers, and where each ends.
const MESSAGES: &[(&[u8], usize)] = &[
    (b"\x7f", 127),
    (b"\x80\x01", 128),
    (b"\x00", 0),
    (b"\xac\x02", 300),
    (b"\x05", 5),
    (b"\x80\x80\x01", 16_384),
];

const MESSAGE_ENDS: &[u64] = &[128, 258, 259, 561, 567, 16_954];

fn messages() -> &'static [(&'static [u8], usize)] {
    MESSAGES
}

fn message_ends() -> &'static [u64] {
    MESSAGE_ENDS
}

// Feeds the messages, each length and each message as a piece.
fn feed_messages(framer: &mut Framer, records: &mut Records, bytes: &[u8]) -> Result<(), NoMemory> {
    for (head, len) in messages() {
        framer.feed(head, records)?;
        framer.feed(bytes.get(..*len).unwrap_or(bytes), records)?;
    }
    Ok(())
}

// Whether the messages end where they do, also when so many of them were cleared.
fn messages_end(alloc: Global, cleared: usize) -> bool {
    let Ok(bytes) = vec![in alloc; 7u8; 16_384] else {
        return false;
    };
    let mut framer = Framer::new(alloc, Delimited, FrameLimits::FULL);
    let mut records = Records::new(alloc);
    let added = feed_messages(&mut framer, &mut records, &bytes);
    if cleared <= records.len() {
        records.clear(cleared);
    }
    let left = message_ends().get(cleared..).unwrap_or(&[]);
    added.is_ok() && end_at(&records, left)
}

#[test]
fn messages_end_where_they_do_whichever_are_cleared(rt: HostRuntime) {
    for cleared in 0..=messages().len() {
        let same = messages_end(rt.alloc(), cleared);
        assert!(rt; same, "with {cleared} cleared");
    }
}

// Feeds two files into one list of records.
fn feed_two(alloc: Global, records: &mut Records) -> Result<(), NoMemory> {
    let mut first = Framer::new(alloc, Lines, FrameLimits::FULL);
    first.feed(b"ab\nc", records)?;
    first.finish(records)?;
    let mut second = Framer::new(alloc, Lines, FrameLimits::FULL);
    second.feed(b"xyz\nw\n", records)?;
    Ok(())
}

// Whether each record ends where it does in its own file.
fn two_files_end(alloc: Global) -> bool {
    let mut records = Records::new(alloc);
    let added = feed_two(alloc, &mut records);
    added.is_ok() && end_at(&records, &[3, 4, 4, 6])
}

#[test]
fn records_of_two_files_end_where_they_do_in_their_own(rt: HostRuntime) {
    assert!(rt; two_files_end(rt.alloc()));
}
