//! Worked transfers over the devices in memory and over real ones.
ghost use Rattle.std.specs.Prelude.{◌≡◌, ◌≤◌, []};
ghost use Rattle.sz_io.specs.MemFiles.{names_opened};
ghost use Rattle.sz_io.specs.SureFiles.{sure_names};

use std::alloc::Global;
use std::fs;
use std::io::{self, BufWriter, Read, Write};
use sz_io::{
    Failed, Files, Gate, MemFiles, MemSink, NoGate, OsFiles, OsSink, ReadError, SureFiles,
    SureSink, WriteError, read_whole, write_whole,
};

// A file under the name `p`, the call on it that fails, the name that is read, the most bytes that it may have, and why they aren't
// read, if they aren't.
type Reading<'a> = (&'a [u8], u64, &'a str, usize, Option<ReadError>);

const READINGS: &[Reading<'static>] = &[
    // The call that is to fail is never made.
    (b"three", 3, "p", 5, None),
    (b"three", 9, "p", 6, None),
    (b"three", 9, "p", usize::MAX, None),
    (b"", 2, "p", 0, None),
    (b"three", 9, "p", 4, Some(ReadError::TooLong)),
    (b"three", 9, "p", 0, Some(ReadError::TooLong)),
    (b"three", 0, "p", 5, Some(ReadError::Failed)),
    (b"three", 1, "p", 5, Some(ReadError::Failed)),
    (b"three", 2, "p", 5, Some(ReadError::Failed)),
    (b"three", 9, "q", 5, Some(ReadError::Failed)),
];

fn readings() -> &'static [Reading<'static>] {
    READINGS
}

// Whether a name is read as it should be: just these bytes, or this error.
fn reads<F: Files>(
    alloc: Global,
    files: &mut F,
    name: &str,
    limit: usize,
    wanted: Result<&[u8], ReadError>,
) -> bool
    requires { F.names files.old ≡ [] }
{
    match read_whole(alloc, files, name, limit) {
        Ok(read) => wanted == Ok(read.as_slice()),
        Err(error) => wanted == Err(error),
    }
}

// Whether the file of a row is put among no others, and read as the row says.
fn puts_and_reads(alloc: Global, files: &mut MemFiles, row: &Reading<'_>) -> bool
    requires { names_opened files.old ≡ [] }
{
    let (bytes, fails, name, limit, cause) = *row;
    let wanted = match cause {
        Some(error) => Err(error),
        None => Ok(bytes),
    };
    files.put("p", bytes, &[fails]).is_ok() && reads(alloc, files, name, limit, wanted)
}

// Whether a file is read as its row says.
fn is_read(alloc: Global, row: &Reading<'_>) -> bool {
    match MemFiles::new(alloc) {
        Ok(mut files) => puts_and_reads(alloc, &mut files, row),
        Err(_) => false,
    }
}

// Whether a file of 20,000 bytes is read, which is more than one reading gives.
fn long_is_read(alloc: Global) -> bool {
    match vec![in alloc; 7u8; 20000] {
        Ok(long) => is_read(alloc, &(&long, 9, "p", 20000, None)),
        Err(_) => false,
    }
}

#[test]
fn a_file_is_read_or_refused_with_its_cause(rt: HostRuntime) {
    for row in readings() {
        let same = is_read(rt.alloc(), row);
        assert!(rt; same, "at {}, call {}, limit {}", row.2, row.1, row.3);
    }
    assert!(rt; long_is_read(rt.alloc()));
}

// Whether a file that was opened goes on with its bytes once another one has its name, which stands for that one's.
fn goes_on(alloc: Global, files: &mut MemFiles) -> bool
    requires { names_opened files.old ≡ [] }
{
    if files.put("p", b"old", &[]).is_err() {
        return false;
    }
    let Ok(opened) = files.open_file("p") else {
        return false;
    };
    if files.put("q", b"other", &[]).is_err() || files.put("p", b"new text", &[]).is_err() {
        return false;
    }
    let mut room = [0u8; 8];
    if files.read(opened, &mut room) != Ok(3) || &room[..3] != b"old".as_slice() {
        return false;
    }
    match read_whole(alloc, files, "p", 99) {
        Ok(read) => read.as_slice() == b"new text".as_slice(),
        Err(_) => false,
    }
}

fn a_name_is_put_again(alloc: Global) -> bool {
    match MemFiles::new(alloc) {
        Ok(mut files) => goes_on(alloc, &mut files),
        Err(_) => false,
    }
}

#[test]
fn a_name_holds_what_was_put_last(rt: HostRuntime) {
    assert!(rt; a_name_is_put_again(rt.alloc()));
}

// The most bytes that a sink takes in a call, the call that fails, what writing the text answers, and what the sink took of it.
type Writing = (usize, u64, Result<(), WriteError>, &'static [u8]);

const TEXT: &[u8] = b"count 3\n";

const WRITINGS: &[Writing] = &[
    (5, 9, Ok(()), b"count 3\n"),
    (1, 8, Ok(()), b"count 3\n"),
    (99, 1, Ok(()), b"count 3\n"),
    (5, 1, Err(WriteError::Failed(5)), b"count"),
    (5, 0, Err(WriteError::Failed(0)), b""),
];

fn writings() -> &'static [Writing] {
    WRITINGS
}

fn text() -> &'static [u8] {
    TEXT
}

// Whether the text is written as a row says.
fn is_written(alloc: Global, row: &Writing) -> bool {
    let (step, fails, answer, taken) = *row;
    if step == 0 {
        return false;
    }
    match MemSink::new(alloc, step, &[fails]) {
        Ok(mut sink) => write_whole(&mut sink, text()) == answer && sink.bytes() == taken,
        Err(_) => false,
    }
}

#[test]
fn a_text_goes_out_in_pieces(rt: HostRuntime) {
    for row in writings() {
        let same = is_written(rt.alloc(), row);
        assert!(rt; same, "at step {}, call {}", row.0, row.1);
    }
}

// Whether files that never fail hold what was put last, and go on where they were opened.
fn hold_what_was_put(alloc: Global, files: &mut SureFiles) -> bool
    requires { sure_names files.old ≡ [] }
{
    if files.put("p", b"old").is_err() {
        return false;
    }
    let Ok(opened) = files.open_file("p") else {
        return false;
    };
    if files.put("p", b"new text").is_err() {
        return false;
    }
    let mut room = [0u8; 8];
    if files.read(opened, &mut room) != Ok(3) || &room[..3] != b"old".as_slice() {
        return false;
    }
    match read_whole(alloc, files, "p", 99) {
        Ok(read) => read.as_slice() == b"new text".as_slice(),
        Err(_) => false,
    }
}

fn sure_files_hold(alloc: Global) -> bool {
    match SureFiles::new(alloc) {
        Ok(mut files) => hold_what_was_put(alloc, &mut files),
        Err(_) => false,
    }
}

// Whether a name that was never put is there, without bytes.
fn every_name_is_there(alloc: Global) -> bool {
    match SureFiles::new(alloc) {
        Ok(mut files) => reads(alloc, &mut files, "q", 0, Ok(b"")),
        Err(_) => false,
    }
}

// Whether a sink that never fails takes the text in pieces of so many bytes.
fn is_taken(alloc: Global, step: usize) -> bool
    requires { 1 ≤ step }
{
    match SureSink::new(alloc, step) {
        Ok(mut sink) => write_whole(&mut sink, text()) == Ok(()) && sink.bytes() == text(),
        Err(_) => false,
    }
}

#[test]
fn devices_that_never_fail_hold_and_take_what_they_are_given(rt: HostRuntime) {
    assert!(&rt; sure_files_hold(rt.alloc()));
    assert!(&rt; every_name_is_there(rt.alloc()));
    assert!(&rt; is_taken(rt.alloc(), 1));
    assert!(&rt; is_taken(rt.alloc(), 5));
    assert!(&rt; is_taken(rt.alloc(), 99));
}

// Whether a real file is read as it should be.
fn is_real(rt: &HostRuntime, name: &str, wanted: Result<&[u8], ReadError>) -> bool {
    let mut files = OsFiles::new(rt, rt.alloc());
    reads(rt.alloc(), &mut files, name, 99, wanted)
}

#[test]
fn a_real_file_is_read_and_a_missing_one_is_a_fault(rt: HostRuntime) {
    assert!(&rt; fs::write(&rt, "three_lines", b"one\ntwo\nthree").is_ok());
    assert!(&rt; is_real(&rt, "three_lines", Ok(b"one\ntwo\nthree")));
    assert!(&rt; is_real(&rt, "no such file", Err(ReadError::Failed)));
    // A folder is opened, but no byte is read of it.
    assert!(&rt; is_real(&rt, "/", Err(ReadError::Failed)));
}

// Whether a real file of one byte is closed at its end, and tells the end again.
fn ends_again(rt: &HostRuntime, name: &str) -> bool {
    let mut files = OsFiles::new(rt, rt.alloc());
    let Ok(file) = files.open_file(name) else {
        return false;
    };
    let mut room = [0u8; 8];
    files.read(file, &mut room) == Ok(1)
        && files.read(file, &mut room) == Ok(0)
        && files.read(file, &mut room) == Ok(0)
}

// Whether a folder, whose first read fails, fails again.
fn fails_again(rt: &HostRuntime, name: &str) -> bool {
    let mut files = OsFiles::new(rt, rt.alloc());
    let Ok(file) = files.open_file(name) else {
        return false;
    };
    let mut room = [0u8; 8];
    files.read(file, &mut room) == Err(Failed) && files.read(file, &mut room) == Err(Failed)
}

#[test]
fn what_was_read_of_a_real_file_stays_so(rt: HostRuntime) {
    assert!(&rt; fs::write(&rt, "one_byte", b"1").is_ok());
    assert!(&rt; ends_again(&rt, "one_byte"));
    assert!(&rt; fails_again(&rt, "/"));
}

#[test]
fn a_real_stream_takes_a_text(rt: HostRuntime) {
    let mut sink = OsSink::new(rt.stdout());
    assert!(rt; write_whole(&mut sink, b"a text\n") == Ok(()));
    NoGate.at(0, 0, 0);
}

// Whether a sink over the stream takes a text, after which a mark is then written by another way while the sink is still there.
fn writes_and_marks<W: Write + Drop>(stream: W, mark: &mut impl Write) -> bool {
    let mut sink = OsSink::new(stream);
    let written = write_whole(&mut sink, b"a text") == Ok(());
    match mark.write(b"|") {
        Ok(count) => written && count == 1,
        Err(_) => false,
    }
}

// Whether these bytes come first.
fn gives<R: Read + Drop>(mut reader: R, wanted: &[u8]) -> bool {
    let mut room = [0u8; 8];
    match reader.read(&mut room) {
        Ok(count) => &room[..count] == wanted,
        Err(_) => false,
    }
}

// Whether a text that goes to a pipe through a stream that holds bytes back is there before a mark that comes later.
fn is_passed_on(rt: &HostRuntime) -> bool {
    let Ok((reader, writer)) = io::pipe(rt) else {
        return false;
    };
    let Ok(mut mark) = writer.try_clone() else {
        return false;
    };
    let Ok(stream) = BufWriter::new(rt.alloc(), writer) else {
        return false;
    };
    writes_and_marks(stream, &mut mark) && gives(reader, b"a text|")
}

#[test]
fn a_stream_that_holds_bytes_back_passes_them_on_at_once(rt: HostRuntime) {
    assert!(&rt; is_passed_on(&rt));
}

// A stream whose first writes and flushes are interrupted by signals, and which takes every byte after them.
#[derive(Drop)]
struct Interrupted {
    writes: u32,
    flushes: u32,
    taken: usize,
}

impl Write for Interrupted {
    fn write(&mut self, piece: &[u8]) -> io::Result<usize> {
        if self.writes > 0 {
            self.writes -= 1;
            return Err(io::ErrorKind::Interrupted.into());
        }
        self.taken = self.taken.saturating_add(piece.len());
        Ok(piece.len())
    }

    fn flush(&mut self) -> io::Result<()> {
        if self.flushes > 0 {
            self.flushes -= 1;
            return Err(io::ErrorKind::Interrupted.into());
        }
        Ok(())
    }
}

// How many writes and flushes are interrupted, what writing the text answers, and how many bytes of it the stream took.
type Interruptions = (u32, u32, Result<(), WriteError>, usize);

const INTERRUPTIONS: &[Interruptions] = &[
    (0, 0, Ok(()), 8),
    (99, 0, Ok(()), 8),
    (0, 99, Ok(()), 8),
    (99, 99, Ok(()), 8),
    (100, 0, Err(WriteError::Failed(0)), 0),
    // The bytes that went out before the flush failed aren't written again.
    (0, 100, Err(WriteError::Failed(0)), 8),
];

fn interruptions() -> &'static [Interruptions] {
    INTERRUPTIONS
}

// Whether the text is written to a stream that is interrupted as a row says.
fn is_tried_again(row: &Interruptions) -> bool {
    let (writes, flushes, answer, taken) = *row;
    let mut stream = Interrupted {
        writes,
        flushes,
        taken: 0,
    };
    let written = write_whole(&mut OsSink::new(&mut stream), text());
    written == answer && stream.taken == taken
}

#[test]
fn a_call_that_a_signal_interrupts_is_made_again(rt: HostRuntime) {
    for row in interruptions() {
        let same = is_tried_again(row);
        assert!(&rt; same, "at {} writes, {} flushes", row.0, row.1);
    }
}
