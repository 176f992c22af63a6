//! A command line over files, sinks and a disk in memory, and what it leaves.
use std::alloc::Global;
use std::fmt::Write;
use std::sync::Wait;
use std::test::Fail;
use std::thread::Threads;
use sz_disk::MemDisk;
use sz_io::{Gate, MemFiles, MemSink, NoMemory};
use szl::szl_disk_main;

/// A program that counts the records above 0, and faults on those that are no number.
pub const COUNT: &str = "c: table sum of int;\nx: int = input;\nif (x > 0) emit c <- 1;";

/// What a command line is given: the words, the program, an input in which one part stands so often between two others, and a `.proto` file.
#[derive(Clone, Copy)]
pub struct Given<'t> {
    pub words: &'t str,
    pub program: &'t str,
    pub front: &'t str,
    pub part: &'t str,
    pub count: u32,
    pub later: &'t str,
    pub proto: &'t str,
}

/// A job of three rounds.
pub const THREE_ROUNDS: Given<'static> = Given {
    words: "resume p f --shard 1",
    program: COUNT,
    front: "",
    part: "1\n",
    count: 10_000,
    later: "",
    proto: "",
};

/// The words of a line.
fn words_of(alloc: Global, line: &str) -> Result<Vec<String>, NoMemory> {
    let mut words = Vec::new(alloc);
    for word in line.split(' ') {
        words.push(String::from_str(alloc, word)?)?;
    }
    Ok(words)
}

/// The bytes that a text writes, where `\x` and two hexadecimal digits stand for a byte.
pub fn bytes_of(alloc: Global, written: &str) -> Result<Vec<u8>, Fail> {
    let mut bytes = Vec::new(alloc);
    let mut parts = written.split("\\x");
    if let Some(front) = parts.next() {
        bytes.extend_from_slice(front.as_bytes())?;
    }
    for part in parts {
        let (digits, text) = part.split_at_checked(2).ok_or("no byte")?;
        bytes.push(u8::from_str_radix(digits, 16).ok().ok_or("no byte")?)?;
        bytes.extend_from_slice(text.as_bytes())?;
    }
    Ok(bytes)
}

/// The bytes of the input.
fn input_of(alloc: Global, given: &Given<'_>) -> Result<Vec<u8>, Fail> {
    let mut input = bytes_of(alloc, given.front)?;
    let part = bytes_of(alloc, given.part)?;
    for _ in 0..given.count {
        input.extend_from_slice(part.as_slice())?;
    }
    input.extend_from_slice(bytes_of(alloc, given.later)?.as_slice())?;
    Ok(input)
}

/// What a command line leaves whose attempts pass a gate: the status, the output, and after `!` the line.
pub fn left_by<R: Threads + Wait + Sync, G: Gate + Sync>(
    rt: &R,
    alloc: Global,
    given: &Given<'_>,
    gate: &G,
    disk: &mut MemDisk,
) -> Result<String, Fail> {
    let words = words_of(alloc, given.words)?;
    let mut files = MemFiles::new(alloc)?;
    files.put("p", given.program.as_bytes(), &[])?;
    files.put("f", input_of(alloc, given)?.as_slice(), &[])?;
    files.put("q", given.proto.as_bytes(), &[])?;
    let mut out = MemSink::new(alloc, 5, &[])?;
    let mut err = MemSink::new(alloc, 4, &[])?;
    let status = szl_disk_main(
        rt, alloc, &words, &mut files, &mut out, &mut err, gate, disk,
    );
    told(alloc, status.code(), out.bytes(), err.bytes())
}

/// What a command line left.
fn told(alloc: Global, status: u8, out: &[u8], err: &[u8]) -> Result<String, Fail> {
    let out = std::str::from_utf8(out).or(Err("not UTF-8"))?;
    let err = std::str::from_utf8(err).or(Err("not UTF-8"))?;
    let mut told = format!(in alloc; "{status}")?;
    for line in out.lines() {
        write!(told, " {line}¶")?;
    }
    if !err.is_empty() {
        write!(told, " ! {}", err.strip_suffix('\n').ok_or("no newline")?)?;
    }
    Ok(told)
}

/// How many rounds a journal of these bytes has.
pub fn rounds_in(journal: &[u8]) -> u64 {
    let mut entries: u64 = 0;
    let mut gate = 0;
    for _ in 0..journal.len() {
        match next_gate(journal, gate) {
            Some(next) => {
                entries = entries.saturating_add(1);
                gate = next;
            }
            None => return entries.saturating_sub(1),
        }
    }
    entries.saturating_sub(1)
}

/// The gate behind the entry at an open gate.
fn next_gate(journal: &[u8], gate: usize) -> Option<usize> {
    if *journal.get(gate)? != 1 {
        return None;
    }
    let mut length: usize = 0;
    for place in 1..9usize {
        let byte = *journal.get(gate.checked_add(place)?)?;
        length = length.wrapping_mul(256).wrapping_add(byte as usize);
    }
    let next = gate.checked_add(9)?.checked_add(length)?;
    if next < journal.len() {
        Some(next)
    } else {
        None
    }
}
