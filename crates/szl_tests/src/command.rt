//! A command line over files and sinks in memory, and what it leaves.
ghost use Rattle.std.specs.Prelude.{◌≡◌, [], IfOk};
ghost use Rattle.sz_io.specs.MemFiles.{names_opened};

use std::alloc::Global;
use std::fmt::Write;
use std::sync::Wait;
use std::test::Fail;
use std::thread::Threads;
use sz_io::{Gate, MemFiles, MemSink, NoGate, NoMemory};
use szl::szl_main;

/// What a run is given: the program that its row writes, words, an input, a `.proto` file, and the numbers of the calls that fail.
#[derive(Clone, Copy)]
pub struct Setting<'t> {
    pub program: &'t str,
    pub words: &'t str,
    pub input: &'t str,
    pub proto: &'t str,
    pub program_fails: u64,
    pub input_fails: u64,
    pub proto_fails: u64,
    pub out_fails: u64,
    pub err_fails: u64,
}

/// The number of a call that is never made.
pub const NEVER: u64 = 1000;

/// What a run is given where no line says otherwise.
pub const PLAIN: Setting<'static> = Setting {
    program: "",
    words: "run p f",
    input: "",
    proto: "",
    program_fails: NEVER,
    input_fails: NEVER,
    proto_fails: NEVER,
    out_fails: NEVER,
    err_fails: NEVER,
};

/// The text that a row writes with marks for the ends of lines and for tabs.
pub fn text_of(alloc: Global, marked: &str) -> Result<String, NoMemory> {
    let mut text = String::with_capacity(alloc, marked.len())?;
    for character in marked.chars() {
        text.push(match character {
            '¶' => '\n',
            '→' => '\t',
            other => other,
        })?;
    }
    Ok(text)
}

/// The bytes that a row writes: those of its text, where `\x` and two hexadecimal digits stand for a byte.
pub fn bytes_of(alloc: Global, marked: &str) -> Result<Vec<u8>, Fail> {
    let (front, later) = match marked.split_once("\\x") {
        Some((front, later)) => (front, Some(later)),
        None => (marked, None),
    };
    let mut bytes = Vec::new(alloc);
    bytes.extend_from_slice(text_of(alloc, front)?.as_bytes())?;
    if let Some(later) = later {
        push_bytes(alloc, &mut bytes, later)?;
    }
    Ok(bytes)
}

/// Appends bytes that are written with `\x` between them, each with the text after it.
fn push_bytes(alloc: Global, bytes: &mut Vec<u8>, written: &str) -> Result<(), Fail> {
    for part in written.split("\\x") {
        let (digits, text) = part.split_at_checked(2).ok_or("no byte")?;
        bytes.push(u8::from_str_radix(digits, 16).ok().ok_or("no byte")?)?;
        bytes.extend_from_slice(text_of(alloc, text)?.as_bytes())?;
    }
    Ok(())
}

/// A text with a mark for the end of each line.
fn marked(alloc: Global, text: &str) -> Result<String, NoMemory> {
    let mut marked = String::with_capacity(alloc, text.len())?;
    for character in text.chars() {
        marked.push(if character == '\n' { '¶' } else { character })?;
    }
    Ok(marked)
}

/// The files `p`, `f` and `q`.
fn files_of(alloc: Global, given: &Setting<'_>, program: &[u8]) -> Result<MemFiles, Fail>
    ensures { IfOk result (λ files. names_opened files ≡ []) }
{
    let mut files = MemFiles::new(alloc)?;
    files.put("p", program, &[given.program_fails])?;
    let input = bytes_of(alloc, given.input)?;
    files.put("f", input.as_slice(), &[given.input_fails])?;
    let proto = bytes_of(alloc, given.proto)?;
    files.put("q", proto.as_slice(), &[given.proto_fails])?;
    Ok(files)
}

/// The words of a line, as the program is given them. Two blanks have an empty word between them.
pub fn words_of(alloc: Global, line: &str) -> Result<Vec<String>, NoMemory> {
    let mut words = Vec::new(alloc);
    for word in line.split(' ') {
        words.push(String::from_str(alloc, word)?)?;
    }
    Ok(words)
}

/// What a run leaves, as a row says it: the status, the output, and after `!` the line.
pub fn left<R: Threads + Wait + Sync>(
    rt: &R,
    alloc: Global,
    given: &Setting<'_>,
    program: &[u8],
) -> Result<String, Fail> {
    left_by(rt, alloc, given, program, &NoGate)
}

/// What a run leaves whose attempts pass a gate.
pub fn left_by<R: Threads + Wait + Sync, G: Gate + Sync>(
    rt: &R,
    alloc: Global,
    given: &Setting<'_>,
    program: &[u8],
    gate: &G,
) -> Result<String, Fail> {
    let words = words_of(alloc, given.words)?;
    let mut files = files_of(alloc, given, program)?;
    let mut out = MemSink::new(alloc, 5, &[given.out_fails])?;
    let mut err = MemSink::new(alloc, 4, &[given.err_fails])?;
    let status = szl_main(rt, alloc, &words, &mut files, &mut out, &mut err, gate);
    told(alloc, status.code(), out.bytes(), err.bytes())
}

/// What a run left, as a row says it.
pub fn told(alloc: Global, status: u8, out: &[u8], err: &[u8]) -> Result<String, Fail> {
    let out = std::str::from_utf8(out).or(Err("not UTF-8"))?;
    let err = std::str::from_utf8(err).or(Err("not UTF-8"))?;
    let mut told = format!(in alloc; "{status}")?;
    if !out.is_empty() {
        write!(told, " {}", marked(alloc, out)?)?;
    }
    if !err.is_empty() {
        match err.strip_suffix('\n') {
            Some(line) => write!(told, " ! {line}")?,
            None => write!(told, " ! {err}…")?,
        }
    }
    Ok(told)
}
