//! What no contract says: that each refusal is explained where there is memory, and what is said of it.
ghost use Rattle.std.specs.Prelude.{◌≡◌, [], IfOk};
ghost use Rattle.sz_io.specs.SureFiles.{sure_names};

use crate::rows::{NAMES, STATEMENTS, SYNTAX, TEXTS, TYPES};
use std::alloc::{AllocError, Global};
use std::fmt::Write;
use std::str::from_utf8;
use std::test::Fail;
use sz_io::{SureFiles, SureSink};
use szl_explain::{Explanation, explain, explain_file};

const ROWS: &[&str] = &[TEXTS, SYNTAX, NAMES, TYPES, STATEMENTS];

fn rows() -> &'static [&'static str] {
    ROWS
}

/// A text that a row writes with a mark for the end of each line.
fn lines_of(alloc: Global, marked: &[u8]) -> Result<Vec<u8>, AllocError> {
    let mut lines = Vec::with_capacity(alloc, marked.len())?;
    for byte in marked {
        lines.push(if *byte == b'$' { b'\n' } else { *byte })?;
    }
    Ok(lines)
}

/// What a row asks for: the line of the refusal, its number, and words.
#[derive(Clone, Copy)]
struct Wanted<'t> {
    line: &'t str,
    number: &'t str,
    words: &'t str,
}

/// What a row asks for, after its program.
fn wanted_of<'t>(row: &'t str) -> Result<(&'t str, Wanted<'t>), Fail> {
    let (program, rest) = row.split_once(" => ").ok_or("no arrow")?;
    let (line, rest) = rest.split_once(" => ").ok_or("no number")?;
    let (number, words) = rest.split_once(" => ").ok_or("no words")?;
    let wanted = Wanted {
        line,
        number,
        words,
    };
    Ok((program, wanted))
}

/// Whether an explanation has the line, the number and the words.
fn is_explained(said: &Explanation, wanted: &Wanted<'_>) -> Result<bool, Fail> {
    let line = from_utf8(&said.line)?;
    let more = from_utf8(&said.more)?;
    let told = line.strip_prefix("program: ").ok_or("no program")?;
    let numbered = more.strip_prefix("refusal ").ok_or("no refusal")?;
    Ok(
        told.strip_suffix("\n") == Some(wanted.line)
            && numbered.split_once("\n").map(|parts| parts.0) == Some(wanted.number)
            && more.contains(wanted.words),
    )
}

/// The one file `p`.
fn files_of(alloc: Global, program: &[u8]) -> Result<SureFiles, Fail>
    ensures { IfOk result (λ files. sure_names files ≡ []) }
{
    let mut files = SureFiles::new(alloc)?;
    files.put("p", program)?;
    Ok(files)
}

/// The words of a command line.
fn words_of(alloc: Global, words: &[&str]) -> Result<Vec<String>, AllocError> {
    let mut list = Vec::new(alloc);
    for word in words {
        list.push(String::from_str(alloc, word)?)?;
    }
    Ok(list)
}

/// Whether a program is explained as its row says.
fn holds(alloc: Global, row: &str) -> Result<bool, Fail> {
    let (marked, wanted) = wanted_of(row)?;
    let program = lines_of(alloc, marked.as_bytes())?;
    let said = explain(alloc, &program)?;
    Ok(is_explained(&said, &wanted)?)
}

#[test]
fn each_refusal_is_explained(rt: HostRuntime) -> Result<(), Fail> {
    for table in rows() {
        for row in table.split('\n') {
            assert!(&rt; holds(rt.alloc(), row)?, "at {row}");
        }
    }
    Ok(())
}

/// A program, the word after `szl-explain`, and all that is written: the status, the output, and the line to the error stream. The program
/// is the file `p`, and `$` is the end of a line.
type Page = (&'static [u8], &'static str, u8, &'static [u8], &'static str);

/// Whole pages: the mark stands under its column where a tab or a character of two bytes stands before it.
const PAGES: &[Page] = &[
    (b"x: int = 1;$", "p", 0, b"the program passes$", ""),
    (
        b"# \xc3\xa9$\tx: int = 1; y: string = \"\xc3\xa9\" + x;",
        "p",
        2,
        b"program: wrong type at 2:33$refusal 9$2 | \tx: int = 1; y: string = \"\xc3\xa9\" + x;$  | \t                              ^$Expected a value of type `string`, found `x` of type `int`.$Hint: `string(x)` has that type.$",
        "",
    ),
    (
        b"_undefs: table sum of int;",
        "p",
        0,
        b"the program passes$refusal 24 with --ignore-undefs: reserved name: _undefs at 1:1$1 | _undefs: table sum of int;$  | ^^^^^^^$With --ignore-undefs the table that counts what is passed over has this name: give this one another.$",
        "",
    ),
    (
        b"# caf\xe9$",
        "p",
        2,
        b"program: not UTF-8 at 1:6$refusal 3$1 | # caf\xe9$  |      ^$The text is UTF-8 up to the byte e9. Hint: `iconv -f latin1 -t utf-8` makes UTF-8 of Latin-1.$",
        "",
    ),
    (
        b"x\x1b\xc2\x9b\xc3\x9b: int = 1;$",
        "p",
        2,
        b"program: bad character at 1:2$refusal 1$1 | x??\xc3\x9b: int = 1;$  |  ^$No token begins with `?`: it stands in strings and comments alone.$",
        "",
    ),
    (b"", "--help", 1, b"", "bad command line\n"),
    (b"", "", 1, b"", "bad command line\n"),
];

fn pages() -> &'static [Page] {
    PAGES
}

/// Whether all that is written of a program is its page.
fn is_written(alloc: Global, page: Page) -> Result<bool, Fail> {
    let (program, word, code, wanted, line) = page;
    let program = lines_of(alloc, program)?;
    let wanted = lines_of(alloc, wanted)?;
    let words = words_of(alloc, &[word])?;
    let mut files = files_of(alloc, &program)?;
    let mut out = SureSink::new(alloc, 5)?;
    let mut err = SureSink::new(alloc, 4)?;
    let status = explain_file(alloc, &words, &mut files, &mut out, &mut err);
    Ok(status.code() == code && out.bytes() == wanted.as_slice() && err.bytes() == line.as_bytes())
}

#[test]
fn whole_pages_are_written(rt: HostRuntime) -> Result<(), Fail> {
    for page in pages() {
        assert!(&rt; is_written(rt.alloc(), *page)?, "of word {}", page.1);
    }
    Ok(())
}

/// Programs that are too large for a row: a text as often as said, in which `#` is the number of its turn, and what the explanation begins
/// with, below the line of the refusal.
const LARGE: &[(&str, usize, &str)] = &[
    (" ", 1_048_577, "refusal 4\nThe text has more than"),
    (
        "t#: table sum of int;\n",
        65,
        "refusal 21\n65 | t64: table sum of int;\n   | ^^^\nA program has at most 64 tables.",
    ),
];

fn large() -> &'static [(&'static str, usize, &'static str)] {
    LARGE
}

/// A text as often as said.
fn repeated(alloc: Global, text: &str, count: usize) -> Result<String, Fail> {
    let mut program = String::with_capacity(alloc, text.len())?;
    for number in 0..count {
        match text.split_once('#') {
            Some((before, after)) => write!(program, "{before}{number}{after}")?,
            None => program.push_str(text)?,
        }
    }
    Ok(program)
}

/// Whether what is said of a large program begins as its row says.
fn is_explained_large(alloc: Global, row: (&str, usize, &str)) -> Result<bool, Fail> {
    let (text, count, wanted) = row;
    let program = repeated(alloc, text, count)?;
    let said = explain(alloc, program.as_bytes())?;
    Ok(from_utf8(&said.more)?.starts_with(wanted))
}

#[test]
fn programs_too_large_for_a_row_are_explained(rt: HostRuntime) -> Result<(), Fail> {
    for row in large() {
        assert!(&rt; is_explained_large(rt.alloc(), *row)?, "of {}", row.0);
    }
    Ok(())
}
