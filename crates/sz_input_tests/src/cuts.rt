//! Where files of messages are cut.
ghost use Rattle.std.specs.Prelude.{◌≡◌, [], IfOk};
ghost use Rattle.sz_io.specs.SureFiles.{sure_names};

use std::alloc::{AllocError, Global};
use sz_io::{NoMemory, SureFiles, SureSink};
use szl_cut::Failure::{self, Damaged, Usage};
use szl_cut::cut_file;

const FILE: &[u8] = b"\x03abc\x05hello\x00\x02hi\x04abcd";

// A file, the words, and what they are answered: the answer, the output, and the line.
type Row = (
    &'static [u8],
    &'static [&'static str],
    Result<(), Failure>,
    &'static [u8],
    &'static [u8],
);

const ROWS: &[Row] = &[
    (FILE, &["f", "1"], Ok(()), b"4\n10\n11\n14\n", b""),
    (FILE, &["f", "4"], Ok(()), b"4\n10\n14\n", b""),
    (FILE, &["f", "5"], Ok(()), b"10\n", b""),
    (FILE, &["f", "0011"], Ok(()), b"11\n", b""),
    (FILE, &["f", "19"], Ok(()), b"", b""),
    (FILE, &["f", "1099511627776"], Ok(()), b"", b""),
    (b"", &["f", "1"], Ok(()), b"", b""),
    (
        b"\x01a\x05b",
        &["f", "1"],
        Err(Damaged(2)),
        b"",
        b"input damaged at byte 2\n",
    ),
    (FILE, &["f", "0"], Err(Usage), b"", b"bad command line\n"),
    (
        FILE,
        &["f", "1099511627777"],
        Err(Usage),
        b"",
        b"bad command line\n",
    ),
    (FILE, &["f", "x"], Err(Usage), b"", b"bad command line\n"),
    (FILE, &["f"], Err(Usage), b"", b"bad command line\n"),
    (FILE, &["", "5"], Err(Usage), b"", b"bad command line\n"),
    (
        FILE,
        &["--help", "5"],
        Err(Usage),
        b"",
        b"bad command line\n",
    ),
    (FILE, &["-f", "5"], Err(Usage), b"", b"bad command line\n"),
    (
        FILE,
        &["f", "1", "1"],
        Err(Usage),
        b"",
        b"bad command line\n",
    ),
];

fn rows() -> &'static [Row] {
    ROWS
}

fn words_of(alloc: Global, texts: &[&str]) -> Result<Vec<String>, AllocError> {
    let mut words = Vec::new(alloc);
    for text in texts {
        words.push(String::from_str(alloc, text)?)?;
    }
    Ok(words)
}

// One file, which was not opened yet.
fn files_with(alloc: Global, file: &[u8]) -> Result<SureFiles, NoMemory>
    ensures names { IfOk result (λ files. sure_names files ≡ []) }
{
    let mut files = SureFiles::new(alloc)?;
    files.put("f", file)?;
    Ok(files)
}

// Whether the words of a row are answered as it says.
fn holds(alloc: Global, row: &Row) -> bool {
    let (file, texts, answer, text, line) = *row;
    let (Ok(words), Ok(mut files)) = (words_of(alloc, texts), files_with(alloc, file)) else {
        return false;
    };
    let (Ok(mut out), Ok(mut err)) = (SureSink::new(alloc, 3), SureSink::new(alloc, 4)) else {
        return false;
    };
    let told = cut_file(alloc, &words, &mut files, &mut out, &mut err);
    told == answer && out.bytes() == text && err.bytes() == line
}

#[test]
fn files_are_cut_where_messages_pass_sizes(rt: HostRuntime) {
    for row in rows() {
        let same = holds(rt.alloc(), row);
        assert!(rt; same, "at {:?}", row.1);
    }
}
