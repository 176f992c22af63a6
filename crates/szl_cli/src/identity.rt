//! Whether a job that is resumed would read its own journal, or write its tables or its line into it.
//!
//! Such a job would read what it writes itself, or write over what it keeps. A file has many names, and may be a stream that is open; so files are
//! compared by device and inode, before the job begins. What other commands read and write may be a journal as any other file.

use std::alloc::Global;
use std::fs::{self, Files, Metadata};
use std::io;
use std::os::unix::fs::MetadataExt;
use std::path::Path;
use sz_words::{RunSettings, Settings, WordsError, read_words};
use szl::Status;

/// The name of the journal, as in `sz_disk`.
const JOURNAL: &str = "szl.journal";

/// The names of the standard streams as files.
const INPUT: &str = "/proc/self/fd/0";

const OUTPUT: &str = "/proc/self/fd/1";

const ERRORS: &str = "/proc/self/fd/2";

/// Why a job isn't begun.
#[derive(Clone, Copy, Debug)]
pub enum Refusal {
    /// A file that it would read is its journal.
    Reads,
    /// Standard output is its journal.
    Writes,
    /// The error stream is its journal.
    WritesErrors,
    /// There was no memory to find out.
    NoMemory,
}

impl Refusal {
    /// The status of the program.
    pub fn status(self) -> Status {
        match self {
            Refusal::Reads => Status::ReadFailed,
            Refusal::Writes | Refusal::WritesErrors => Status::WriteFailed,
            Refusal::NoMemory => Status::NoMemory,
        }
    }

    /// The line that tells why, which is empty where the error stream is the journal.
    pub fn line(self) -> &'static [u8] {
        match self {
            Refusal::Reads => b"read failed\n",
            Refusal::Writes => b"write failed\n",
            Refusal::WritesErrors => b"",
            Refusal::NoMemory => b"out of memory\n",
        }
    }
}

/// Refuses the job that these words ask for, if they ask for one, where it would read or write its own journal.
pub fn keep_off_the_journal<R: Files>(
    rt: &R,
    alloc: Global,
    words: &[String],
) -> Result<(), Refusal> {
    match &read_words(alloc, words) {
        Ok(Settings::Resume(job)) => keep_off(rt, job),
        Ok(_) | Err(WordsError::Usage) => Ok(()),
        Err(WordsError::NoMemory) => Err(Refusal::NoMemory),
    }
}

/// The error stream comes first, as no line may be written to it where it is the journal.
fn keep_off<R: Files>(rt: &R, job: &RunSettings) -> Result<(), Refusal> {
    if leads_to_journal(rt, ERRORS) {
        Err(Refusal::WritesErrors)
    } else if reads_journal(rt, job) {
        Err(Refusal::Reads)
    } else if leads_to_journal(rt, OUTPUT) {
        Err(Refusal::Writes)
    } else {
        Ok(())
    }
}

/// Whether one of the files that a job reads is its journal.
fn reads_journal<R: Files>(rt: &R, job: &RunSettings) -> bool {
    let proto = match &job.proto {
        Some(proto) => is_journal(rt, proto.as_str()),
        None => false,
    };
    proto || is_journal(rt, job.program.as_str()) || is_journal(rt, job.input.as_str())
}

/// Whether a file of the words, which may be standard input, is the journal.
fn is_journal<R: Files>(rt: &R, name: &str) -> bool {
    leads_to_journal(rt, if name == "-" { INPUT } else { name })
}

/// Whether a name leads to the journal, or would once that is made.
fn leads_to_journal<R: Files>(rt: &R, name: &str) -> bool {
    match (
        identity(fs::symlink_metadata(rt, JOURNAL)),
        identity(fs::metadata(rt, name)),
    ) {
        (Some(journal), Some(file)) => journal == file,
        (None, None) => will_lead_to_journal(rt, name),
        _ => false,
    }
}

/// Whether a name that leads nowhere leads to the journal once that is made: it is the journal's, or that of a link, which may lead there.
fn will_lead_to_journal<R: Files>(rt: &R, name: &str) -> bool {
    let path = Path::new(name);
    let folder = match path.parent() {
        Some(folder) if !folder.as_str().is_empty() => folder.as_str(),
        _ => ".",
    };
    fs::symlink_metadata(rt, name).is_ok()
        || path.file_name() == Some(JOURNAL)
            && identity(fs::metadata(rt, folder)) == identity(fs::metadata(rt, "."))
}

/// The device and the inode of a file that is there.
fn identity(found: io::Result<Metadata>) -> Option<(u64, u64)> {
    match found {
        Ok(file) => Some((file.dev(), file.ino())),
        Err(_) => None,
    }
}
