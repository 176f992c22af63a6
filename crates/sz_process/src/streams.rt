//! The standard streams, where the process was started without one of them.
ghost use Rattle.std.specs.Prelude.{◌≡◌, IfErr};
ghost use Rattle.sz_process.specs.Missing.{missing_code, missing_line};

use std::fs::{self, Files};
use std::io::{Stderr, Stdin, Stdout};
use std::os::fd::AsFd;

/// A standard stream.
#[derive(Clone, Copy, Debug)]
pub enum Stream {
    Input,
    Output,
    Error,
}

impl Stream {
    /// The exit status of a program that lacks this stream and has nothing to stand in for it.
    pub fn code(self) -> u8
        ensures value { result ≡ missing_code self }
    {
        match self {
            Stream::Input => 5,
            Stream::Output | Stream::Error => 6,
        }
    }

    /// The line that such a program writes to the error stream, if that is there, with its newline.
    pub fn line(self) -> &'static [u8]
        ensures value { result.now ≡ missing_line self }
    {
        match self {
            Stream::Input => b"read failed\n",
            Stream::Output | Stream::Error => b"write failed\n",
        }
    }
}

/// What stands in the place of the standard streams that aren't there. Once it is dropped, the next file that is opened may be taken for one.
#[derive(Drop)]
pub struct StandIns<F: Drop> {
    input: Option<F>,
    output: Option<F>,
    error: Option<F>,
}

/// What the system answers where a number is no open file's.
const BAD_DESCRIPTOR: i32 = 9;

/// Folders, as each read and write of one fails. The first that may be opened stands in; a process may not read the root folder, say.
const FOLDERS: [&str; 3] = ["/", ".", "/proc/self"];

/// Opens a folder in the place of each of these streams that isn't there, so that each use of that stream fails as it should. Without it the
/// next file that is opened would have the stream's number, and what is written to standard output would go into it, or what is read as
/// standard input come of it.
///
/// Call it before any file is opened. The error is the first stream, in the order of their numbers, that isn't there and has no stand-in.
pub fn stand_ins<R: Files>(
    rt: &R,
    input: Stdin,
    output: Stdout,
    error: Stderr,
) -> Result<StandIns<R::File>, Stream> {
    Ok(StandIns {
        input: stand_in(rt, &input, Stream::Input)?,
        output: stand_in(rt, &output, Stream::Output)?,
        error: stand_in(rt, &error, Stream::Error)?,
    })
}

/// A folder that is opened in the place of this stream, or none where the stream is there. The system gives the least number that is free,
/// which is the stream's, as the streams below are there or have their stand-ins.
fn stand_in<R: Files, S: AsFd>(
    rt: &R,
    handle: &S,
    stream: Stream,
) -> Result<Option<R::File>, Stream>
    ensures missing { IfErr result (λ missing. missing ≡ stream) }
{
    if is_there(handle) {
        return Ok(None);
    }
    for folder in FOLDERS {
        if let Ok(opened) = fs::open(rt, folder) {
            return Ok(Some(opened));
        }
    }
    Err(stream)
}

/// Whether a stream is there: it can be duplicated, or fails to be for another reason than that its number is no open file's.
fn is_there<S: AsFd>(handle: &S) -> bool {
    match handle.as_fd().try_clone_to_owned() {
        Ok(_) => true,
        Err(error) => error.raw_os_error() != Some(BAD_DESCRIPTOR),
    }
}
