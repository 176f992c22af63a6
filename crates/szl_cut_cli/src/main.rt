//! `szl-cut` tells where a file of messages, each with its length in front, can be cut into parts.
#![tactic(auto)]

use std::alloc::Global;
use std::io::Stderr;
use std::process::ExitCode;
use sz_io::{OsFiles, OsSink, write_line};
use sz_process::{given_words, stand_ins};
use szl_cut::{Failure, cut_file};

/// Tells why no file is cut, and gives the exit status.
fn tell(err: Stderr, line: &[u8], code: u8) -> ExitCode {
    write_line(&mut OsSink::new(err), line);
    ExitCode::from(code)
}

fn main(rt: HostRuntime) -> ExitCode {
    let _stand_ins = match stand_ins(&rt, rt.stdin(), rt.stdout(), rt.stderr()) {
        Ok(them) => them,
        Err(missing) => return tell(rt.stderr(), missing.line(), missing.code()),
    };
    let alloc: Global = rt.alloc();
    let Ok(words) = given_words(&rt) else {
        return tell(rt.stderr(), b"out of memory\n", Failure::NoMemory.code());
    };
    let mut files = OsFiles::new(&rt, alloc);
    let mut out = OsSink::new(rt.stdout());
    let mut err = OsSink::new(rt.stderr());
    let code = match cut_file(alloc, &words, &mut files, &mut out, &mut err) {
        Ok(()) => 0,
        Err(failure) => failure.code(),
    };
    ExitCode::from(code)
}
