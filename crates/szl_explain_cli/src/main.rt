//! `szl-explain` says why a program is refused, and shows where.
#![tactic(auto)]

use std::alloc::Global;
use std::fs::Files;
use std::io::{Input, Stderr, Stdout};
use std::process::ExitCode;
use std::thread::{self, Builder, Threads};
use sz_io::{OsFiles, OsSink, write_line};
use sz_process::{given_words, stand_ins};
use szl_explain::{Status, explain_file};

/// Tells why nothing is explained, and gives the exit status.
fn tell(err: Stderr, line: &[u8], code: u8) -> u8 {
    write_line(&mut OsSink::new(err), line);
    code
}

/// Explains the program that these words name, over real files and streams, and gives the exit status.
fn run<R: Threads + Sync + Files + Input>(
    rt: &R,
    alloc: Global,
    words: &[String],
    out: Stdout,
    err: Stderr,
) -> u8 {
    let mut files = OsFiles::new(rt, alloc);
    let mut out = OsSink::new(out);
    let mut err = OsSink::new(err);
    let status = explain_file(alloc, words, &mut files, &mut out, &mut err);
    status.code()
}

/// How much stack an explanation has: calls go down one level for each level of a type, and with all names written out the type of a program
/// of a megabyte may have near 260,000, which take some 240 MB.
const STACK_BYTES: usize = 2 << 30;

// Where no thread with a large stack can be started there is no explanation, which counts as want of memory.
fn main(rt: HostRuntime) -> ExitCode {
    let err = rt.stderr();
    let _stand_ins = match stand_ins(&rt, rt.stdin(), rt.stdout(), err) {
        Ok(them) => them,
        Err(missing) => return ExitCode::from(tell(err, missing.line(), missing.code())),
    };
    let alloc: Global = rt.alloc();
    let Ok(words) = given_words(&rt) else {
        return ExitCode::from(tell(err, b"out of memory\n", Status::NoMemory.code()));
    };
    let code = thread::scope(thread::scope_env(), &rt, |scope| {
        for part in [1, 2, 4, 8] {
            let work = Builder::new()
                .stack_size(STACK_BYTES / part)
                .spawn_scoped(scope, || {
                    run(&rt, alloc, &words, rt.stdout(), rt.stderr())
                });
            if let Ok(work) = work {
                return work.join(&rt);
            }
        }
        tell(rt.stderr(), b"out of memory\n", Status::NoMemory.code())
    });
    ExitCode::from(code)
}
