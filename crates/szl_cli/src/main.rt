//! `szl` runs a program over the records of a file, also as a job that is resumed, and prints or saves its tables; or it checks a program,
//! joins saved tables, or tests itself.
#![tactic(auto)]

mod identity;

use identity::{Refusal, keep_off_the_journal};
use std::alloc::{Alloc, Global};
use std::env::Env;
use std::fs::Files;
use std::io::{Input, Stderr, Stdout};
use std::process::ExitCode;
use std::thread::{self, Builder, Threads};
use sz_disk::OsDisk;
use sz_io::{NoGate, OsFiles, OsSink, write_line};
use sz_process::{given_words, stand_ins};
use szl::{Setup, Stack, szl_disk_main_on};

/// Tells why no command line is run, and gives the exit status.
fn tell(err: Stderr, line: &[u8], code: u8) -> ExitCode {
    write_line(&mut OsSink::new(err), line);
    ExitCode::from(code)
}

/// The words of the command line, but of a job that would read or write its own journal.
fn words_to_run<R: Env + Alloc<A = Global> + Files>(rt: &R) -> Result<Vec<String>, Refusal> {
    let Ok(words) = given_words(rt) else {
        return Err(Refusal::NoMemory);
    };
    keep_off_the_journal(rt, rt.alloc(), &words)?;
    Ok(words)
}

/// Runs the command line of these words over real files and streams, with this disk, on the stack that there is, and gives the exit status.
fn run<R: Threads + Sync + Files + Input>(
    rt: &R,
    alloc: Global,
    words: &[String],
    disk: OsDisk<'_>,
    out: Stdout,
    err: Stderr,
    stack: Stack,
) -> u8 {
    let mut files = OsFiles::new(rt, alloc);
    let mut out = OsSink::new(out);
    let mut err = OsSink::new(err);
    let mut disk = disk;
    let setup = Setup {
        stack,
        has_disk: true,
    };
    let status = szl_disk_main_on(
        rt, alloc, words, &mut files, &mut out, &mut err, &NoGate, &mut disk, setup,
    );
    status.code()
}

/// How much stack the command line runs on: calls go down one level for each level of a type, and with all names written out
/// the type of a program of a megabyte may have near 260,000, which take some 240 MB.
const STACK_BYTES: usize = 2 << 30;

// Where there is no room for the stack, an eighth of it is enough. Where no thread can be started, this one does the work itself, for programs
// whose types are low.
fn main(rt: HostRuntime) -> ExitCode {
    let _stand_ins = match stand_ins(&rt, rt.stdin(), rt.stdout(), rt.stderr()) {
        Ok(them) => them,
        Err(missing) => return tell(rt.stderr(), missing.line(), missing.code()),
    };
    let alloc: Global = rt.alloc();
    let words = match words_to_run(&rt) {
        Ok(words) => words,
        Err(refusal) => return tell(rt.stderr(), refusal.line(), refusal.status().code()),
    };
    let code = thread::scope(thread::scope_env(), &rt, |scope| {
        for part in [1, 2, 4, 8] {
            let work = Builder::new()
                .stack_size(STACK_BYTES / part)
                .spawn_scoped(scope, || {
                    run(
                        &rt,
                        alloc,
                        &words,
                        OsDisk::new(&rt),
                        rt.stdout(),
                        rt.stderr(),
                        Stack::Large,
                    )
                });
            if let Ok(work) = work {
                return work.join(&rt);
            }
        }
        run(
            &rt,
            alloc,
            &words,
            OsDisk::new(&rt),
            rt.stdout(),
            rt.stderr(),
            Stack::Small,
        )
    });
    ExitCode::from(code)
}
