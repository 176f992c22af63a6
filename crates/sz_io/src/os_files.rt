//! Real files and standard input. Nothing is proved of what they hold or give.
ghost use Rattle.std.specs.Prelude.{◌≡◌, ◌<◌, ◌≤◌, ℕ, [], length, vec_len};
ghost use Rattle.std.specs.Prelude.{IsTrue, IfOk, OnErr, IsErrOf, is_err};
ghost use Rattle.std.specs.Io.KnownBytes.{ReadConsumes};
ghost use Rattle.sz_io.specs.Rose.{Rose, CountsErrors};
ghost use Rattle.sz_io.specs.Opened.{names_after, given_after, is_failed, KeepsFiles, KeepsOtherFiles};

use crate::tries::{Faults, TRIES};
use crate::{Failed, Files, OutsideError};
use std::alloc::Global;
use std::fs;
use std::io::{self, Input, Read};

/// An opened file, or standard input. It is closed as soon as nothing more is to be read of it.
#[derive(Drop)]
enum Source<R: fs::Files + Input> {
    Standard(R::Reader),
    File(R::File),
    /// It was read to its end.
    Ended,
    /// A read of it failed.
    Failed,
}

impl<R: fs::Files + Input> Source<R> {
    /// Opens a file, or standard input. A call that a signal interrupts is made up to 100 times.
    #[tactic(auto, using(crate::proofs::TryLemmas::one_more))]
    fn open(rt: &R, faults: &mut Faults, name: &str) -> Result<Source<R>, Failed>
        ensures count { CountsErrors 100 faults.old.count faults.new.count (is_err result) }
    {
        if name == "-" {
            return Ok(Source::Standard(rt.reader()));
        }
        'tries: for _ in 0..TRIES {
            match fs::open(rt, name) {
                Ok(file) => return Ok(Source::File(file)),
                Err(error) => faults.may_retry(error)?,
            }
        }
        Err(Failed)
    }

    /// Moves the next bytes to the front of `into`, and tells how many.
    fn try_read(&mut self, into: &mut [u8]) -> io::Result<usize>
        ensures within { IfOk result (λ n. n ≤ length into.new) }
    {
        match self {
            Source::Standard(reader) => reader.read(into),
            Source::File(file) => file.read(into),
            Source::Ended => Ok(0),
            Source::Failed => Err(io::ErrorKind::Other.into()),
        }
    }

    /// Moves the next bytes to the front of `into`, and tells how many. A call that a signal interrupts is made up to 100 times.
    #[tactic(auto, using(crate::proofs::TryLemmas::one_more))]
    fn read(&mut self, faults: &mut Faults, into: &mut [u8]) -> Result<usize, Failed>
        ensures within { IfOk result (λ n. n ≤ length into.new) }
        ensures count { CountsErrors 100 faults.old.count faults.new.count (is_err result) }
    {
        'tries: for _ in 0..TRIES {
            match self.try_read(into) {
                Ok(count) => return Ok(count),
                Err(error) => faults.may_retry(error)?,
            }
        }
        Err(Failed)
    }
}

/// The files of the system, and standard input under the name `-`.
#[derive(Drop)]
pub struct OsFiles<'a, R: fs::Files + Input> {
    rt: &'a R,
    alloc: Global,
    opened: Vec<Source<R>>,
    names: Vec<String>,
    faults: Faults,
    ghost named: { vec_len opened ≤ vec_len names },
}

impl<'a, R: fs::Files + Input> OsFiles<'a, R> {
    ghost use Rattle.sz_io.specs.OsFiles.{system_names, system_faults};

    /// The files that `rt` opens. `alloc` is for the list of names opened, which is empty at first.
    pub fn new(rt: &'a R, alloc: Global) -> OsFiles<'a, R>
        ensures no_name { system_names result ≡ [] }
        ensures no_fault { system_faults result ≡ 0 }
    {
        OsFiles {
            rt,
            alloc,
            opened: Vec::new(alloc),
            names: Vec::new(alloc),
            faults: Faults::none(),
        }
    }
}

impl<R: fs::Files + Input> Files for OsFiles<'_, R> {
    ghost use Rattle.sz_io.specs.OsFiles.{system_names, system_faults, is_opened, told_bytes, told_left};

    ghost held = { told_bytes };

    ghost left = { told_left };

    ghost given = { is_opened };

    ghost names = { system_names };

    ghost faults = { system_faults };

    /// Each error of the system is a fault.
    fn open_file(&mut self, name: &str) -> Result<u32, OutsideError>
        requires { length (system_names self.old) < 128 }

        ensures fresh { IfOk result (λ file. IsTrue (is_opened self.old file) → ⊥) }
        ensures bytes { IfOk result (λ file. told_left self.new file ≡ told_bytes self.old name.now) }
        ensures given { (file : ℕ) → is_opened self.new file ≡ given_after (is_opened self.old) result file }
        ensures names { system_names self.new ≡ names_after (system_names self.old) name.now result }
        ensures failed { IsErrOf result OutsideError.Failed → Rose (system_faults self.old) (system_faults self.new) }
        ensures kept { KeepsFiles told_bytes told_left is_opened system_faults self.old self.new }

        ensures count { CountsErrors 100 (system_faults self.old) (system_faults self.new) (is_failed result) }
    {
        let number = self.opened.len() as u32;
        self.names.push(String::from_str(self.alloc, name)?)?;
        let source = Source::open(self.rt, &mut self.faults, name)?;
        if self.opened.push(source).is_err() {
            let _ = self.names.pop();
            return Err(OutsideError::NoMemory);
        }
        Ok(number)
    }

    /// Each error of the system is a fault, and so is each read after one that failed.
    fn read(&mut self, file: u32, into: &mut [u8]) -> Result<usize, Failed>
        requires { IsTrue (is_opened self.old file) }

        ensures within { IfOk result (λ n. n ≤ length into.new) }
        ensures bytes { ReadConsumes (told_left self.old file) (told_left self.new file) result into.new }
        ensures failed { OnErr result (Rose (system_faults self.old) (system_faults self.new)) }
        ensures kept { KeepsOtherFiles told_bytes told_left is_opened system_names system_faults file self.old self.new }

        ensures count { CountsErrors 100 (system_faults self.old) (system_faults self.new) (is_err result) }
    {
        let source = &mut self.opened[file as usize];
        let given = source.read(&mut self.faults, into);
        match given {
            Ok(0) if !into.is_empty() => *source = Source::Ended,
            Ok(_) => {}
            Err(Failed) => *source = Source::Failed,
        }
        given
    }
}
