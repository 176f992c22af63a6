//! Files in memory, on which calls fail where lists say so.
ghost use Rattle.std.specs.Prelude.{◌≡◌, ◌<◌, ◌≤◌, min, ℕ, length, vec_len, IsTrue, IfOk, OnOk, OnErr, IfSome, IsErrOf, is_err};
ghost use Rattle.std.specs.Io.KnownBytes.{ReadConsumes};
ghost use Rattle.sz_io.specs.Rose.{Rose};
ghost use Rattle.sz_io.specs.Opened.{names_after, given_after, KeepsFiles, KeepsOtherFiles};
ghost use Rattle.sz_io.specs.Placed.{ArePlaced};

use crate::named_file::{NamedFile, Place, count_call, fails_next, find, read_at};
use crate::{Failed, Files, NoMemory, OutsideError};
use std::alloc::Global;

/// How many files have room at first.
const FIRST_ROOM: usize = 2;

/// Files under names, each with a list of the calls on it that fail.
pub struct MemFiles {
    alloc: Global,
    files: Vec<NamedFile>,
    opened: Vec<Place>,
    names: Vec<String>,
    misses: u64,
    ghost placed: { ArePlaced files.items opened.items },
    ghost named: { vec_len opened ≤ vec_len names },
}

impl Drop for MemFiles {
    fn drop(self) {
        let MemFiles {
            alloc: _,
            files: _,
            opened: _,
            names: _,
            misses: _,
        } = self;
    }
}

impl MemFiles {
    ghost use Rattle.sz_io.specs.MemFiles.{IsEmpty, SameNames, SameOpened, PutsFile};

    /// No files. It takes the memory of the first few.
    pub fn new(alloc: Global) -> Result<MemFiles, NoMemory>
        ensures empty { IfOk result (λ files. IsEmpty files) }
    {
        Ok(MemFiles {
            alloc,
            files: Vec::with_capacity(alloc, FIRST_ROOM)?,
            opened: Vec::with_capacity(alloc, FIRST_ROOM)?,
            names: Vec::with_capacity(alloc, FIRST_ROOM)?,
            misses: 0,
        })
    }

    /// Adds a file, or replaces the one of this name. `fails` has the numbers of the calls on it that fail: each
    /// `open_file` of the name and each read of what that opened is one, counted from 0. A file that was opened
    /// before goes on with the bytes and the list that it had.
    pub fn put(&mut self, name: &str, bytes: &[u8], fails: &[u64]) -> Result<(), NoMemory>
        ensures ok { OnOk result (PutsFile self.old self.new name.now bytes.now fails.now) }
        ensures err { OnErr result (SameNames self.old self.new) }
        ensures kept { SameOpened self.old self.new }
    {
        let file = NamedFile {
            name: String::from_str(self.alloc, name)?,
            bytes: Vec::from_slice(self.alloc, bytes)?,
            fails: Vec::from_slice(self.alloc, fails)?,
            calls: 0,
        };
        self.files.push(file)?;
        Ok(())
    }
}

impl Files for MemFiles {
    ghost use Rattle.sz_io.specs.MemFiles.{bytes_under, left_bytes, is_given, names_opened, files_faults};
    ghost use Rattle.sz_io.specs.MemFiles.{file_after, CallsFile, OpensByPlan};

    ghost held = { bytes_under };

    ghost left = { left_bytes };

    ghost given = { is_given };

    ghost names = { names_opened };

    ghost faults = { files_faults };

    /// Fails where the name isn't there, and where its list has the number of the call.
    fn open_file(&mut self, name: &str) -> Result<u32, OutsideError>
        requires { length (names_opened self.old) < 128 }

        ensures fresh { IfOk result (λ file. IsTrue (is_given self.old file) → ⊥) }
        ensures bytes { IfOk result (λ file. left_bytes self.new file ≡ bytes_under self.old name.now) }
        ensures given { (file : ℕ) → is_given self.new file ≡ given_after (is_given self.old) result file }
        ensures names { names_opened self.new ≡ names_after (names_opened self.old) name.now result }
        ensures failed { IsErrOf result OutsideError.Failed → Rose (files_faults self.old) (files_faults self.new) }
        ensures kept { KeepsFiles bytes_under left_bytes is_given files_faults self.old self.new }

        ensures plan { OpensByPlan self.old self.new name.now result }
    {
        let number = self.opened.len() as u32;
        let found = find(&self.files, name);
        self.names.push(String::from_str(self.alloc, name)?)?;
        let Some(file) = found else {
            self.misses = self.misses.saturating_add(1);
            return Err(OutsideError::Failed);
        };
        if fails_next(&self.files, file) {
            count_call(&mut self.files, file);
            return Err(OutsideError::Failed);
        }
        if self.opened.push(Place { file, at: 0 }).is_err() {
            let _ = self.names.pop();
            return Err(OutsideError::NoMemory);
        }
        count_call(&mut self.files, file);
        Ok(number)
    }

    /// Moves the lesser of the number of bytes left and the length of `into`. Fails exactly where the file's list has
    /// the number of the call.
    fn read(&mut self, file: u32, into: &mut [u8]) -> Result<usize, Failed>
        requires { IsTrue (is_given self.old file) }

        ensures within { IfOk result (λ n. n ≤ length into.new) }
        ensures bytes { ReadConsumes (left_bytes self.old file) (left_bytes self.new file) result into.new }
        ensures failed { OnErr result (Rose (files_faults self.old) (files_faults self.new)) }
        ensures kept { KeepsOtherFiles bytes_under left_bytes is_given names_opened files_faults file self.old self.new }

        ensures plan { CallsFile self.old self.new (file_after self.old file) (is_err result) }
        ensures following { (number : ℕ) → file_after self.new number ≡ file_after self.old number }
        ensures moves { IfOk result (λ n. IfSome (left_bytes self.old file) (λ left. n ≡ min (length left) (length into.new))) }
    {
        read_at(&mut self.files, &mut self.opened[file as usize], into)
    }
}
