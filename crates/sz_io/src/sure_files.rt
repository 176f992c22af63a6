//! Files in memory of which no call fails.
ghost use Rattle.std.specs.Prelude.{◌≡◌, ◌<◌, ◌≤◌, min, ℕ, [], Ok, Some, length, unwrap_or, vec_len, string_bytes, IsTrue, IfOk, OnOk, OnErr, IfSome, IsErrOf};
ghost use Rattle.std.specs.Io.KnownBytes.{ReadConsumes};
ghost use Rattle.sz_io.specs.Opened.{names_after, given_after, KeepsFiles, KeepsOtherFiles};
ghost use Rattle.sz_io.specs.NamedFiles.{bytes_named};

use crate::named_file::{NamedFile, copy_front, find};
use crate::{Failed, Files, NoMemory, OutsideError};
use std::alloc::{AllocError, Global};

/// How many files have room at first.
const FIRST_ROOM: usize = 2;

/// A file that was opened: its name, the bytes that it has, and how many of them were read.
pub struct OpenedCopy {
    name: String,
    bytes: Vec<u8>,
    at: usize,
    ghost within: { at ≤ vec_len bytes },
}

impl Drop for OpenedCopy {
    fn drop(self) {
        let OpenedCopy {
            name: _,
            bytes: _,
            at: _,
        } = self;
    }
}

impl OpenedCopy {
    ghost use Rattle.sz_io.specs.SureFiles.{copy_left, copy_name};

    /// A file with these bytes, of which none was read.
    fn new(name: String, bytes: Vec<u8>) -> OpenedCopy
        ensures left { copy_left result ≡ Some bytes.items }
        ensures name { copy_name result ≡ string_bytes name }
    {
        OpenedCopy { name, bytes, at: 0 }
    }

    /// Moves the lesser of the number of bytes left and the length of `into`.
    fn read(&mut self, into: &mut [u8]) -> usize
        ensures bytes { ReadConsumes {E = Failed} (copy_left self.old) (copy_left self.new) (Ok result) into.new }
        ensures moves { IfSome (copy_left self.old) (λ left. result ≡ min (length left) (length into.new)) }
        ensures name { copy_name self.new ≡ copy_name self.old }
    {
        let count = copy_front(&self.bytes[self.at..], into);
        self.at += count;
        count
    }
}

/// A copy of the bytes under a name, which has none where it was never put.
fn copy_under(alloc: Global, files: &[NamedFile], name: &str) -> Result<Vec<u8>, AllocError>
    ensures { IfOk result (λ bytes. bytes.items ≡ unwrap_or (bytes_named files.now name.now) []) }
{
    match find(files, name) {
        Some(file) => Vec::from_slice(alloc, &files[file].bytes),
        None => Ok(Vec::new(alloc)),
    }
}

/// Files under names. Every name is there, and has no bytes where it was never put.
pub struct SureFiles {
    alloc: Global,
    files: Vec<NamedFile>,
    opened: Vec<OpenedCopy>,
}

impl Drop for SureFiles {
    fn drop(self) {
        let SureFiles {
            alloc: _,
            files: _,
            opened: _,
        } = self;
    }
}

impl SureFiles {
    ghost use Rattle.sz_io.specs.SureFiles.{AreUntouched, HoldsToo, HoldsSame, SameCopies};

    /// Files of which none has bytes. It takes the memory of the first few.
    pub fn new(alloc: Global) -> Result<SureFiles, NoMemory>
        ensures empty { IfOk result (λ files. AreUntouched files) }
    {
        Ok(SureFiles {
            alloc,
            files: Vec::with_capacity(alloc, FIRST_ROOM)?,
            opened: Vec::with_capacity(alloc, FIRST_ROOM)?,
        })
    }

    /// Gives a name these bytes. A file that was opened before goes on with the bytes that it had.
    pub fn put(&mut self, name: &str, bytes: &[u8]) -> Result<(), NoMemory>
        ensures ok { OnOk result (HoldsToo self.old self.new name.now bytes.now) }
        ensures err { OnErr result (HoldsSame self.old self.new) }
        ensures kept { SameCopies self.old self.new }
    {
        let file = NamedFile {
            name: String::from_str(self.alloc, name)?,
            bytes: Vec::from_slice(self.alloc, bytes)?,
            fails: Vec::new(self.alloc),
            calls: 0,
        };
        self.files.push(file)?;
        Ok(())
    }
}

impl Files for SureFiles {
    ghost use Rattle.sz_io.specs.SureFiles.{sure_bytes, sure_left, is_copied, sure_names};

    ghost held = { λ files name. Some (sure_bytes files name) };

    ghost left = { sure_left };

    ghost given = { is_copied };

    ghost names = { sure_names };

    ghost faults = { λ _. 0 };

    /// Want of memory is its only refusal.
    fn open_file(&mut self, name: &str) -> Result<u32, OutsideError>
        requires { length (sure_names self.old) < 128 }

        ensures fresh { IfOk result (λ file. IsTrue (is_copied self.old file) → ⊥) }
        ensures bytes { IfOk result (λ file. sure_left self.new file ≡ Some (sure_bytes self.old name.now)) }
        ensures given { (file : ℕ) → is_copied self.new file ≡ given_after (is_copied self.old) result file }
        ensures names { sure_names self.new ≡ names_after (sure_names self.old) name.now result }
        ensures failed { IsErrOf result OutsideError.Failed → ⊥ }
        ensures kept { KeepsFiles (λ files name. Some (sure_bytes files name)) sure_left is_copied (λ _. 0) self.old self.new }
    {
        let number = self.opened.len() as u32;
        let bytes = copy_under(self.alloc, &self.files, name)?;
        let name = String::from_str(self.alloc, name)?;
        self.opened.push(OpenedCopy::new(name, bytes))?;
        Ok(number)
    }

    /// Moves the lesser of the number of bytes left and the length of `into`. It never fails.
    fn read(&mut self, file: u32, into: &mut [u8]) -> Result<usize, Failed>
        requires { IsTrue (is_copied self.old file) }

        ensures within { IfOk result (λ n. n ≤ length into.new) }
        ensures bytes { ReadConsumes (sure_left self.old file) (sure_left self.new file) result into.new }
        ensures failed { OnErr result ⊥ }
        ensures kept { KeepsOtherFiles (λ files name. Some (sure_bytes files name)) sure_left is_copied sure_names (λ _. 0) file self.old self.new }

        ensures moves { IfOk result (λ n. IfSome (sure_left self.old file) (λ left. n ≡ min (length left) (length into.new))) }
    {
        Ok(self.opened[file as usize].read(into))
    }
}
