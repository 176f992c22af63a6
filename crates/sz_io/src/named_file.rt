//! The files that a device in memory holds, the newest last, and where an opened one stands.
ghost use Rattle.std.specs.Prelude.{◌≡◌, ◌<◌, ◌-◌, min, length, take, ◌↔◌, IsTrue, IsErr, IfOk, IfSome};
ghost use Rattle.std.specs.Io.KnownBytes.{ReadConsumes};
ghost use Rattle.sz_io.specs.NamedFiles.{place_in, bytes_at, rest_of, is_next_listed, CallsOneFile};
ghost use Rattle.sz_io.specs.Placed.{IsPlaced};

use crate::Failed;
use crate::listed::is_listed;

/// A file under a name, with the numbers of the calls on it that fail.
pub struct NamedFile {
    pub name: String,
    pub bytes: Vec<u8>,
    pub fails: Vec<u64>,
    pub calls: u64,
}

impl Drop for NamedFile {
    fn drop(self) {
        let NamedFile {
            name: _,
            bytes: _,
            fails: _,
            calls: _,
        } = self;
    }
}

/// Which file was opened, and how many of its bytes were read.
#[derive(Clone, Copy, Debug)]
pub struct Place {
    pub file: usize,
    pub at: usize,
}

/// The place of the newest file under the name.
pub fn find(files: &[NamedFile], name: &str) -> Option<usize>
    ensures value { result ≡ place_in files.now name.now }
    ensures within { IfSome result (λ file. file < length files.now) }
{
    for i in (0..files.len()).rev() {
        if files[i].name.as_str() == name {
            return Some(i);
        }
    }
    None
}

/// Whether the next call on the file is to fail.
pub fn fails_next(files: &[NamedFile], file: usize) -> bool
    requires { file < length files.now }
    ensures { result ≡ is_next_listed files.now file }
{
    is_listed(&files[file].fails, files[file].calls)
}

/// Counts a call on the file.
pub fn count_call(files: &mut [NamedFile], file: usize)
    requires { file < length files.old }
    ensures { CallsOneFile files.old files.new file }
{
    let called = &mut files[file];
    let calls = called.calls;
    called.calls = calls.saturating_add(1);
}

/// Copies as many bytes to the front of `into` as both have.
pub fn copy_front(from: &[u8], into: &mut [u8]) -> usize
    ensures value { result ≡ min (length from.now) (length into.old) }
    ensures bytes { take result into.new ≡ take result from.now }
{
    let count = from.len().min(into.len());
    into[..count].copy_from_slice(&from[..count]);
    count
}

/// Counts a read at the place, and moves the place after the bytes that it gives.
pub fn read_at(files: &mut [NamedFile], place: &mut Place, into: &mut [u8]) -> Result<usize, Failed>
    requires { IsPlaced files.old place.old }

    ensures call { CallsOneFile files.old files.new place.old.file }
    ensures place { IsPlaced files.new place.new }
    ensures file { place.new.file ≡ place.old.file }

    ensures bytes { ReadConsumes (rest_of files.old place.old) (rest_of files.old place.new) result into.new }
    ensures moves { IfOk result (λ n. n ≡ min (length (bytes_at files.old place.old.file) - place.old.at) (length into.old)) }
    ensures listed { IsErr result ↔ IsTrue (is_next_listed files.old place.old.file) }
{
    let fails = fails_next(files, place.file);
    count_call(files, place.file);
    if fails {
        return Err(Failed);
    }
    let count = copy_front(&files[place.file].bytes[place.at..], into);
    place.at += count;
    Ok(count)
}
