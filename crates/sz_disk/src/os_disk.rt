//! The file of a journal. Nothing is proved of what it keeps.
ghost use Rattle.std.specs.Prelude.{◌≡◌, ◌+◌, ◌≤◌, ◌-◌, ◌^◌, length, true, None, OnErr, is_err};
ghost use Rattle.sz_io.specs.Rose.{Rose};
ghost use Rattle.sz_disk.specs.Crashes.{untold};

use crate::Disk;
use std::fs::{self, File, OpenOptions};
use std::io;
use std::os::unix::fs::{FileExt, MetadataExt};
use sz_io::{Failed, OutsideError};

/// The name of the file in the working directory.
const NAME: &str = "szl.journal";

/// The end of a write is below this, as that of a file is.
const END: u64 = 1 << 63;

/// The file `szl.journal` in the working directory.
///
/// The first call opens it, or makes it, and locks it, so that no two processes use it at once. A lock that another one holds isn't waited for:
/// then the disk has failed. It is given back when the file is closed, also where the process is killed. A symbolic link isn't followed: then too
/// the disk has failed, and nothing is made or changed. Where the opening fails, the next call opens it anew.
#[derive(Drop)]
pub struct OsDisk<'a> {
    rt: &'a HostRuntime,
    file: Option<File>,
    faults: u64,
}

impl<'a> OsDisk<'a> {
    ghost use Rattle.sz_disk.specs.OsDisk.{file_faults};

    /// The disk over the file that `rt` opens, which the first call does.
    pub fn new(rt: &'a HostRuntime) -> OsDisk<'a>
        ensures no_fault { file_faults result ≡ 0 }
    {
        OsDisk {
            rt,
            file: None,
            faults: 0,
        }
    }
}

/// The file, which is made where the name is free. Nothing is made or opened behind a symbolic link.
fn open_or_make(rt: &HostRuntime) -> io::Result<File> {
    match File::create_new(rt, NAME) {
        Err(error) if error.kind() == io::ErrorKind::AlreadyExists => {}
        made => return made,
    }
    if !fs::symlink_metadata(rt, NAME)?.is_file() {
        return Err(io::ErrorKind::Unsupported.into());
    }
    OpenOptions::new().read(true).write(true).open(rt, NAME)
}

/// The file, opened or made, and locked. It is none where the name is by now that of something else, as a link that came in between.
/// Its name is synced too: that of a file that was made may be lost with all that is in it.
fn open(rt: &HostRuntime) -> io::Result<File> {
    let file = open_or_make(rt)?;
    let (found, named) = (file.metadata()?, fs::symlink_metadata(rt, NAME)?);
    if !found.is_file() || found.dev() != named.dev() || found.ino() != named.ino() {
        return Err(io::ErrorKind::Unsupported.into());
    }
    file.try_lock()?;
    fs::open(rt, ".")?.sync_all()?;
    Ok(file)
}

/// The file that is there by now, or is opened.
fn opened<'f>(rt: &HostRuntime, file: &'f mut Option<File>) -> io::Result<&'f File> {
    if file.is_none() {
        *file = Some(open(rt)?);
    }
    match file {
        Some(file) => Ok(file),
        None => Err(io::Error::from(io::ErrorKind::NotFound)),
    }
}

/// The answer of the system, of which an error is counted.
fn counted<T: Drop>(faults: &mut u64, answer: io::Result<T>) -> Result<T, Failed>
    ensures fails { is_err result ≡ is_err answer }
    ensures failed { OnErr result (Rose faults.old faults.new) }
    ensures later { faults.old ≤ faults.new }
    ensures stays { faults.old ≡ 2 ^ 64 - 1 → faults.new ≡ 2 ^ 64 - 1 }
{
    match answer {
        Ok(value) => Ok(value),
        Err(_) => {
            *faults = faults.saturating_add(1);
            Err(Failed)
        }
    }
}

/// How many bytes the file has.
fn length(file: io::Result<&File>) -> io::Result<u64> {
    Ok(file?.metadata()?.len())
}

/// Fills `into` with the bytes of the file from a place on.
fn read(file: io::Result<&File>, at: u64, into: &mut [u8]) -> io::Result<()> {
    file?.read_exact_at(into, at)
}

/// Writes bytes to the file from a place on.
fn write(file: io::Result<&File>, at: u64, written: &[u8]) -> io::Result<()>
    ensures too_far { 2 ^ 63 ≤ at + length written.now → is_err result ≡ true }
{
    if at.saturating_add(written.len() as u64) >= END {
        return Err(io::Error::from(io::ErrorKind::InvalidInput));
    }
    file?.write_all_at(written, at)
}

/// Syncs the file.
fn sync(file: io::Result<&File>) -> io::Result<()> {
    file?.sync_all()
}

impl Disk for OsDisk<'_> {
    ghost use Rattle.sz_disk.specs.OsDisk.{file_faults};

    ghost bytes = { λ _. None };

    ghost may_leave = { λ _. untold };

    ghost time = { λ _. 0 };

    ghost left_since = { λ _ _. untold };

    ghost faults = { file_faults };

    ghost counts_now = { λ disk t image le now. tt };

    ghost read_may_stay = { λ disk held is. tt };

    ghost only_now = { λ disk. tt };

    fn length(&mut self) -> Result<u64, Failed> {
        let answer = length(opened(self.rt, &mut self.file));
        counted(&mut self.faults, answer)
    }

    fn read_at(&mut self, at: u64, into: &mut [u8]) -> Result<(), Failed> {
        let answer = read(opened(self.rt, &mut self.file), at, into);
        counted(&mut self.faults, answer)
    }

    fn write_at(&mut self, at: u64, written: &[u8]) -> Result<(), OutsideError> {
        let answer = write(opened(self.rt, &mut self.file), at, written);
        match counted(&mut self.faults, answer) {
            Ok(()) => Ok(()),
            Err(Failed) => Err(OutsideError::Failed),
        }
    }

    fn sync(&mut self) -> Result<(), Failed> {
        let answer = sync(opened(self.rt, &mut self.file));
        counted(&mut self.faults, answer)
    }
}
