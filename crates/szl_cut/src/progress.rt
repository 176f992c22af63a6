//! A file of messages on the way: how far it was read, and where it is cut so far.
ghost use Rattle.std.specs.Prelude.{◌≡◌, ◌≤◌, ◌∷◌, [], IfErr, IfOk, OnOk, IsErrOf};
ghost use Rattle.sz_records.specs.Ends.{no_records};
ghost use Rattle.szl_cut.specs.Reading.{Starts, Notes, ended_so, Takes, Stops, Finishes, FinishesNot};

use crate::failure::Failure;
use std::alloc::{AllocError, Global};
use sz_records::{Ending, FrameLimits, Framer, Records};
use sz_types::Frame;

/// A file of messages on the way.
pub(crate) struct Progress {
    pub(crate) framer: Framer,
    /// The messages of the last piece, until they are noted.
    pub(crate) records: Records,
    /// The size of parts.
    pub(crate) size: u64,
    /// Where the last message that was noted begins.
    pub(crate) before: u64,
    /// Where it ends, and the next one begins.
    pub(crate) start: u64,
    /// Where the file is cut.
    pub(crate) places: Vec<u64>,
}

impl Drop for Progress {
    fn drop(self) {
        let Progress {
            framer: _,
            records: _,
            size: _,
            before: _,
            start: _,
            places: _,
        } = self;
    }
}

impl Progress {
    /// At the beginning of a file. It takes no memory.
    pub(crate) fn new(alloc: Global, size: u64) -> Progress
        ensures value { Starts size result }
    {
        Progress {
            framer: Framer::new(alloc, Frame::Delimited, FrameLimits::FULL),
            records: Records::new(alloc),
            size,
            before: 0,
            start: 0,
            places: Vec::new(alloc),
        }
    }

    /// Notes the next message, which ends at this place. The file is cut in front of it if it is the first one to begin at a multiple of the
    /// size, or past it.
    fn note(&mut self, end: u64) -> Result<(), AllocError>
        requires size { 1 ≤ self.old.size }
        ensures value { OnOk result (Notes self.old self.new (end ∷ [])) }
        ensures records { self.new.records ≡ self.old.records }
    {
        if self.before / self.size < self.start / self.size {
            self.places.push(self.start)?;
        }
        self.before = self.start;
        self.start = end;
        Ok(())
    }

    /// Notes the messages of the last piece, and drops them.
    fn note_all(&mut self) -> Result<(), AllocError>
        requires size { 1 ≤ self.old.size }
        ensures value { OnOk result (Notes self.old self.new self.old.records.ends) }
        ensures none { OnOk result (self.new.records ≡ no_records) }
    {
        let count = self.records.len();
        for i in 0..count {
            let end = self.records.end(i);
            self.note(end)?;
        }
        self.records.clear(count);
        Ok(())
    }

    /// Takes in the next piece of the file.
    pub(crate) fn take(&mut self, piece: &[u8]) -> Result<(), Failure>
        requires size { 1 ≤ self.old.size }
        ensures taken { OnOk result (Takes self.old self.new piece.now) }
        ensures stopped { IfErr result (Stops self.old piece.now) }
        ensures unread { IsErrOf result Failure.ReadFailed → ⊥ }
    {
        let ending = self.framer.feed(piece, &mut self.records)?;
        self.note_all()?;
        ended(ending)
    }

    /// Where the file is cut, of which no more comes.
    pub(crate) fn finish(self) -> Result<Vec<u64>, Failure>
        requires size { 1 ≤ self.size }
        ensures whole { IfOk result (λ places. Finishes self places.items) }
        ensures stopped { IfErr result (FinishesNot self) }
        ensures unread { IsErrOf result Failure.ReadFailed → ⊥ }
    {
        let mut progress = self;
        let ending = progress.framer.finish(&mut progress.records)?;
        progress.note_all()?;
        ended(Some(ending))?;
        Ok(progress.into_places())
    }

    /// The places.
    fn into_places(self) -> Vec<u64>
        ensures value { result.items ≡ self.places.items }
    {
        let Progress {
            framer: _,
            records: _,
            size: _,
            before: _,
            start: _,
            places,
        } = self;
        places
    }
}

/// How messages end, as the answer of a call.
fn ended(ending: Option<Ending>) -> Result<(), Failure>
    ensures value { result ≡ ended_so ending }
    ensures unread { IsErrOf result Failure.ReadFailed → ⊥ }
{
    match ending {
        None | Some(Ending::Whole) => Ok(()),
        Some(Ending::Damaged(byte)) => Err(Failure::Damaged(byte)),
        Some(Ending::Limit(byte)) => Err(Failure::Limit(byte)),
    }
}
