//! Records of a file that comes in pieces.

ghost use Rattle.std.specs.Prelude.{◌≡◌, ◌≤◌, [], None, IfOk, OnOk, OnErr};

use crate::NoMemory;
use crate::cutter::Cutter;
use crate::ending::Ending;
use crate::limits::FrameLimits;
use crate::places::drop_front;
use crate::records::Records;
use std::alloc::Global;
use std::marker::Model;
use sz_types::Frame;

/// Cuts a file that comes in pieces into records.
///
/// It holds back the beginning of a record that isn't all there, and no other bytes.
#[derive(Debug)]
pub struct Framer {
    cutter: Cutter,
    pending: Vec<u8>,
    /// Where records are lines, so many of the bytes that are kept back are known to be no newlines.
    scanned: usize,
    ended: Option<Ending>,
}

impl Drop for Framer {
    fn drop(self) {
        let Framer {
            cutter: _,
            pending: _,
            scanned: _,
            ended: _,
        } = self;
    }
}

impl Model for Framer {
    ghost use Rattle.sz_records.specs.Fed.{FramerData};
    ghost use Rattle.sz_records.specs.Steps.{IsScanned};

    ghost Value = { FramerData };

    ghost view = { λ framer. record { cutter = framer.cutter; pending = framer.pending.items; ended = framer.ended } };

    ghost invariant = { λ framer. IsScanned framer.cutter.frame framer.pending.items framer.scanned };
}

impl Framer {
    ghost use Rattle.sz_records.specs.Fed.{HasRead, HasReadBehind, Feeds, EndAsFed, Finishes, EndAsFinished, CutsPending};

    /// A framer at the beginning of a file. It takes no memory.
    pub fn new(alloc: Global, frame: Frame, limits: FrameLimits) -> Framer
        ensures start { HasRead frame limits result [] [] }
        ensures not_ended { result.ended ≡ None }
    {
        Framer::behind(alloc, frame, limits, 0, 0)
    }

    /// A framer in a file, behind so many of its bytes, which so many records take. The bytes that it is fed are those after these, and places
    /// are counted from the first byte of the file. It takes no memory.
    pub fn behind(
        alloc: Global,
        frame: Frame,
        limits: FrameLimits,
        bytes: u64,
        records: u64,
    ) -> Framer
        requires bytes { bytes ≤ limits.input_bytes }
        requires records { records ≤ limits.records }
        ensures start { HasReadBehind bytes records frame limits result [] [] }
        ensures not_ended { result.ended ≡ None }
    {
        let cutter = Cutter {
            frame,
            limits,
            place: bytes,
            count: records,
        };
        Framer {
            cutter,
            pending: Vec::new(alloc),
            scanned: 0,
            ended: None,
        }
    }

    // Cuts off the records that are whole in what is kept back.
    #[tactic(auto, using(crate::proofs::FedLemmas::cuts_pending, crate::proofs::ScanLemmas::all_scanned, crate::proofs::ScanLemmas::none_scanned))]
    fn cut_pending(&mut self, into: &mut Records) -> Result<(), NoMemory>
        ensures ok { OnOk result (CutsPending self.old self.new into.old into.new) }
        ensures err { OnErr result ((self.new ≡ self.old) × (into.new ≡ into.old)) }
    {
        let cutter = self.cutter;
        let count = into.len();
        match self.cutter.cut(self.pending.as_slice(), self.scanned, into) {
            Ok((at, ended)) => {
                drop_front(&mut self.pending, at);
                self.scanned = if ended.is_none() {
                    self.pending.len()
                } else {
                    0
                };
                self.ended = ended;
                Ok(())
            }
            Err(error) => {
                self.cutter = cutter;
                into.truncate(count);
                Err(error)
            }
        }
    }

    // Takes in a piece, where the ending isn't known.
    #[tactic(auto, using(crate::proofs::FedLemmas::feeds_cut, crate::proofs::ScanLemmas::scanned_longer, crate::proofs::ScanLemmas::none_scanned))]
    fn take_in(&mut self, piece: &[u8], into: &mut Records) -> Result<Option<Ending>, NoMemory>
        requires { self.old.ended ≡ None }
        ensures fed { IfOk result (λ ended. Feeds self.old self.new piece.now into.old.items into.new.items ended) }
        ensures ends { OnOk result (EndAsFed self.old piece.now into.old into.new) }
        ensures known { IfOk result (λ ended. ended ≡ self.new.ended) }
        ensures err { OnErr result ((self.new ≡ self.old) × (into.new ≡ into.old)) }
    {
        let pending = self.pending.len();
        self.pending.extend_from_slice(piece)?;
        match self.cut_pending(into) {
            Ok(()) => Ok(self.ended),
            Err(error) => {
                self.pending.truncate(pending);
                self.scanned = 0;
                Err(error)
            }
        }
    }

    /// Takes the next piece of the file, and adds the records that are now whole.
    ///
    /// The answer is the ending where the bytes so far have fixed it, as `Damaged` or `Limit`. From then on no piece changes
    /// anything, and the answer stays the same. Where there is no memory the piece isn't taken.
    #[tactic(auto, using(crate::proofs::FedLemmas::feeds_ended))]
    pub fn feed(&mut self, piece: &[u8], into: &mut Records) -> Result<Option<Ending>, NoMemory>
        ensures fed { IfOk result (λ ended. Feeds self.old self.new piece.now into.old.items into.new.items ended) }
        ensures ends { OnOk result (EndAsFed self.old piece.now into.old into.new) }
        ensures known { IfOk result (λ ended. ended ≡ self.new.ended) }
        ensures err { OnErr result ((self.new ≡ self.old) × (into.new ≡ into.old)) }
    {
        match self.ended {
            Some(ending) => Ok(Some(ending)),
            None => self.take_in(piece, into),
        }
    }

    // The ending of the file, where it wasn't known before its end.
    fn close(&mut self, into: &mut Records) -> Result<Ending, NoMemory>
        requires { self.old.ended ≡ None }
        ensures finished { IfOk result (λ e. Finishes self.old into.old.items into.new.items e) }
        ensures ends { OnOk result (EndAsFinished self.old into.old into.new) }
        ensures err { OnErr result ((self.new ≡ self.old) × (into.new ≡ into.old)) }
    {
        if self.pending.is_empty() {
            return Ok(Ending::Whole);
        }
        match self.cutter.frame {
            Frame::Lines => {
                let size = self.pending.len() as u64;
                let end = self.cutter.place.saturating_add(size);
                into.push(self.pending.as_slice(), end, size)?;
                Ok(Ending::Whole)
            }
            Frame::Delimited => Ok(Ending::Damaged(self.cutter.place)),
        }
    }

    /// The ending of the file, of which no more bytes come. A last line without its newline is added.
    ///
    /// No call comes after this one, but another try where there was no memory.
    pub fn finish(&mut self, into: &mut Records) -> Result<Ending, NoMemory>
        ensures finished { IfOk result (λ e. Finishes self.old into.old.items into.new.items e) }
        ensures ends { OnOk result (EndAsFinished self.old into.old into.new) }
        ensures err { OnErr result ((self.new ≡ self.old) × (into.new ≡ into.old)) }
    {
        match self.ended {
            Some(ending) => Ok(ending),
            None => self.close(into),
        }
    }
}
