//! Cuts whole records off the front of bytes.

ghost use Rattle.std.specs.Prelude.{◌≡◌, ◌≤◌, drop, length, OnErr, IfOk};

use crate::NoMemory;
use crate::ending::Ending;
use crate::limits::FrameLimits;
use crate::record_at::{Front, found_at, rest};
use crate::records::Records;
use sz_types::Frame;

/// Where the next record begins, and how many came before it.
#[derive(Clone, Copy, Debug)]
pub(crate) struct Cutter {
    pub(crate) frame: Frame,
    pub(crate) limits: FrameLimits,
    /// The byte at which the next record begins, counted from 0.
    pub(crate) place: u64,
    /// The number of records before it.
    pub(crate) count: u64,
    ghost in_input: { place ≤ limits.input_bytes },
    ghost in_records: { count ≤ limits.records },
}

/// What cutting came to.
#[derive(Clone, Copy, Debug)]
pub(crate) enum Step {
    /// A record that takes so many bytes.
    Passed(usize),
    /// The ending.
    Stopped(Ending),
    /// The beginning of a record, or nothing.
    Unfinished,
}

impl Cutter {
    ghost use Rattle.sz_records.specs.Steps.{IsStep, CutsOff, IsScanned, Grew};

    // Cuts off the record at the front, if it is whole.
    fn step(&mut self, bytes: &[u8], scanned: usize, into: &mut Records) -> Result<Step, NoMemory>
        requires scanned { IsScanned self.old.frame bytes.now scanned }
        ensures err { OnErr result (into.new ≡ into.old) }
        ensures step { IfOk result (λ step. IsStep self.old self.new bytes.now into.old into.new step) }
    {
        match found_at(
            self.frame,
            self.limits,
            self.place,
            self.count,
            bytes,
            scanned,
        ) {
            Front::Record(from, to, size) => {
                let end = self.place + size as u64;
                into.push(&bytes[from..to], end, size as u64)?;
                self.place = end;
                self.count += 1;
                Ok(Step::Passed(size))
            }
            Front::Stopped(ending) => Ok(Step::Stopped(ending)),
            Front::Unfinished => Ok(Step::Unfinished),
        }
    }

    #[tactic(auto, using(crate::proofs::CutLemmas::has_grown, crate::proofs::ScanLemmas::none_scanned))]
    /// Cuts off the records at the front that are whole: how many bytes they take, and the ending if it is known then. Where
    /// records are lines, the first `scanned` bytes are no newlines.
    pub(crate) fn cut(
        &mut self,
        bytes: &[u8],
        scanned: usize,
        into: &mut Records,
    ) -> Result<(usize, Option<Ending>), NoMemory>
        requires scanned { IsScanned self.old.frame bytes.now scanned }
        ensures cut { IfOk result (λ r. CutsOff self.old self.new bytes.now (drop r.0 bytes.now) into.old into.new r.1) }
        ensures within { IfOk result (λ r. r.0 ≤ length bytes.now) }
        ensures err { OnErr result (Grew into.old into.new) }
    {
        let mut at = 0;
        let mut known = scanned;
        loop {
            match self.step(rest(bytes, at), known, into)? {
                Step::Passed(size) => {
                    at += size;
                    known = 0;
                }
                Step::Stopped(ending) => return Ok((at, Some(ending))),
                Step::Unfinished => return Ok((at, None)),
            }
        }
    }
}
