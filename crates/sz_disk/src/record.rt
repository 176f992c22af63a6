//! The record of what was written to a disk in memory.
ghost use Rattle.std.specs.Prelude.{◌≡◌, [], List, ℕ, true, false, IfOk, OnOk, OnErr};
ghost use Rattle.sz_disk.specs.Stretches.{LeftBy, at_hand, ended_by, Notes, NotesNothing, Syncs};

use crate::{Span, tearing};
use std::alloc::{AllocError, Global};

/// The bytes that stood at a sync, and the spans that were written from then up to the next one.
#[derive(Drop)]
pub struct Stretch {
    synced: Vec<u8>,
    spans: Vec<Span>,
}

/// The stretches of writes so far. The last one that has a write stands apart; a sync has ended it where `is_synced` says so.
#[derive(Drop)]
pub struct Record {
    ended: Vec<Stretch>,
    synced: Vec<u8>,
    spans: Vec<Span>,
    is_synced: bool,
}

impl Record {
    /// No writes to a disk with these bytes, which is synced.
    pub fn new(alloc: Global, bytes: &[u8]) -> Result<Record, AllocError>
        ensures none { IfOk result (λ kept. (at_hand kept bytes.now ≡ record { synced = bytes.now; spans = [] }) × (ended_by kept ≡ [])) }
    {
        Ok(Record {
            ended: Vec::new(alloc),
            synced: Vec::from_slice(alloc, bytes)?,
            spans: Vec::new(alloc),
            is_synced: false,
        })
    }

    /// Notes a write, before which a read gave these bytes.
    pub fn note(&mut self, alloc: Global, bytes: &[u8], span: Span) -> Result<(), AllocError>
        ensures ok { OnOk result (Notes self.old self.new bytes.now span) }
        ensures err { OnErr result (NotesNothing self.old self.new bytes.now) }
    {
        if self.is_synced {
            self.begin(alloc, bytes)?;
        }
        self.spans.push(span)?;
        Ok(())
    }

    /// Begins a stretch, as the last one was ended.
    fn begin(&mut self, alloc: Global, bytes: &[u8]) -> Result<(), AllocError>
        requires { self.old.is_synced ≡ true }
        ensures ok { OnOk result (NotesNothing self.old self.new bytes.now × (self.new.is_synced ≡ false)) }
        ensures err { OnErr result (NotesNothing self.old self.new bytes.now) }
    {
        let synced = Vec::from_slice(alloc, bytes)?;
        let ended = Stretch {
            synced: Vec::from_slice(alloc, &self.synced)?,
            spans: Vec::from_slice(alloc, &self.spans)?,
        };
        self.ended.push(ended)?;
        self.synced = synced;
        self.spans.clear();
        self.is_synced = false;
        Ok(())
    }

    /// All writes so far are synced.
    pub fn sync(&mut self)
        ensures { (bytes : List ℕ) → Syncs self.old self.new bytes }
    {
        self.is_synced = true;
    }

    /// Makes of what a read gives what a crash may leave, chosen by a number, and forgets all writes.
    pub fn crash(&mut self, bytes: &mut Vec<u8>, pick: u64)
        requires { LeftBy (at_hand self.old bytes.old.items) bytes.old.items }
        ensures image { LeftBy (at_hand self.old bytes.old.items) bytes.new.items }
        ensures none { (after : List ℕ) → at_hand self.new after ≡ record { synced = after; spans = [] } }
    {
        if !self.is_synced {
            tearing::tear(bytes, &self.synced, &self.spans, pick);
        }
        self.ended.clear();
        self.spans.clear();
        self.is_synced = true;
    }
}
