//! Records that were cut from a file.
ghost use Rattle.std.specs.Prelude.{◌≡◌, ◌==◌, ◌-◌, ◌<◌, ◌≤◌, length, take, drop, slice_get, OnOk, OnErr, Some};
ghost use Rattle.sz_records.specs.Ends.{no_records, with_record, first_of, later_of};
ghost use Rattle.sz_records.specs.Shards.{bytes_in};

use crate::NoMemory;
use crate::laid::{Laid, end_of_laid, left_from, with_next};
use crate::places::{add, between, drop_front, lower, place_before};
use std::alloc::Global;
use std::marker::Model;

/// Records, in the order in which they came. Places are counted from 0.
///
/// Contracts see the bytes of each, and where it ends in its file. All bytes lie in one buffer. Where a record ends in its file is kept only
/// from the first one on that doesn't follow the one before it, or takes more or fewer bytes besides its own than that: no line does so
/// but a last one without its newline.
#[derive(Debug)]
pub struct Records {
    bytes: Vec<u8>,
    /// Where each record ends in the buffer. The next one begins there.
    ends: Vec<usize>,
    /// Where the first records lie in their file.
    laid: Laid,
    /// Where the others end in their file.
    placed: Vec<u64>,
}

impl Drop for Records {
    fn drop(self) {
        let Records {
            bytes: _,
            ends: _,
            laid: _,
            placed: _,
        } = self;
    }
}

impl Model for Records {
    ghost use Rattle.std.specs.Prelude.{length};
    ghost use Rattle.sz_records.specs.Ends.{RecordsData, records_at, file_ends, AreKept};

    ghost Value = { RecordsData };

    ghost view = { λ r. record { items = records_at 0 r.ends.items r.bytes.items; ends = file_ends r.laid.from r.laid.more r.ends.items r.placed.items } };

    ghost invariant = { λ r. AreKept r.laid.from r.laid.more r.ends.items r.placed.items (length r.bytes.items) };
}

impl Records {
    /// No records, which takes no memory. They keep the allocator for their calls.
    pub fn new(alloc: Global) -> Records
        ensures value { result ≡ no_records }
    {
        Records {
            bytes: Vec::new(alloc),
            ends: Vec::new(alloc),
            laid: Laid { from: 0, more: 0 },
            placed: Vec::new(alloc),
        }
    }

    /// The number of records.
    pub fn len(&self) -> usize
        ensures value { result ≡ length self.now.items }
        ensures ends { result ≡ length self.now.ends }
    {
        self.ends.len()
    }

    /// Whether there are no records.
    pub fn is_empty(&self) -> bool
        ensures value { result ≡ (length self.now.items == 0) }
    {
        self.ends.is_empty()
    }

    /// The bytes of record `i`, counted from 0, without its length or its newline.
    pub fn get(&self, i: usize) -> &[u8]
        requires within { i < length self.now.items }
        ensures value { slice_get self.now.items i ≡ Some result.now }
    {
        let from = place_before(self.ends.as_slice(), i);
        between(self.bytes.as_slice(), from, self.ends[i])
    }

    /// Where record `i`, counted from 0, ends in its file: the place just after its last byte, or after its newline where it is a line that has
    /// one. The next record begins there, with its length if it has one. The file's first byte has place 0, also where the framer that gave the
    /// record began after a front of the file.
    pub fn end(&self, i: usize) -> u64
        requires within { i < length self.now.items }
        ensures value { slice_get self.now.ends i ≡ Some result }
    {
        let laid = self.ends.len() - self.placed.len();
        if i < laid {
            end_of_laid(self.laid, i + 1, self.ends[i])
        } else {
            self.placed[i - laid]
        }
    }

    /// How many bytes the records from number `from` up to the one before number `to` have together, without lengths and newlines. It looks at
    /// two ends alone.
    pub fn bytes_between(&self, from: usize, to: usize) -> usize
        requires order { from ≤ to }
        requires within { to ≤ length self.now.items }
        ensures value { result ≡ bytes_in (take (to - from) (drop from self.now.items)) }
    {
        let low = place_before(self.ends.as_slice(), from);
        let high = place_before(self.ends.as_slice(), to);
        high - low
    }

    /// Drops so many records from the front: the next one has number 0 then. It moves the bytes that stay, and their ends.
    pub fn clear(&mut self, front: usize)
        requires within { front ≤ length self.old.items }
        ensures value { self.new ≡ later_of front self.old }
    {
        let place = place_before(self.ends.as_slice(), front);
        let laid = self.ends.len() - self.placed.len();
        self.laid.from = left_from(self.laid, laid, front, place);
        drop_front(&mut self.placed, front.saturating_sub(laid));
        drop_front(&mut self.bytes, place);
        drop_front(&mut self.ends, front);
        lower(&mut self.ends, place);
    }

    /// Keeps so many records at the front.
    pub(crate) fn truncate(&mut self, count: usize)
        ensures value { self.new ≡ first_of count self.old }
    {
        if count < self.ends.len() {
            let place = place_before(self.ends.as_slice(), count);
            let laid = self.ends.len() - self.placed.len();
            self.placed.truncate(count.saturating_sub(laid));
            self.bytes.truncate(place);
            self.ends.truncate(count);
        }
    }

    /// Adds a copy of these bytes as a record, which takes `size` bytes of its file, up to the place `end`.
    pub(crate) fn push(&mut self, bytes: &[u8], end: u64, size: u64) -> Result<(), NoMemory>
        requires own { length bytes.now ≤ size }
        requires taken { size ≤ end }
        ensures value { OnOk result (self.new ≡ with_record bytes.now end self.old) }
        ensures err { OnErr result (self.new ≡ self.old) }
    {
        let next = Laid {
            from: end - size,
            more: size - bytes.len() as u64,
        };
        match with_next(
            self.laid,
            self.ends.as_slice(),
            self.placed.as_slice(),
            next,
        ) {
            Some(laid) => {
                add(&mut self.bytes, &mut self.ends, bytes)?;
                self.laid = laid;
            }
            None => {
                self.placed.reserve(1)?;
                add(&mut self.bytes, &mut self.ends, bytes)?;
                self.placed.push(end)?;
            }
        }
        Ok(())
    }
}
