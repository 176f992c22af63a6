//! The sums by component, of which a single one is kept in place.
ghost use Rattle.std.specs.Prelude.{◌≡◌, ◌<◌, ◌+◌, ◌+ℤ◌, ◌^◌, length, replicate, pos, IfOk};
ghost use Rattle.sz_tabs.specs.Bounds.{IsWithin, AreWithin, added_at};

use crate::storage::Storage;
use std::alloc::Global;
use std::marker::Model;
use std::slice;
use sz_tabs::NoMemory;

// The sums by component. A single one, as that of a table of `int`, is kept in place: such a table may have a million sums, and a block
// for each would take more than the number.
//
// Contracts see the list of the sums.
#[derive(Debug)]
pub(crate) struct Numbers {
    storage: Storage,
}

impl Drop for Numbers {
    fn drop(self) {
        let Numbers { storage: _ } = self;
    }
}

impl Model for Numbers {
    ghost use Rattle.std.specs.Prelude.{ℤ, List};
    ghost use Rattle.sz_sum.specs.Storage.{sums_of};

    ghost Value = { List ℤ };

    ghost view = { λ numbers. sums_of numbers.storage };
}

impl Numbers {
    // So many zeros.
    pub(crate) fn zeros(alloc: Global, count: usize) -> Result<Numbers, NoMemory>
        ensures value { IfOk result (λ sums. sums ≡ replicate count (pos 0)) }
    {
        let storage = match count {
            1 => Storage::One(0),
            _ => Storage::Many(vec![in alloc; 0; count]?),
        };
        Ok(Numbers { storage })
    }

    // The sums, in order.
    pub(crate) fn as_slice(&self) -> &[i128]
        ensures value { result.now ≡ self.now }
    {
        match &self.storage {
            Storage::One(sum) => slice::from_ref(sum),
            Storage::Many(sums) => sums.as_slice(),
        }
    }

    // Adds a number to the sum at a place.
    pub(crate) fn add_at(&mut self, at: usize, number: i128)
        requires place { at < length self.old }
        requires within { AreWithin (2 ^ 126 + 2 ^ 63) self.old }
        requires number { IsWithin (2 ^ 126) number }
        requires fits { AreWithin (2 ^ 126 + 2 ^ 63) (added_at at number self.old) }
        ensures value { self.new ≡ added_at at number self.old }
    {
        match &mut self.storage {
            Storage::One(sum) => *sum = more(*sum, number),
            Storage::Many(sums) => add_in(sums, at, number),
        }
    }
}

// Adds a number to the sum at a place of several.
fn add_in(sums: &mut Vec<i128>, at: usize, number: i128)
    requires place { at < length sums.old.items }
    requires within { AreWithin (2 ^ 126 + 2 ^ 63) sums.old.items }
    requires number { IsWithin (2 ^ 126) number }
    requires fits { AreWithin (2 ^ 126 + 2 ^ 63) (added_at at number sums.old.items) }
    ensures value { sums.new.items ≡ added_at at number sums.old.items }
{
    sums[at] = more(sums[at], number);
}

// The sum with the number added.
fn more(sum: i128, number: i128) -> i128
    requires fits { IsWithin (2 ^ 126 + 2 ^ 63) (sum +ℤ number) }
    ensures value { result ≡ sum +ℤ number }
{
    sum + number
}
