//! The words and marks at the start, and what is read of the words at the end.
ghost use Rattle.std.specs.Prelude.{◌≡◌, ◌+◌, ◌*◌, ◌^◌, ◌<◌, ◌≤◌, ℕ, false, [], ◌∷◌, ◌++◌, length, map, replicate, slice_index, IfOk};
ghost use Rattle.std.specs.Mem.Slots.{IsFull, slots_items, slots_len};
ghost use mathlib.Core.Option.{some};
ghost use lib.ListN.{get_elem?};
ghost use Rattle.sz_claims.specs.Known.{least_of};

use atomic_table::Closed;
use std::alloc::Global;
use sz_book::{Lane, Load, NoMemory};

/// Marks that are not set.
pub fn blank(alloc: Global, count: usize) -> Result<Vec<bool>, NoMemory>
    ensures { IfOk result (λ v. v.items ≡ replicate count false) }
{
    vec![in alloc; false; count]
}

/// So many zeros.
pub fn zeros(alloc: Global, count: u32) -> Result<Vec<u64>, NoMemory>
    ensures { IfOk result (λ v. v.items ≡ replicate count 0) }
{
    vec![in alloc; 0; count as usize]
}

/// The words at the start.
pub fn first_words(alloc: Global, shards: u32, lanes: u32) -> Result<Vec<u64>, NoMemory>
    ensures { IfOk result (λ v. v.items ≡ replicate (3 * shards + 1) 0 ++ 2 ^ 32 ∷ replicate lanes 0) }
{
    let mut words = vec![in alloc; 0; 3 * shards as usize + 1]?;
    words.push(1 << 32)?;
    for _ in 0..lanes {
        words.push(0)?;
    }
    Ok(words)
}

/// So many rows of marks that are not set.
pub fn blank_rows(alloc: Global, count: usize, rows: u32) -> Result<Vec<Vec<bool>>, NoMemory>
    ensures { IfOk result (λ v. (map (λ r. r.items) v.items ≡ replicate rows (replicate count false))) }
{
    let mut all = Vec::new(alloc);
    for _ in 0..rows {
        all.push(blank(alloc, count)?)?;
    }
    Ok(all)
}

/// Reads a word of each shard from a closed table.
pub fn copy_words<T: Load>(
    closed: &Closed<Option<Lane<T>>, Global>,
    first: usize,
    words: &mut Vec<u64>,
)
    requires full { IsFull closed.now.words }
    requires long { (0 < first) × (first ≤ 3) × (3 * length words.old.items + 2 ≤ slots_len closed.now.words) × (length words.old.items < 2 ^ 32) }
    ensures value { (length words.new.items ≡ length words.old.items) × ((s : ℕ) → s < length words.new.items → get_elem? (slots_items closed.now.words) (3 * s + first) ≡ some (slice_index words.new.items s)) }
{
    for i in 0..words.len() {
        words[i] = closed.word(3 * i + first);
    }
}

/// The shard in the word of the least bad one.
pub fn least(found: u64) -> Option<u32>
    ensures value { result ≡ least_of found }
{
    if found < 1 << 32 {
        Some(found as u32)
    } else {
        None
    }
}
