//! Where records lie in their file that follow each other.
ghost use Rattle.std.specs.Prelude.{◌≡◌, ◌+◌, ◌*◌, ◌^◌, ◌<◌, ◌≤◌, ◌∷◌, [], length, get_or, IfSome};
ghost use Rattle.sz_records.specs.Laid.{Continues};

use crate::places::place_before;

/// Records that follow each other in their file, each with as many bytes besides its own.
#[derive(Clone, Copy, Debug)]
pub(crate) struct Laid {
    /// The byte at which the first of them begins.
    pub(crate) from: u64,
    /// How many bytes each takes besides its own, as a line takes its newline.
    pub(crate) more: u64,
}

/// Where so many of them end, which have so many bytes of their own.
pub(crate) fn end_of_laid(laid: Laid, count: usize, bytes: usize) -> u64
    requires bound { laid.from + bytes + laid.more * count < 2 ^ 64 }
    ensures value { result ≡ laid.from + bytes + laid.more * count }
{
    laid.from + bytes as u64 + laid.more * count as u64
}

/// Where those begin that are left when so many go, if there are so many.
pub(crate) fn left_from(laid: Laid, all: usize, count: usize, bytes: usize) -> u64
    requires bound { count ≤ all → laid.from + bytes + laid.more * count < 2 ^ 64 }
    ensures value { count ≤ all → result ≡ laid.from + bytes + laid.more * count }
{
    if count <= all {
        end_of_laid(laid, count, bytes)
    } else {
        laid.from
    }
}

/// All of them and the next one, if that follows as they follow each other. These are the places where they end in the buffer; no other
/// records are after them.
pub(crate) fn with_next(laid: Laid, ends: &[usize], placed: &[u64], next: Laid) -> Option<Laid>
    requires bound { length placed.now ≡ 0 → laid.from + get_or (0 ∷ ends.now) (length ends.now) 0 + laid.more * length ends.now < 2 ^ 64 }
    ensures value { IfSome result (λ all. Continues laid ends.now placed.now next all) }
{
    if !placed.is_empty() {
        return None;
    }
    if ends.is_empty() {
        return Some(next);
    }
    let bytes = place_before(ends, ends.len());
    if laid.more == next.more && end_of_laid(laid, ends.len(), bytes) == next.from {
        Some(laid)
    } else {
        None
    }
}
