//! Places in a buffer that loses its front.
ghost use Rattle.std.specs.Prelude.{◌≡◌, ◌-◌, ◌≤◌, ◌++◌, ◌∷◌, [], map, drop, length, get_or, slice_range, OnOk, OnErr};

use crate::NoMemory;

/// The place after so many pieces, which end at these places of a buffer.
pub(crate) fn place_before(ends: &[usize], count: usize) -> usize
    requires within { count ≤ length ends.now }
    ensures value { result ≡ get_or (0 ∷ ends.now) count 0 }
{
    if count == 0 { 0 } else { ends[count - 1] }
}

/// What lies between two places of a buffer.
pub(crate) fn between(bytes: &[u8], from: usize, to: usize) -> &[u8]
    requires order { from ≤ to }
    requires within { to ≤ length bytes.now }
    ensures value { result.now ≡ slice_range bytes.now from to }
{
    &bytes[from..to]
}

#[tactic(auto, using(crate::proofs::EndsLemmas::left_later))]
/// Drops so many items from the front. It moves those that stay.
pub(crate) fn drop_front<T: Copy>(list: &mut Vec<T>, count: usize)
    requires within { count ≤ length list.old.items }
    ensures value { list.new.items ≡ drop count list.old.items }
{
    let left = list.len() - count;
    list.copy_within(count.., 0);
    list.truncate(left);
}

/// Each of these places, if the buffer loses so much of its front.
pub(crate) fn lower(places: &mut Vec<usize>, front: usize)
    ensures value { places.new.items ≡ map (λ place. place - front) places.old.items }
{
    for place in places.as_mut_slice().iter_mut() {
        *place = place.saturating_sub(front);
    }
}

/// Adds a copy of these bytes to the buffer, and the place where they end.
#[inline(always)]
pub(crate) fn add(bytes: &mut Vec<u8>, ends: &mut Vec<usize>, more: &[u8]) -> Result<(), NoMemory>
    ensures bytes { OnOk result (bytes.new.items ≡ bytes.old.items ++ more.now) }
    ensures ends { OnOk result (ends.new.items ≡ ends.old.items ++ length bytes.new.items ∷ []) }
    ensures err { OnErr result ((bytes.new.items ≡ bytes.old.items) × (ends.new.items ≡ ends.old.items)) }
{
    ends.reserve(1)?;
    bytes.extend_from_slice(more)?;
    ends.push(bytes.len())?;
    Ok(())
}
