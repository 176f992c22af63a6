//! What a crash leaves of a disk in memory, chosen by a number.
ghost use Rattle.std.specs.Prelude.{◌≤◌};
ghost use Rattle.sz_disk.specs.Crashes.{Torn};

use crate::Span;
use crate::span::is_in_some;

/// Chosen by 0: no write reached the disk.
const NOTHING: u64 = 0;

/// Chosen by 1: each write reached it whole.
const ALL: u64 = 1;

/// Chosen by 2: the disk has grown, and each byte that was written is 1.
const ONES: u64 = 2;

/// Makes of what a read gives one image that a crash may leave. By 0 that is what stood at the last sync, by 1 what a read
/// gives; by 2 each byte that was written is 1; by any other number the length and each such byte are drawn from it.
#[tactic(auto, using(crate::proofs::TornLemmas::torn_cut))]
pub fn tear(bytes: &mut Vec<u8>, synced: &[u8], spans: &[Span], pick: u64)
    requires { Torn spans.now synced.now bytes.old.items }
    ensures { Torn spans.now synced.now bytes.new.items }
{
    let count = image_length(synced.len(), bytes.len(), pick);
    bytes.truncate(count);
    tear_bytes(bytes, synced, spans, pick);
}

/// How long the image is: at least as long as the disk was at the last sync.
fn image_length(least: usize, now: usize, pick: u64) -> usize
    ensures { least ≤ result }
{
    match pick {
        NOTHING => least,
        ALL | ONES => now.max(least),
        _ => least + drawn(pick, now) as usize % (now.saturating_sub(least).saturating_add(1)),
    }
}

/// Chooses each byte that a crash may have left as any.
#[tactic(auto, using(crate::proofs::TornLemmas::torn_set))]
fn tear_bytes(bytes: &mut [u8], synced: &[u8], spans: &[Span], pick: u64)
    requires { Torn spans.now synced.now bytes.old }
    ensures { Torn spans.now synced.now bytes.new }
{
    for place in 0..bytes.len() {
        if place >= synced.len() || is_in_some(spans, place) {
            let before = synced.get(place).copied().unwrap_or(0);
            bytes[place] = picked_byte(pick, place, before, bytes[place]);
        }
    }
}

/// A byte that a crash may leave in a place where it was one byte and another one was written.
fn picked_byte(pick: u64, place: usize, synced: u8, written: u8) -> u8 {
    let draw = drawn(pick, place);
    match pick {
        NOTHING => synced,
        ALL => written,
        ONES => 1,
        _ => match draw % 4 {
            0 => synced,
            1 => written,
            2 => 1,
            _ => (draw / 256 % 256) as u8,
        },
    }
}

/// A number drawn from the choice and a place.
fn drawn(pick: u64, place: usize) -> u64 {
    let mixed = (pick ^ (place as u64).rotate_left(32)).wrapping_mul(0x9e37_79b9_7f4a_7c15);
    (mixed ^ (mixed >> 29)).wrapping_mul(0xbf58_476d_1ce4_e5b9) >> 32
}
