//! The rank of values that are spelled: a number that tells of most lists which is the lesser, so that their bytes need no look.
ghost use Rattle.std.specs.Prelude.{◌≡◌, ◌<◌, ◌^◌, [], ◌∷◌, if◌then◌else◌, slice_index};
ghost use Rattle.sz_flat.specs.Comparing.{truths};
ghost use Rattle.sz_flat.specs.Rank.{AreBytes, Front, Ranks, RanksAll, RanksInKind, front_number, near_number, near_string};
ghost use Rattle.sz_flat.specs.Reading.{numbers, strings, values};

use crate::parts::{read_number, read_string};

// So far apart are the ranks of the kinds, and a rank in a kind is below it.
const KIND: u64 = 1 << 60;

// Numbers that are further from 0 have the rank of the last on their side: few keys are so far, and near ones all have ranks of their own.
const FAR: i64 = 1 << 59;

// The rank of the values that the bytes spell, one after the other. The first alone tells it.
#[tactic(auto, using(crate::proofs::RankLemmas::none_ranks, crate::proofs::RankLemmas::all_rank))]
pub(crate) fn rank_all(flat: &[u8]) -> u64
    ensures value { RanksAll flat.now result }
{
    let [kind, rest @ ..] = flat else {
        return 0;
    };
    rank_front(*kind, rest)
}

// The rank of a list with this value in front, after the byte of its kind.
#[tactic(auto, using(crate::proofs::RankLemmas::front_ranks))]
fn rank_front(kind: u8, rest: &[u8]) -> u64
    ensures value { Front values (λ d. Ranks (d ∷ [])) (kind ∷ rest.now) result }
{
    let low = rank_in_kind(kind, rest);
    kind.min(8) as u64 * KIND + low
}

// The value's rank in its kind.
fn rank_in_kind(kind: u8, rest: &[u8]) -> u64
    ensures value { Front values RanksInKind (kind ∷ rest.now) result }
    ensures small { result < 2 ^ 60 }
{
    match kind {
        1 => rank_truth(rest),
        2 => rank_number(rest),
        3 => rank_number(rest),
        4 => rank_string(rest),
        5 => rank_string(rest),
        _ => 0,
    }
}

// That of a truth value, after the byte of its kind.
fn rank_truth(flat: &[u8]) -> u64
    ensures value { Front truths (λ b rank. rank ≡ (if b then 1 else 0)) flat.now result }
    ensures small { result < 2 ^ 60 }
{
    let [truth, ..] = flat else {
        return 0;
    };
    *truth as u64
}

// That of a number or time, after the byte of its kind.
fn rank_number(flat: &[u8]) -> u64
    ensures value { Front numbers (λ n rank. rank ≡ near_number n) flat.now result }
    ensures small { result < 2 ^ 60 }
{
    let Ok((number, _)) = read_number(flat) else {
        return 0;
    };
    near(number)
}

// A number in 60 bits that rises with the number.
fn near(number: i64) -> u64
    ensures value { result ≡ near_number number }
    ensures small { result < 2 ^ 60 }
{
    (number.clamp(-FAR, FAR - 1) + FAR) as u64
}

// That of a text or bytes, after the byte of its kind.
fn rank_string(flat: &[u8]) -> u64
    ensures value { Front strings (λ s rank. AreBytes s × (rank ≡ near_string s)) flat.now result }
    ensures small { result < 2 ^ 60 }
{
    let Ok((string, _)) = read_string(flat) else {
        return 0;
    };
    front_of(string) / 16
}

// The first 8 bytes as one number, with zeros after fewer.
fn front_of(string: &[u8]) -> u64
    ensures value { result ≡ front_number 8 string.now }
    ensures bytes { AreBytes string.now }
{
    u64::from_be_bytes([
        byte_at(string, 0),
        byte_at(string, 1),
        byte_at(string, 2),
        byte_at(string, 3),
        byte_at(string, 4),
        byte_at(string, 5),
        byte_at(string, 6),
        byte_at(string, 7),
    ])
}

// The byte at a place, and 0 past the end.
fn byte_at(string: &[u8], place: usize) -> u8
    ensures value { result ≡ slice_index string.now place }
{
    if place < string.len() {
        string[place]
    } else {
        0
    }
}
