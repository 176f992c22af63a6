//! Values as bytes: what is read is written again, what spells nothing isn't read, and lists are kept flat.
ghost use Rattle.std.specs.Prelude.{◌≡◌, ◌∷◌, [], IfOk, OnOk};
ghost use Rattle.sz_value.specs.Data.{int};
ghost use Rattle.sz_value.specs.Seen.{seen};
ghost use Rattle.sz_flat.specs.Spelling.{HasShortLengths};

use std::alloc::Global;
use std::cmp::Ordering;
use std::test::Fail;
use std::thread::Builder;
use sz_flat::{FlatError, FlatList, RankedList, from_flat, to_flat};
use sz_value::{List, NoMemory, Value, weight};

// The bytes of values, and what the values weigh.
const SPELLED: &[(&[u8], u64)] = &[
    (&[1, 0], 1),
    (&[1, 1], 1),
    (&[2, 0x80, 0, 0, 0, 0, 0, 0, 0], 1),
    (&[3, 255, 255, 255, 255, 255, 255, 255, 255], 1),
    (&[4, 0, 0, 0, 0], 1),
    (&[4, 0, 0, 0, 2, 0xc3, 0xa9], 3),
    (&[5, 0, 0, 0, 2, 0xc3, 0xff], 3),
    (&[6, 0, 0, 0, 0], 1),
    (&[6, 0, 0, 0, 2, 1, 1, 6, 0, 0, 0, 1, 1, 0], 4),
    (
        &[
            7, 0, 0, 0, 2, 2, 0, 0, 0, 0, 0, 0, 0, 1, 4, 0, 0, 0, 1, 0x61,
        ],
        4,
    ),
    (&[8, 0, 0, 0, 0], 1),
    (&[8, 0, 0, 0, 2, 1, 0, 1, 1, 1, 1, 1, 0], 5),
];

// Bytes that spell nothing.
const UNSPELLED: &[&[u8]] = &[
    &[],
    &[0],
    &[9],
    &[1],
    &[1, 2],
    &[1, 0, 0],
    &[2, 0, 0, 0, 0, 0, 0, 0],
    &[4, 0, 0, 0, 1],
    &[4, 0, 0, 0],
    &[4, 0, 0, 0, 1, 0xff],
    &[4, 0, 0, 0, 1, 0x61, 0x62],
    &[5, 0, 0, 0, 2, 7],
    &[6, 0, 0, 0, 1],
    &[6, 255, 255, 255, 255, 1, 0],
    &[7, 0, 0, 0, 2, 1, 0],
    &[
        7, 0, 0, 0, 2, 2, 0, 0, 0, 0, 0, 0, 0, 1, 4, 0, 0, 0, 1, 0x61, 0x62,
    ],
    &[8, 0, 0, 0, 1, 1, 0],
    &[8, 0, 0, 0, 2, 1, 1, 1, 1, 1, 0, 1, 0],
    &[8, 0, 0, 0, 2, 1, 1, 1, 1, 1, 1, 1, 0],
];

// The tables after calls, so that no proof sees what stands in them.
fn spelled() -> &'static [(&'static [u8], u64)] {
    SPELLED
}

fn unspelled() -> &'static [&'static [u8]] {
    UNSPELLED
}

// Whether the bytes spell a value of this weight, and are written again.
#[tactic(auto, using(sz_flat::proofs::ForCallers::short_spelling))]
fn is_spelled(alloc: Global, flat: &[u8], weighs: u64) -> Result<bool, FlatError> {
    let value = from_flat(alloc, flat)?;
    is_written(alloc, &value, flat, weighs)
}

// Whether the value is written as these bytes, and has this weight.
fn is_written(alloc: Global, value: &Value, flat: &[u8], weighs: u64) -> Result<bool, FlatError>
    requires short { HasShortLengths (seen value.now) }
{
    let again = to_flat(alloc, value)?;
    Ok(again.as_slice() == flat && weight(value) == weighs)
}

#[test]
fn what_is_read_is_written_again(rt: HostRuntime) -> Result<(), Fail> {
    for (flat, weighs) in spelled() {
        let same = is_spelled(rt.alloc(), flat, *weighs).unwrap_or(false);
        assert!(rt; same, "at {flat:?}");
    }
    Ok(())
}

fn is_refused(alloc: Global, flat: &[u8]) -> bool {
    matches!(&from_flat(alloc, flat), Err(FlatError::NotFlat))
}

#[test]
fn what_spells_nothing_is_refused(rt: HostRuntime) -> Result<(), Fail> {
    for flat in unspelled() {
        assert!(rt; is_refused(rt.alloc(), flat), "at {flat:?}");
    }
    Ok(())
}

// The parts of the worked example: a number and a text.
fn parts_of(value: &Value) -> Option<(i64, &str)> {
    match value {
        Value::Tuple(parts) => match parts.as_slice() {
            [Value::Int(number), Value::Str(text)] => Some((*number, text.as_str())),
            _ => None,
        },
        _ => None,
    }
}

// Whether the bytes spell a tuple of these parts.
fn has_parts(alloc: Global, flat: &[u8], number: i64, text: &str) -> bool {
    match from_flat(alloc, flat) {
        Ok(value) => parts_of(&value) == Some((number, text)),
        Err(_) => false,
    }
}

#[test]
fn a_tuple_has_its_parts(rt: HostRuntime) -> Result<(), Fail> {
    let flat = [
        7, 0, 0, 0, 2, 2, 0, 0, 0, 0, 0, 0, 0, 1, 4, 0, 0, 0, 1, 0x61,
    ];
    assert!(rt; has_parts(rt.alloc(), &flat, 1, "a"));
    Ok(())
}

// The bytes of an array in an array in an array, and so on, with a truth value in the last.
fn chain(alloc: Global, height: u64) -> Result<Vec<u8>, NoMemory> {
    let mut flat = Vec::new(alloc);
    for _ in 0..height {
        flat.extend_from_slice(&[6, 0, 0, 0, 1])?;
    }
    flat.extend_from_slice(&[1, 0])?;
    Ok(flat)
}

fn handle_chain(alloc: Global, height: u32) -> Result<bool, NoMemory> {
    let height = u64::from(height);
    let flat = chain(alloc, height)?;
    Ok(is_spelled(alloc, &flat, height + 1).unwrap_or(false))
}

#[test]
fn a_value_of_thirty_thousand_levels_fits_a_stack_of_256_mebibytes(
    rt: HostRuntime,
) -> Result<(), Fail> {
    let alloc = rt.alloc();
    let thread = Builder::new()
        .stack_size(256 << 20)
        .spawn(&rt, move || handle_chain(alloc, 30_000))?;
    assert!(rt; thread.join(&rt)?);
    Ok(())
}

// A list of two numbers.
fn two_numbers(alloc: Global, first: i64, second: i64) -> Result<List, NoMemory>
    ensures value { IfOk result (λ list. list ≡ int first ∷ int second ∷ []) }
{
    let mut list = List::new(alloc);
    list.push(Value::Int(first))?;
    list.push(Value::Int(second))?;
    Ok(list)
}

// Keeps two numbers, in place of what was kept.
#[tactic(auto, using(crate::proofs::TestLemmas::two_short))]
fn set_two(kept: &mut FlatList, alloc: Global, first: i64, second: i64) -> Result<(), NoMemory>
    ensures value { OnOk result (kept.new ≡ int first ∷ int second ∷ []) }
{
    kept.set(&two_numbers(alloc, first, second)?)
}

// Two numbers, kept flat where other two were before.
fn kept_flat(alloc: Global, first: i64, second: i64) -> Result<FlatList, NoMemory>
    ensures value { IfOk result (λ list. list ≡ int first ∷ int second ∷ []) }
{
    let mut kept = FlatList::new(alloc);
    set_two(&mut kept, alloc, second, second)?;
    set_two(&mut kept, alloc, first, second)?;
    Ok(kept)
}

// The numbers of a list of two.
fn numbers_of(list: &List) -> Option<(i64, i64)> {
    match list.as_slice() {
        [Value::Int(first), Value::Int(second)] => Some((*first, *second)),
        _ => None,
    }
}

// Whether a copy of two numbers that are kept flat gives them back.
fn are_given_back(alloc: Global, first: i64, second: i64) -> Result<bool, NoMemory> {
    let copied = copied_flat(alloc, first, second)?;
    let values = copied.values(alloc)?;
    Ok(!copied.is_empty() && numbers_of(&values) == Some((first, second)))
}

fn copied_flat(alloc: Global, first: i64, second: i64) -> Result<FlatList, NoMemory> {
    kept_flat(alloc, first, second)?.copied(alloc)
}

#[test]
fn a_flat_list_gives_its_values_back(rt: HostRuntime) -> Result<(), Fail> {
    let alloc = rt.alloc();
    assert!(rt; are_given_back(alloc, -1, i64::MAX)?);
    assert!(rt; FlatList::new(alloc).is_empty());
    Ok(())
}

// Two numbers, and whether they are equal to 1 and 2.
const TWOS: &[(i64, i64, bool)] = &[(1, 2, true), (1, 3, false), (2, 1, false)];

fn twos() -> &'static [(i64, i64, bool)] {
    TWOS
}

// Whether these two numbers, kept flat, are equal to 1 and 2.
fn are_one_and_two(alloc: Global, first: i64, second: i64) -> Result<bool, NoMemory> {
    let kept = kept_flat(alloc, 1, 2)?;
    Ok(kept == kept_flat(alloc, first, second)?)
}

#[test]
fn flat_lists_are_equal_where_their_values_are(rt: HostRuntime) -> Result<(), Fail> {
    for (first, second, equal) in twos() {
        let found = are_one_and_two(rt.alloc(), *first, *second)?;
        assert!(rt; found == *equal, "at {first} and {second}");
    }
    Ok(())
}

// Lists of values in their order, as the bytes of arrays of them.
const RISING: &[&[u8]] = &[
    &[6, 0, 0, 0, 0],
    &[6, 0, 0, 0, 1, 1, 0],
    &[6, 0, 0, 0, 2, 1, 0, 1, 0],
    &[6, 0, 0, 0, 1, 1, 1],
    // The least number and the next, -256, -1, -1 with a list of nothing after it, 0, 1, 256 and the greatest two.
    &[6, 0, 0, 0, 1, 2, 0x80, 0, 0, 0, 0, 0, 0, 0],
    &[6, 0, 0, 0, 1, 2, 0x80, 0, 0, 0, 0, 0, 0, 1],
    &[6, 0, 0, 0, 1, 2, 255, 255, 255, 255, 255, 255, 255, 0],
    &[6, 0, 0, 0, 1, 2, 255, 255, 255, 255, 255, 255, 255, 255],
    &[
        6, 0, 0, 0, 2, 2, 255, 255, 255, 255, 255, 255, 255, 255, 6, 0, 0, 0, 0,
    ],
    &[6, 0, 0, 0, 1, 2, 0, 0, 0, 0, 0, 0, 0, 0],
    &[6, 0, 0, 0, 1, 2, 0, 0, 0, 0, 0, 0, 0, 1],
    &[6, 0, 0, 0, 1, 2, 0, 0, 0, 0, 0, 0, 1, 0],
    &[6, 0, 0, 0, 1, 2, 127, 255, 255, 255, 255, 255, 255, 254],
    &[6, 0, 0, 0, 1, 2, 127, 255, 255, 255, 255, 255, 255, 255],
    // Two times, one of them before the epoch.
    &[6, 0, 0, 0, 1, 3, 255, 255, 255, 255, 255, 255, 255, 255],
    &[6, 0, 0, 0, 1, 3, 0, 0, 0, 0, 0, 0, 0, 5],
    // Texts: none, "a", "a" with true after it, "a" and a byte of zero, seven of "a", eight and nine of them, "ab", "b", "b" and then "a", "é".
    &[6, 0, 0, 0, 1, 4, 0, 0, 0, 0],
    &[6, 0, 0, 0, 1, 4, 0, 0, 0, 1, 0x61],
    &[6, 0, 0, 0, 2, 4, 0, 0, 0, 1, 0x61, 1, 1],
    &[6, 0, 0, 0, 1, 4, 0, 0, 0, 2, 0x61, 0],
    &[6, 0, 0, 0, 1, 4, 0, 0, 0, 7, 97, 97, 97, 97, 97, 97, 97],
    &[6, 0, 0, 0, 1, 4, 0, 0, 0, 8, 97, 97, 97, 97, 97, 97, 97, 97],
    &[
        6, 0, 0, 0, 1, 4, 0, 0, 0, 9, 97, 97, 97, 97, 97, 97, 97, 97, 97,
    ],
    &[6, 0, 0, 0, 1, 4, 0, 0, 0, 2, 0x61, 0x62],
    &[6, 0, 0, 0, 1, 4, 0, 0, 0, 1, 0x62],
    &[6, 0, 0, 0, 2, 4, 0, 0, 0, 1, 0x62, 4, 0, 0, 0, 1, 0x61],
    &[6, 0, 0, 0, 1, 4, 0, 0, 0, 2, 0xc3, 0xa9],
    // Bytes.
    &[6, 0, 0, 0, 1, 5, 0, 0, 0, 0],
    &[6, 0, 0, 0, 1, 5, 0, 0, 0, 2, 0, 255],
    &[6, 0, 0, 0, 1, 5, 0, 0, 0, 1, 255],
    // Arrays: of nothing, of true, of true and false, of 1, and the last with false and true after it.
    &[6, 0, 0, 0, 1, 6, 0, 0, 0, 0],
    &[6, 0, 0, 0, 1, 6, 0, 0, 0, 1, 1, 1],
    &[6, 0, 0, 0, 1, 6, 0, 0, 0, 2, 1, 1, 1, 0],
    &[6, 0, 0, 0, 1, 6, 0, 0, 0, 1, 2, 0, 0, 0, 0, 0, 0, 0, 1],
    &[
        6, 0, 0, 0, 2, 6, 0, 0, 0, 1, 2, 0, 0, 0, 0, 0, 0, 0, 1, 1, 0,
    ],
    &[
        6, 0, 0, 0, 2, 6, 0, 0, 0, 1, 2, 0, 0, 0, 0, 0, 0, 0, 1, 1, 1,
    ],
    // Tuples: of nothing, of an array of false and false, of an array of false and true, of "a".
    &[6, 0, 0, 0, 1, 7, 0, 0, 0, 0],
    &[6, 0, 0, 0, 1, 7, 0, 0, 0, 2, 6, 0, 0, 0, 1, 1, 0, 1, 0],
    &[6, 0, 0, 0, 1, 7, 0, 0, 0, 2, 6, 0, 0, 0, 1, 1, 0, 1, 1],
    &[6, 0, 0, 0, 1, 7, 0, 0, 0, 2, 6, 0, 0, 0, 1, 1, 1, 1, 0],
    // Maps: of nothing, of false to true, of that and true to false, of true to false, the last with 1 after it, and of true to true.
    &[6, 0, 0, 0, 1, 8, 0, 0, 0, 0],
    &[6, 0, 0, 0, 1, 8, 0, 0, 0, 1, 1, 0, 1, 1],
    &[6, 0, 0, 0, 1, 8, 0, 0, 0, 2, 1, 0, 1, 1, 1, 1, 1, 0],
    &[6, 0, 0, 0, 1, 8, 0, 0, 0, 1, 1, 1, 1, 0],
    &[
        6, 0, 0, 0, 2, 8, 0, 0, 0, 1, 1, 1, 1, 0, 2, 0, 0, 0, 0, 0, 0, 0, 1,
    ],
    &[6, 0, 0, 0, 1, 8, 0, 0, 0, 1, 1, 1, 1, 1],
];

fn rising() -> &'static [&'static [u8]] {
    RISING
}

// The parts of the array that the bytes spell, kept flat.
#[tactic(auto, using(sz_flat::proofs::ForCallers::short_spelling))]
fn parts_kept(alloc: Global, flat: &[u8]) -> Result<FlatList, FlatError> {
    let value = from_flat(alloc, flat)?;
    kept_of(alloc, &value)
}

// The parts of an array, kept flat.
fn kept_of(alloc: Global, value: &Value) -> Result<FlatList, FlatError>
    requires short { HasShortLengths (seen value.now) }
{
    let mut kept = FlatList::new(alloc);
    match value {
        Value::Array(list) => kept.set(list)?,
        _ => return Err(FlatError::NotFlat),
    }
    Ok(kept)
}

// How the parts of the arrays that the bytes spell compare, by themselves and with their ranks.
fn orders_of(alloc: Global, one: &[u8], other: &[u8]) -> Result<(Ordering, Ordering), FlatError> {
    let one = parts_kept(alloc, one)?;
    let other = parts_kept(alloc, other)?;
    let ranked = RankedList::new(&one).order(&RankedList::new(&other));
    Ok((one.order(&other), ranked))
}

// Whether the list compares with each of those in order as its place with theirs.
fn stands_at(alloc: Global, place: usize, list: &[u8]) -> bool {
    for (other_place, other) in rising().iter().enumerate() {
        let wanted = place.cmp(&other_place);
        if orders_of(alloc, list, other).ok() != Some((wanted, wanted)) {
            return false;
        }
    }
    true
}

#[test]
fn flat_lists_have_the_order_of_their_values(rt: HostRuntime) -> Result<(), Fail> {
    for (place, list) in rising().iter().enumerate() {
        assert!(rt; stands_at(rt.alloc(), place, list), "at {list:?}");
    }
    Ok(())
}
