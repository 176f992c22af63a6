//! How spellings compare in the order of values. Nothing is read back, so it takes no memory.
ghost use Rattle.std.specs.Prelude.{◌<◌, ◌≤◌, ◌∷◌, length, IfOk};
ghost use Rattle.std.specs.Ordering.{bool_cmp, nat_cmp, int_cmp};
ghost use Rattle.std.specs.Cmp.Lexicographic.{slice_cmp};
ghost use Rattle.sz_value.specs.Order.{compare, compare_data, compare_entries};
ghost use Rattle.sz_flat.specs.Reading.{values, numbers, strings};
ghost use Rattle.sz_flat.specs.Comparing.{truths, parts, lists, maps, Finds, ComparesBoth, Compares, Orders};

use crate::parts::{read_length, read_number, read_string};
use std::cmp::Ordering;

// What follows two that are equal, else how they compare. Where nothing stands in front to be compared, it may be anything.
type Walked<'a> = Result<(&'a [u8], &'a [u8]), Ordering>;

// How the values that the bytes spell compare, one after the other.
pub(crate) fn order_all(one: &[u8], other: &[u8]) -> Ordering
    ensures value { Orders one.now other.now result }
{
    let mut rest = one;
    let mut other_rest = other;
    while !rest.is_empty() && !other_rest.is_empty() {
        match order_fronts(rest, other_rest) {
            Ok((after, behind)) => {
                rest = after;
                other_rest = behind;
            }
            Err(found) => return found,
        }
    }
    rest.len().cmp(&other_rest.len())
}

// The values in front.
#[cycle(order)]
fn order_fronts<'a>(one: &'a [u8], other: &'a [u8]) -> Walked<'a>
    ensures value { Compares values compare one.now other.now result }
    ensures less { IfOk result (λ rests. length rests.0.now < length one.now) }
{
    let [kind, one_rest @ ..] = one else {
        return Err(Ordering::Equal);
    };
    let [other_kind, other_rest @ ..] = other else {
        return Err(Ordering::Equal);
    };
    if *kind != *other_kind {
        return Err(kind.cmp(other_kind));
    }
    order_kind(*kind, one_rest, other_rest)
}

// Two values of one kind, after its byte.
#[cycle(order)]
fn order_kind<'a>(kind: u8, one: &'a [u8], other: &'a [u8]) -> Walked<'a>
    ensures value { Compares values compare (kind ∷ one.now) (kind ∷ other.now) result }
    ensures less { IfOk result (λ rests. length rests.0.now ≤ length one.now) }
{
    match kind {
        1 => order_truths(one, other),
        2 => order_numbers(one, other),
        3 => order_numbers(one, other),
        4 => order_strings(one, other),
        5 => order_strings(one, other),
        6 => order_lists(one, other),
        7 => order_lists(one, other),
        8 => order_maps(one, other),
        _ => Err(Ordering::Equal),
    }
}

// Two truth values, after the byte of their kind.
fn order_truths<'a>(one: &'a [u8], other: &'a [u8]) -> Walked<'a>
    ensures value { Compares truths bool_cmp one.now other.now result }
    ensures less { IfOk result (λ rests. length rests.0.now ≤ length one.now) }
{
    let [truth, after @ ..] = one else {
        return Err(Ordering::Equal);
    };
    let [other_truth, behind @ ..] = other else {
        return Err(Ordering::Equal);
    };
    walked(truth.cmp(other_truth), after, behind)
}

// Two numbers or times, after the byte of their kind.
fn order_numbers<'a>(one: &'a [u8], other: &'a [u8]) -> Walked<'a>
    ensures value { Compares numbers int_cmp one.now other.now result }
    ensures less { IfOk result (λ rests. length rests.0.now ≤ length one.now) }
{
    let Ok((number, after)) = read_number(one) else {
        return Err(Ordering::Equal);
    };
    let Ok((other_number, behind)) = read_number(other) else {
        return Err(Ordering::Equal);
    };
    walked(number.cmp(&other_number), after, behind)
}

// Two texts or byte strings, after the byte of their kind.
fn order_strings<'a>(one: &'a [u8], other: &'a [u8]) -> Walked<'a>
    ensures value { Compares strings (slice_cmp nat_cmp) one.now other.now result }
    ensures less { IfOk result (λ rests. length rests.0.now ≤ length one.now) }
{
    let Ok((string, after)) = read_string(one) else {
        return Err(Ordering::Equal);
    };
    let Ok((other_string, behind)) = read_string(other) else {
        return Err(Ordering::Equal);
    };
    walked(string.cmp(&other_string), after, behind)
}

// Two arrays or tuples, after the byte of their kind.
#[cycle(order)]
fn order_lists<'a>(one: &'a [u8], other: &'a [u8]) -> Walked<'a>
    ensures value { Compares lists compare_data one.now other.now result }
    ensures less { IfOk result (λ rests. length rests.0.now ≤ length one.now) }
{
    let Ok((count, after)) = read_length(one) else {
        return Err(Ordering::Equal);
    };
    let Ok((other_count, behind)) = read_length(other) else {
        return Err(Ordering::Equal);
    };
    order_parts(count as usize, after, other_count as usize, behind)
}

// Two maps, after the byte of their kind. Of each pair stands the key and then the value.
#[cycle(order)]
fn order_maps<'a>(one: &'a [u8], other: &'a [u8]) -> Walked<'a>
    ensures value { Compares maps compare_entries one.now other.now result }
    ensures less { IfOk result (λ rests. length rests.0.now ≤ length one.now) }
{
    let Ok((count, after)) = read_length(one) else {
        return Err(Ordering::Equal);
    };
    let Ok((other_count, behind)) = read_length(other) else {
        return Err(Ordering::Equal);
    };
    order_parts(2 * count as usize, after, 2 * other_count as usize, behind)
}

// So many values, and so many others.
#[cycle(order)]
fn order_parts<'a>(count: usize, one: &'a [u8], other_count: usize, other: &'a [u8]) -> Walked<'a>
    ensures value { ComparesBoth (parts count) (parts other_count) compare_data one.now other.now result }
    ensures less { IfOk result (λ rests. length rests.0.now ≤ length one.now) }
{
    let mut rest = one;
    let mut other_rest = other;
    for _ in 0..count.min(other_count) {
        match order_fronts(rest, other_rest) {
            Ok((after, behind)) => {
                rest = after;
                other_rest = behind;
            }
            Err(found) => return Err(found),
        }
    }
    walked(count.cmp(&other_count), rest, other_rest)
}

// What is found of two that compare so and have these bytes after them.
fn walked<'a>(order: Ordering, after: &'a [u8], behind: &'a [u8]) -> Walked<'a>
    ensures value { Finds order after.now behind.now result }
    ensures less { IfOk result (λ rests. length rests.0.now ≤ length after.now) }
{
    match order {
        Ordering::Equal => Ok((after, behind)),
        _ => Err(order),
    }
}
