//! The order of values, their weights, copies and hashes, and what lists, maps, slots and texts give back.
use crate::given::Given::{Array, Bool, Bytes, Int, Map, Names, Str, Texts, Time, Tuple};
use crate::given::{Given, list_of, map};
use std::alloc::Global;
use std::cmp::Ordering;
use std::hash::{DefaultHasher, Hash, Hasher};
use sz_value::{
    List, NoMemory, Pair, Pairs, Slot, Slots, Text, Value, copy, copy_pairs, equal, order, weight,
};

// Each value is less than all after it.
const ASCENDING: &[Given] = &[
    Bool(false),
    Bool(true),
    Int(i64::MIN),
    Int(-1),
    Int(0),
    Int(1),
    Int(i64::MAX),
    Time(-5),
    Time(1),
    Time(4),
    Str(""),
    Str("a"),
    Str("ab"),
    Str("b"),
    Str("z\u{e9}"),
    Str("\u{e9}"),
    Bytes(b""),
    Bytes(b"\x00"),
    Bytes(b"\x00\xff"),
    Bytes(b"\x01"),
    Bytes(b"\xff"),
    Array(&[]),
    Array(&[0]),
    Array(&[0, -1]),
    Array(&[1]),
    Array(&[1, 0]),
    Texts(&["a", "b"]),
    Tuple(&[]),
    Tuple(&[-9]),
    Tuple(&[-9, 0]),
    Map(&[]),
    Map(&[(1, 7)]),
    Map(&[(1, 7), (2, 0)]),
    Map(&[(1, 8)]),
    Map(&[(2, 0)]),
    Names(&[("a", "b")]),
];

enum Row {
    // What a value weighs.
    Weighs(Given, u64),
    // Two texts, and whether each, and both as one, are ASCII.
    Ascii(&'static str, &'static str, [bool; 3]),
    // A text that is the same value however it is made.
    Alike(&'static str),
    // A text that is doubled so many times, and another one behind it, in which each character is found.
    Places(&'static str, u8, &'static str),
    // The part of an ASCII text between two places.
    Cut(&'static str, usize, usize, &'static str),
    // The pairs that are given, and those of the map that is made of them.
    Pairs(&'static [(i64, i64)], &'static [(i64, i64)]),
    // The pairs that are given, a key, and its place in the map that is made of them, if it is there.
    PlaceOf(&'static [(i64, i64)], i64, Option<usize>),
    // A map of many numbers, from pairs with falling keys.
    Falling,
    // So many pairs, with even keys from 0 on, are put into a map one by one, the key of this number first. Each comes so many
    // after the one before; after the last comes the first.
    Grown(i64, i64, i64),
    // Pairs are put into a map and replaced.
    Replaced,
    // What a list gives back.
    List,
    // What slots give back.
    Slots,
}

const ROWS: &[Row] = &[
    Row::Weighs(Int(i64::MIN), 1),
    Row::Weighs(Str("\u{20ac}uro"), 7),
    Row::Weighs(Bytes(b"\x07\x00\x07"), 4),
    Row::Weighs(Tuple(&[]), 1),
    Row::Weighs(Tuple(&[5, 6]), 3),
    Row::Weighs(Map(&[(1, 5), (2, 6)]), 5),
    Row::Ascii("", "a z\u{7f}", [true, true, true]),
    Row::Ascii("ab", "c", [true, true, true]),
    Row::Ascii("ab", "\u{e9}", [true, false, false]),
    Row::Ascii("\u{80}", "", [false, true, false]),
    Row::Ascii("aaaaaaaaa\u{e9}", "a", [false, true, false]),
    Row::Ascii("0123456789abcde", "", [true, true, true]),
    Row::Ascii("0123456789abcde", "f", [true, true, true]),
    Row::Ascii("0123456789abcdef", "", [true, true, true]),
    Row::Ascii("0123456789abcdef", "0", [true, true, true]),
    Row::Ascii("0123456789abcdef0", "", [true, true, true]),
    Row::Ascii("", "0123456789abcdef0", [true, true, true]),
    Row::Ascii("0123456789abcd", "\u{e9}", [true, false, false]),
    Row::Ascii("0123456789abcd\u{e9}", "f", [false, true, false]),
    Row::Alike(""),
    Row::Alike("0123456789abcde"),
    Row::Alike("0123456789abcdef"),
    Row::Alike("0123456789abcdef0"),
    Row::Alike("0123456789abc\u{e9}"),
    Row::Alike("0123456789abcd\u{e9}"),
    Row::Alike("0123456789abcde\u{e9}"),
    Row::Places("", 1, "a"),
    Row::Places("a", 4, "b"),
    Row::Places("abc", 2, "abc"),
    Row::Places("a", 7, "\u{e9}"),
    Row::Places("\u{e9}", 6, "b"),
    Row::Places("\u{e9}", 7, "\u{20ac}"),
    Row::Places("a\u{e9}\u{20ac}", 6, "ab"),
    Row::Places("\u{1f600}b\u{e9}\u{e9}\u{e9}", 5, "\u{1f600}"),
    Row::Cut("abcd", 1, 3, "bc"),
    Row::Cut("abcd", 4, 4, ""),
    Row::Cut("0123456789abcdef0", 0, 15, "0123456789abcde"),
    Row::Cut("0123456789abcdef0", 1, 17, "123456789abcdef0"),
    Row::Cut("0123456789abcdef01", 1, 18, "123456789abcdef01"),
    Row::Cut("0123456789abcdef", 0, 16, "0123456789abcdef"),
    Row::Pairs(&[], &[]),
    Row::Pairs(&[(4, 1)], &[(4, 1)]),
    Row::Pairs(&[(1, 5), (2, 6), (3, 7)], &[(1, 5), (2, 6), (3, 7)]),
    Row::Pairs(&[(3, 7), (2, 6), (1, 5)], &[(1, 5), (2, 6), (3, 7)]),
    Row::Pairs(&[(2, 1), (1, 5), (2, 2), (2, 3)], &[(1, 5), (2, 3)]),
    Row::Pairs(&[(0, 9), (-1, 8), (0, 7), (-1, 6)], &[(-1, 6), (0, 7)]),
    Row::PlaceOf(&[], 0, None),
    Row::PlaceOf(&[(4, 1)], 4, Some(0)),
    Row::PlaceOf(&[(6, 0), (2, 0), (4, 0)], 1, None),
    Row::PlaceOf(&[(6, 0), (2, 0), (4, 0)], 2, Some(0)),
    Row::PlaceOf(&[(6, 0), (2, 0), (4, 0)], 3, None),
    Row::PlaceOf(&[(6, 0), (2, 0), (4, 0)], 4, Some(1)),
    Row::PlaceOf(&[(6, 0), (2, 0), (4, 0)], 6, Some(2)),
    Row::PlaceOf(&[(6, 0), (2, 0), (4, 0)], 7, None),
    Row::PlaceOf(&[(2, 0), (1, 0), (2, 1)], 2, Some(1)),
    Row::Falling,
    Row::Grown(0, 0, 1),
    Row::Grown(1, 0, 1),
    Row::Grown(255, 0, 1),
    Row::Grown(256, 255, 255),
    Row::Grown(257, 128, 128),
    Row::Grown(511, 0, 510),
    Row::Grown(512, 511, 511),
    Row::Grown(513, 256, 256),
    Row::Grown(3000, 0, 1),
    Row::Grown(3000, 1500, 1),
    Row::Grown(3000, 2999, 2999),
    Row::Grown(3000, 1499, 2999),
    Row::Grown(3001, 0, 1500),
    Row::Grown(3001, 2, 1501),
    Row::Grown(3000, 7, 1171),
    Row::Grown(33025, 33024, 33024),
    Row::Replaced,
    Row::List,
    Row::Slots,
];

// The tables come from calls, so that no proof sees what stands in them.
fn ascending() -> &'static [Given] {
    ASCENDING
}

fn rows() -> &'static [Row] {
    ROWS
}

fn hash_of(value: &Value) -> u64 {
    let mut hasher = DefaultHasher::new();
    value.hash(&mut hasher);
    hasher.finish()
}

// The values of the table, turned round and sorted.
fn sorted(alloc: Global) -> Result<List, NoMemory> {
    let mut values = list_of(alloc, ascending())?.into_vec();
    values.reverse();
    values.sort()?;
    Ok(List::from_vec(values))
}

// Whether the copy of the value at a place of the sorted ones stands at that place of the table.
fn stands_at(alloc: Global, place: usize) -> Result<bool, NoMemory> {
    let values = list_of(alloc, ascending())?;
    let sorted = sorted(alloc)?;
    match sorted.as_slice().get(place) {
        Some(value) => copy_stands_at(alloc, values.as_slice(), place, value),
        None => Ok(false),
    }
}

fn copy_stands_at(
    alloc: Global,
    values: &[Value],
    place: usize,
    value: &Value,
) -> Result<bool, NoMemory> {
    let made = copy(alloc, value)?;
    let stands = is_between(values, place, &made);
    drop(made);
    Ok(stands)
}

// Whether this is less than all values after the place, more than all before it, and equal to the one there alone, as which
// it hashes.
fn is_between(values: &[Value], place: usize, made: &Value) -> bool {
    let mut all = true;
    for (k, other) in values.iter().enumerate() {
        all = all
            && order(made, other) == place.cmp(&k)
            && equal(made, other) == (place == k)
            && (hash_of(made) == hash_of(other)) == (place == k);
    }
    all
}

// Whether a value weighs this.
fn weighs(alloc: Global, given: Given, wanted: u64) -> Result<bool, NoMemory> {
    let values = list_of(alloc, &[given])?;
    match values.as_slice() {
        [value] => Ok(weight(value) == wanted),
        _ => Ok(false),
    }
}

// Whether two texts, both as one, and the copy of that, are ASCII.
fn are_ascii(
    alloc: Global,
    first: &str,
    second: &str,
    [one, other, both]: [bool; 3],
) -> Result<bool, NoMemory> {
    let first = Text::new(alloc, first)?;
    let second = Text::from_string(String::from_str(alloc, second)?);
    let joined = Text::joined(alloc, &first, &second)?;
    let made = joined.copy(alloc)?;
    let found = [
        first.is_ascii(),
        second.is_ascii(),
        joined.is_ascii(),
        made.is_ascii(),
    ];
    Ok(found == [one, other, both, both])
}

// Whether a text is one value and weighs the same where it is taken over, copied, copied again, and joined of both its halves.
fn is_alike(alloc: Global, text: &str) -> Result<bool, NoMemory> {
    let taken = Text::from_string(String::from_str(alloc, text)?);
    let made = Text::new(alloc, text)?;
    let copied = taken.copy(alloc)?;
    let again = copied.copy(alloc)?;
    let joined = halves_joined(alloc, text)?;
    let value = Value::Str(taken);
    let found = [
        weight(&value) == (text.len() as u64).wrapping_add(1),
        is_text(&value, made),
        is_text(&value, copied),
        is_text(&value, again),
        is_text(&value, joined),
    ];
    drop(value);
    Ok(found == [true; 5])
}

// Whether a value is that of a text, which is dropped.
fn is_text(value: &Value, text: Text) -> bool {
    let other = Value::Str(text);
    let same = are_same(value, &other);
    drop(other);
    same
}

// The text from the characters in its first seven bytes and those after them, if that is where a character ends.
fn halves_joined(alloc: Global, text: &str) -> Result<Text, NoMemory> {
    match text.split_at_checked(7) {
        Some((first, second)) => Text::joined(
            alloc,
            &Text::new(alloc, first)?,
            &Text::new(alloc, second)?,
        ),
        None => Text::new(alloc, text),
    }
}

// Whether each character is found in a text that is doubled, in that with an end behind it, and in copies of this one.
fn finds_places(alloc: Global, text: &str, doublings: u8, end: &str) -> Result<bool, NoMemory> {
    let doubled = doubled(alloc, text, doublings)?;
    let end = Text::new(alloc, end)?;
    let joined = Text::joined(alloc, &doubled, &end)?;
    let turned = Text::joined(alloc, &end, &doubled)?;
    let made = Text::new(alloc, joined.as_str())?;
    let copied = joined.copy(alloc)?;
    Ok(
        [&doubled, &joined, &turned, &made, &copied]
            .iter()
            .all(|text| tells_places(text)),
    )
}

// The text joined to itself, so many times.
fn doubled(alloc: Global, text: &str, times: u8) -> Result<Text, NoMemory> {
    let mut made = Text::new(alloc, text)?;
    for _ in 0..times {
        made = Text::joined(alloc, &made, &made)?;
    }
    Ok(made)
}

// Whether the text tells what follows each of its characters, how many there are, and that none follows the last.
fn tells_places(text: &Text) -> bool {
    let chars = text.as_str();
    let mut all = true;
    let mut passed: u64 = 0;
    for (at, _) in chars.char_indices() {
        all = all && has_length(text.rest_after(passed), chars.len().wrapping_sub(at));
        passed = passed.wrapping_add(1);
    }
    all && text.character_count() as u64 == passed
        && has_length(text.rest_after(passed), 0)
        && text.rest_after(passed.wrapping_add(1)).is_none()
}

// Whether there is a text of so many bytes.
fn has_length(text: Option<&str>, len: usize) -> bool {
    match text {
        Some(text) => text.len() == len,
        None => false,
    }
}

// Whether this is the part of an ASCII text between two places, if they are in it.
fn is_cut(
    alloc: Global,
    text: &str,
    from: usize,
    to: usize,
    wanted: &str,
) -> Result<bool, NoMemory> {
    let text = Text::new(alloc, text)?;
    if text.is_ascii() && from <= to && to <= text.len() {
        let part = text.ascii_part(alloc, from, to)?;
        Ok(part.as_str() == wanted && part.is_ascii())
    } else {
        Ok(false)
    }
}

// The number in a value, or 1000 where it is none.
fn number_in(value: &Value) -> i64 {
    match value {
        Value::Int(number) => *number,
        _ => 1000,
    }
}

// The same of a value that is dropped.
fn number_of(value: Value) -> i64 {
    let number = number_in(&value);
    drop(value);
    number
}

// The number at a key, or 1000 where there is none.
fn number_at(pairs: &Pairs, key: i64) -> i64 {
    let key = Value::Int(key);
    let number = match pairs.get(&key) {
        Some(value) => number_in(value),
        None => 1000,
    };
    drop(key);
    number
}

// The place of a key, if it is there.
fn place_of(pairs: &Pairs, key: i64) -> Option<usize> {
    let key = Value::Int(key);
    let place = pairs.place_of(&key);
    drop(key);
    place
}

// Whether the pairs are these.
fn are_pairs(pairs: &Pairs, wanted: &[(i64, i64)]) -> bool {
    let mut all = pairs.len() == wanted.len();
    for place in 0..pairs.len().min(wanted.len()) {
        let pair = pairs.pair(place);
        let (key, value) = wanted[place];
        all = all && number_in(&pair.key) == key && number_in(&pair.value) == value;
    }
    all
}

// Whether a map that is made from the pairs has these.
fn gives(alloc: Global, given: &[(i64, i64)], wanted: &[(i64, i64)]) -> Result<bool, NoMemory> {
    let mut pairs = Vec::new(alloc);
    for (key, value) in given {
        pairs.push(Pair {
            key: Value::Int(*key),
            value: Value::Int(*value),
        })?;
    }
    let pairs = Pairs::from_pairs(alloc, pairs)?;
    Ok(are_pairs(&pairs, wanted))
}

// Whether a key has this place in a map that is made from the pairs.
fn has_place(
    alloc: Global,
    given: &[(i64, i64)],
    key: i64,
    wanted: Option<usize>,
) -> Result<bool, NoMemory> {
    let pairs = map(alloc, given)?;
    Ok(place_of(&pairs, key) == wanted)
}

// Whether a map of many numbers is made from pairs with falling keys.
fn gives_falling(alloc: Global) -> Result<bool, NoMemory> {
    let mut pairs = Vec::new(alloc);
    for number in 0..2000 {
        pairs.push(Pair {
            key: Value::Int(i64::wrapping_neg(number)),
            value: Value::Int(number),
        })?;
    }
    let pairs = Pairs::from_pairs(alloc, pairs)?;
    Ok(pairs.len() == 2000 && number_at(&pairs, -1999) == 1999)
}

// A map of so many pairs with even keys, put in from the key of the number `start` on, each `step` after the one before.
fn grown(alloc: Global, count: i64, start: i64, step: i64) -> Result<Pairs, NoMemory> {
    let mut pairs = Pairs::new(alloc);
    let mut number = start;
    for _ in 0..count {
        pairs.insert(key_of(number), Value::Int(number))?;
        number = number.wrapping_add(step);
        if number >= count {
            number = number.wrapping_sub(count);
        }
    }
    Ok(pairs)
}

// The key of the pair of this number.
fn key_of(number: i64) -> Value {
    Value::Int(number.wrapping_mul(2))
}

// Whether a map that grew so has all its pairs in order, finds them and no others, keeps what is changed in it, weighs what they
// do, and is the same as its copy and as the map that grew in the order of its keys.
fn grows(alloc: Global, count: i64, start: i64, step: i64) -> Result<bool, NoMemory> {
    let mut pairs = grown(alloc, count, start, step)?;
    let held = has_all(&pairs, count, 0) && finds_all(&pairs);
    let changed = changes_all(&mut pairs, count)?;
    let copied = copy_grows(alloc, &pairs)?;
    let weighed = (pairs.len() as u64).wrapping_mul(2).wrapping_add(1);
    let value = Value::Map(pairs);
    let weighs = weight(&value) == weighed;
    let same = is_same(alloc, count, &value);
    drop(value);
    Ok(held && changed && copied && weighs && same?)
}

// Whether there are so many pairs, the keys of the numbers from 0 on, each with so much more than its number.
fn has_all(pairs: &Pairs, count: i64, more: i64) -> bool {
    let mut number: i64 = 0;
    let mut all = pairs.is_empty() == (count == 0);
    for place in 0..pairs.len() {
        let pair = pairs.pair(place);
        all = all
            && number_in(&pair.key) == number.wrapping_mul(2)
            && number_in(&pair.value) == number.wrapping_add(more);
        number = number.wrapping_add(1);
    }
    all && number == count
}

// Whether each key is found at its place, with its number, and none is found before, between and after them.
fn finds_all(pairs: &Pairs) -> bool {
    let mut key: i64 = 0;
    let mut all = !finds(pairs, -1);
    for place in 0..pairs.len() {
        all = all
            && place_of(pairs, key) == Some(place)
            && number_at(pairs, key).wrapping_mul(2) == key
            && !finds(pairs, key.wrapping_add(1));
        key = key.wrapping_add(2);
    }
    all && !finds(pairs, key)
}

// Whether a key is found.
fn finds(pairs: &Pairs, key: i64) -> bool {
    place_of(pairs, key).is_some() || number_at(pairs, key) != 1000
}

// Whether other numbers can be put in at all keys and then be replaced by those that were there.
fn changes_all(pairs: &mut Pairs, count: i64) -> Result<bool, NoMemory> {
    for number in 0..count {
        pairs.insert(key_of(number), Value::Int(number.wrapping_add(5000)))?;
    }
    let mut all = has_all(pairs, count, 5000);
    for number in 0..count {
        let key = number.wrapping_mul(2);
        all = all
            && replaced(pairs, key, number) == number.wrapping_add(5000)
            && replaced(pairs, key.wrapping_add(1), 1) == -1;
    }
    Ok(all && has_all(pairs, count, 0))
}

// Whether a copy takes one more pair in front, and the map stays as it was.
fn copy_grows(alloc: Global, pairs: &Pairs) -> Result<bool, NoMemory> {
    let mut longer = copy_pairs(alloc, pairs)?;
    longer.insert(Value::Int(-1), Value::Int(0))?;
    Ok(
        longer.len() == pairs.len().wrapping_add(1)
            && place_of(&longer, -1) == Some(0)
            && place_of(pairs, -1).is_none()
            && (pairs.is_empty() || place_of(&longer, 0) == Some(1)),
    )
}

// Whether a map of so many pairs is the same as its copy and as the map that grew in the order of its keys.
fn is_same(alloc: Global, count: i64, value: &Value) -> Result<bool, NoMemory> {
    let made = copy(alloc, value)?;
    let is_copy = are_same(value, &made);
    drop(made);
    let rising = Value::Map(grown(alloc, count, 0, 1)?);
    let is_rising = are_same(value, &rising);
    drop(rising);
    Ok(is_copy && is_rising)
}

// Whether two values compare as equal, are equal and hash alike.
fn are_same(one: &Value, other: &Value) -> bool {
    order(one, other) == Ordering::Equal && equal(one, other) && hash_of(one) == hash_of(other)
}

// The number that another replaces at a key, or minus that other where the key isn't there.
fn replaced(pairs: &mut Pairs, key: i64, number: i64) -> i64 {
    let key = Value::Int(key);
    let found = match pairs.replace(&key, Value::Int(number)) {
        Ok(old) => number_of(old),
        Err(new) => -number_of(new).max(-1),
    };
    drop(key);
    found
}

// Whether of equal keys the last pair stands, and a pair is replaced where its key is there.
fn replaces(alloc: Global) -> Result<bool, NoMemory> {
    let mut pairs = map(alloc, &[(3, 0), (1, 5), (2, 4), (1, 6)])?;
    let old = [replaced(&mut pairs, 2, 9), replaced(&mut pairs, 4, 8)];
    let ends = [number_at(&pairs, 0), number_at(&pairs, 4)];
    let found = [
        number_at(&pairs, 1),
        number_at(&pairs, 2),
        number_at(&pairs, 3),
    ];
    Ok(old == [4, -8] && ends == [1000, 1000] && found == [6, 9, 0])
}

// The number that stood in front, where there are two, and another one stands now.
fn put_in_front(list: &mut List, number: i64) -> i64 {
    if list.len() == 2 {
        number_of(list.replace(0, Value::Int(number)))
    } else {
        1000
    }
}

// The last number, which is taken off.
fn last_number(list: &mut List) -> i64 {
    match list.pop() {
        Some(last) => number_of(last),
        None => 1000,
    }
}

// Whether a list gives back what it was given.
fn list_gives_back(alloc: Global) -> Result<bool, NoMemory> {
    let mut list = list_of(alloc, &[Int(4), Int(5)])?;
    let found = [
        put_in_front(&mut list, 6),
        last_number(&mut list),
        last_number(&mut list),
        last_number(&mut list),
    ];
    Ok(found == [4, 5, 6, 1000])
}

// The number in the slot that is taken off, -1 where there is none in it, or -2 where there is no slot.
fn popped(slots: &mut Slots) -> i64 {
    match slots.pop() {
        Some(Slot::Defined(value)) => number_of(value),
        Some(Slot::Undefined) => -1,
        None => -2,
    }
}

// Whether slots give back a value and none.
fn slots_give_back(alloc: Global) -> Result<bool, NoMemory> {
    let mut slots = Slots::with_capacity(alloc, 1)?;
    slots.push(Slot::Undefined)?;
    slots.push(Slot::Defined(Value::Int(3)))?;
    let found = [popped(&mut slots), popped(&mut slots), popped(&mut slots)];
    Ok(found == [3, -1, -2] && slots.is_empty())
}

fn holds(alloc: Global, row: &Row) -> Result<bool, NoMemory> {
    match row {
        Row::Weighs(given, wanted) => weighs(alloc, *given, *wanted),
        Row::Ascii(first, second, wanted) => are_ascii(alloc, first, second, *wanted),
        Row::Alike(text) => is_alike(alloc, text),
        Row::Places(text, doublings, end) => finds_places(alloc, text, *doublings, end),
        Row::Cut(text, from, to, wanted) => is_cut(alloc, text, *from, *to, wanted),
        Row::Pairs(given, wanted) => gives(alloc, given, wanted),
        Row::PlaceOf(given, key, wanted) => has_place(alloc, given, *key, *wanted),
        Row::Falling => gives_falling(alloc),
        Row::Grown(count, start, step) => grows(alloc, *count, *start, *step),
        Row::Replaced => replaces(alloc),
        Row::List => list_gives_back(alloc),
        Row::Slots => slots_give_back(alloc),
    }
}

#[test]
fn values_are_ordered_by_kind_then_by_number_bytes_or_parts(rt: HostRuntime) {
    for place in 0..ascending().len() {
        assert!(rt;
            matches!(stands_at(rt.alloc(), place), Ok(true)),
            "value {place}"
        );
    }
}

#[test]
fn values_weigh_and_give_back_what_the_rows_say(rt: HostRuntime) {
    for (number, row) in rows().iter().enumerate() {
        assert!(rt; matches!(holds(rt.alloc(), row), Ok(true)), "row {number}");
    }
}

// An array in an array in an array, and so on, with a number in the last.
fn chain(alloc: Global, height: u32, number: i64) -> Result<Value, NoMemory> {
    let mut value = Value::Int(number);
    for _ in 0..height {
        value = Value::Array(List::from_vec(vec![in alloc; value]?));
    }
    Ok(value)
}

/// Whether a chain weighs what its levels do, is equal to its copy and less than a chain with a greater number, and hashes
/// as its copy does. All are dropped at the end.
pub(crate) fn handles_chain(alloc: Global, height: u32) -> Result<bool, NoMemory> {
    let value = chain(alloc, height, 0)?;
    let holds = is_its_copy(alloc, height, &value);
    drop(value);
    holds
}

fn is_its_copy(alloc: Global, height: u32, value: &Value) -> Result<bool, NoMemory> {
    let made = copy(alloc, value)?;
    let holds = is_less(alloc, height, value, &made);
    drop(made);
    holds
}

fn is_less(alloc: Global, height: u32, value: &Value, made: &Value) -> Result<bool, NoMemory> {
    let greater = chain(alloc, height, 1)?;
    let holds = weight(value) == u64::from(height) + 1 && stand_so(value, made, &greater);
    drop(greater);
    Ok(holds)
}

fn stand_so(value: &Value, made: &Value, greater: &Value) -> bool {
    order(made, value) == Ordering::Equal
        && order(value, greater) == Ordering::Less
        && equal(made, value)
        && !equal(value, greater)
        && hash_of(made) == hash_of(value)
}
