//! That the calls of a list that take memory succeed where there is some.
use std::alloc::Global;
use sz_list::{Items, NoMemory};

// Appends numbers, one by one and two at once, and changes the first two of all. It gives what stood at the second place, and the
// last one, which it takes off.
fn change(alloc: Global, list: &mut Items<u64>) -> Result<(u64, Option<u64>), NoMemory> {
    for item in [3u64, 5, 8] {
        list.push(item)?;
    }
    list.append(Items::copied(alloc, &[13u64, 21])?)?;
    list.set(0, 2);
    let second = list.replace(1, 4);
    Ok((second, list.pop()))
}

// Whether a list holds what it was given.
fn holds(alloc: Global) -> bool {
    let Ok(mut list) = Items::with_capacity(alloc, 2) else {
        return false;
    };
    let is_empty = list.is_empty();
    let given = change(alloc, &mut list) == Ok((5, Some(21)));
    is_empty && given && list.as_slice() == [2u64, 4, 8, 13].as_slice() && holds_two(list)
}

// Whether the first two are left of a list that is cut, also as a vector.
fn holds_two(mut list: Items<u64>) -> bool {
    list.truncate(2);
    if list.len() != 2 || *list.get(1) != 4 {
        return false;
    }
    Items::from_vec(list.into_vec()).len() == 2
}

#[test]
fn lists_hold_what_they_are_given(rt: HostRuntime) {
    assert!(rt; holds(rt.alloc()));
    assert!(rt; Items::<bool>::new(rt.alloc()).pop().is_none());
}
