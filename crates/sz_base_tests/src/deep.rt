//! Values and types of many levels on threads with small stacks.
use crate::{types, values};
use std::alloc::Global;
use std::test::Fail;
use std::thread::Builder;
use sz_types::NoMemory;

// Whether a type, or a value, of so many levels is handled.
fn is_handled(alloc: Global, is_type: bool, levels: u32) -> Result<bool, NoMemory> {
    if is_type {
        types::handles_chain(alloc, levels)
    } else {
        values::handles_chain(alloc, levels)
    }
}

// Of 30,000 levels a value fits 64 MiB and a type 256. Of 800 both fit one: threads that have the system's stack handle values and types
// of a program whose types are at most 500 high, and its expressions are not much higher.
#[test]
fn values_and_types_of_many_levels_fit_small_stacks(rt: HostRuntime) -> Result<(), Fail> {
    let alloc = rt.alloc();
    for (is_type, levels, size) in [
        (false, 30_000, 64 << 20),
        (true, 30_000, 256 << 20),
        (false, 800, 1 << 20),
        (true, 800, 1 << 20),
    ] {
        let thread = Builder::new()
            .stack_size(size)
            .spawn(&rt, move || is_handled(alloc, is_type, levels))?;
        assert_eq!(rt; thread.join(&rt), Ok(true), "on a stack of {size} bytes");
    }
    Ok(())
}
