//! Calls of the functions that each program has.
ghost use Rattle.std.specs.Prelude.{◌≡◌, [], ◌∷◌, IfOk};
ghost use Rattle.sz_value.specs.Seen.{seen_slot};
ghost use Rattle.sz_builtin.specs.Predeclared.{builtin};
ghost use Rattle.sz_builtin.specs.Views.{seen_view};

use crate::predeclared::{haskey, keys, len};
use crate::searching::strfind;
use crate::view::View;
use std::alloc::Global;
use sz_types::Builtin;
use sz_value::{List, NoMemory, Slot};

/// What the function makes of its arguments: `len` the number of characters, bytes, elements or pairs, `keys` the keys
/// of a map in order, `haskey` whether a map has a key, and `strfind` the first place, counted from 0, of a string or a
/// byte string in another, or -1.
///
/// The slot is undefined where the function takes no such arguments.
pub fn builtin(alloc: Global, which: Builtin, args: &List) -> Result<Slot, NoMemory>
    ensures value { IfOk result (λ slot. seen_slot slot ≡ builtin which args.now) }
{
    match args.as_slice() {
        [value] => builtin_of_one(alloc, which, &View::Whole(value)),
        [first, second] => {
            builtin_of_two(alloc, which, &View::Whole(first), &View::Whole(second))
        }
        _ => Ok(Slot::Undefined),
    }
}

/// What the function makes of one argument, which is looked at where it stands.
pub fn builtin_of_one(alloc: Global, which: Builtin, value: &View<'_>) -> Result<Slot, NoMemory>
    ensures value { IfOk result (λ slot. seen_slot slot ≡ builtin which (seen_view value.now ∷ [])) }
{
    match which {
        Builtin::Len => Ok(len(value)),
        Builtin::Keys => keys(alloc, value),
        Builtin::HasKey | Builtin::StrFind => Ok(Slot::Undefined),
    }
}

/// What the function makes of two arguments, which are looked at where they stand.
pub fn builtin_of_two(
    alloc: Global,
    which: Builtin,
    first: &View<'_>,
    second: &View<'_>,
) -> Result<Slot, NoMemory>
    ensures value { IfOk result (λ slot. seen_slot slot ≡ builtin which (seen_view first.now ∷ seen_view second.now ∷ [])) }
{
    match which {
        Builtin::HasKey => haskey(alloc, first, second),
        Builtin::StrFind => Ok(strfind(first, second)),
        Builtin::Len | Builtin::Keys => Ok(Slot::Undefined),
    }
}
