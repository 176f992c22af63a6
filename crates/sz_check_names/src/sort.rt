//! What fields of a message a type makes.
ghost use Rattle.std.specs.Prelude.{◌≡◌, Bool};
ghost use Rattle.sz_types.specs.Seen.{seen};
ghost use Rattle.sz_check_rules.specs.JudgingTypes.{shape_of};
ghost use Rattle.sz_check_names.specs.Sorts.{as_many, sort_at, is_field, encodes};
ghost use Rattle.sz_check_names.specs.Written.{shape_in, shapes_of};

use crate::written::Written;
use sz_tree::BasicType;
use sz_types::{Encoding, Ty};

// What a field of a type holds: one number, one other thing, as many of these as there are, or what no field can hold.
#[derive(Clone, Copy)]
pub enum Sort {
    Number,
    Other,
    Numbers,
    Others,
    Neither,
}

impl Sort {
    // As many of these as there are.
    fn many(self) -> Sort
        ensures value { result ≡ as_many self }
    {
        match self {
            Sort::Number => Sort::Numbers,
            Sort::Other => Sort::Others,
            _ => Sort::Neither,
        }
    }

    // Whether a message may have such a field.
    pub fn is_field(self) -> bool
        ensures value { result ≡ is_field self }
    {
        !matches!(self, Sort::Neither)
    }

    // Whether the encoding word may stand after such a field.
    pub fn takes(self, code: Encoding) -> bool
        ensures value { result ≡ encodes code self }
    {
        match code {
            Encoding::Plain => true,
            _ => matches!(self, Sort::Number | Sort::Numbers),
        }
    }
}

// What a field holds of a type that a word stands for.
fn basic_sort(basic: BasicType) -> Sort
    ensures value { (inside : Bool) → result ≡ sort_at inside (shape_of basic) }
{
    match basic {
        BasicType::Int | BasicType::Time => Sort::Number,
        BasicType::Bool | BasicType::String | BasicType::Bytes => Sort::Other,
    }
}

// What a field holds of a type that is written out, or of the elements of one.
fn sort_of_whole(ty: &Ty, inside: bool) -> Sort
    ensures value { result ≡ sort_at inside (seen ty.now) }
{
    match ty {
        Ty::Int | Ty::Time => Sort::Number,
        Ty::Bool | Ty::Str | Ty::Bytes | Ty::Proto(_) => Sort::Other,
        Ty::Map(_, _) | Ty::Tuple(_) => Sort::Neither,
        Ty::Array(element) => {
            if inside {
                Sort::Neither
            } else {
                sort_of_whole(element, true).many()
            }
        }
    }
}

// What a field holds of a type that is written with these types, or of the elements of one.
pub fn sort_of(written: &Written, types: &[Written], inside: bool) -> Sort
    ensures value { result ≡ sort_at inside (shape_in (shapes_of types.now) written.now) }
{
    match written {
        Written::Basic(basic) => basic_sort(*basic),
        Written::Proto(_) => Sort::Other,
        Written::Map(_, _) | Written::Tuple(_) => Sort::Neither,
        Written::Array(element) => {
            if inside {
                Sort::Neither
            } else {
                sort_of(element, types, true).many()
            }
        }
        Written::Named(number) => {
            let number = *number as usize;
            match types.get(number) {
                Some(named) => sort_of(named, &types[..number], inside),
                None => Sort::Other,
            }
        }
        Written::Whole(ty) => sort_of_whole(ty, inside),
    }
}
