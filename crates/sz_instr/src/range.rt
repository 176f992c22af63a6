//! Whether each number in code is in range.
ghost use Rattle.std.specs.Prelude.{◌≡◌, slice_get, Some};
ghost use Rattle.std.specs.List.{list_all};
ghost use Rattle.sz_types.specs.Seen.{seen};
ghost use Rattle.sz_instr.specs.WellFormed.{most_of, most_locals, is_message_type, is_in_range, is_routine, is_table_if_named, is_well_formed};

use crate::code::Code;
use crate::instr::Instr;
use crate::line::Line;
use crate::routine::Routine;
use sz_types::Ty;

/// Whether the code is well formed: each routine begins at a line and has its parameters among its locals, the table that counts
/// lines is one of the code, and each number of an instruction is in range. A place is in range where a line stands there, a local
/// where some routine has as many, and a type that a message is decoded by where it is a proto type.
#[tactic(auto, using(crate::proofs::WellFormedLemmas::well_formed_by_list))]
pub fn well_formed(code: &Code) -> bool
    ensures value { result ≡ is_well_formed code.now }
{
    are_routines(code, code.functions.as_slice())
        && are_routines(code, code.statics.as_slice())
        && is_routine(code, &code.main)
        && is_table_if_named(code)
        && are_in_range(code, most_locals(code), code.lines.as_slice())
}

// Whether these are routines of the code.
fn are_routines(code: &Code, routines: &[Routine]) -> bool
    ensures value { result ≡ list_all (is_routine code.now) routines.now }
{
    routines.iter().all(|routine| is_routine(code, routine))
}

// Whether the routine begins at a line of the code, and its parameters are among its locals.
fn is_routine(code: &Code, routine: &Routine) -> bool
    ensures value { result ≡ is_routine code.now routine.now }
{
    routine.entry < code.lines.len() && routine.params <= routine.locals
}

// Whether the table that counts lines is one of the code, where there is one.
fn is_table_if_named(code: &Code) -> bool
    ensures value { result ≡ is_table_if_named code.now code.now.ignore }
{
    match code.ignore {
        None => true,
        Some(table) => (table as usize) < code.tables.len(),
    }
}

// The greatest number of locals of any routine.
#[tactic(auto, using(crate::proofs::WellFormedLemmas::most_locals_by_list))]
fn most_locals(code: &Code) -> u32
    ensures value { result ≡ most_locals code.now }
{
    most_of(code.functions.as_slice())
        .max(most_of(code.statics.as_slice()))
        .max(code.main.locals)
}

// The greatest number of locals of any of these routines.
fn most_of(routines: &[Routine]) -> u32
    ensures value { result ≡ most_of routines.now }
{
    let mut most = 0;
    for routine in routines {
        most = routine.locals.max(most);
    }
    most
}

// Whether the instruction of each of these lines is in range, where the routines have at most this many locals.
fn are_in_range(code: &Code, locals: u32, lines: &[Line]) -> bool
    requires most { locals ≡ most_locals code.now }
    ensures value { result ≡ list_all (λ line. is_in_range code.now line.instr) lines.now }
{
    for line in lines {
        if !is_in_range(code, locals, &line.instr) {
            return false;
        }
    }
    true
}

// Whether the type is a proto type.
fn is_proto(ty: &Ty) -> bool
    ensures value { result ≡ is_message_type (Some (seen ty.now)) }
{
    match ty {
        Ty::Proto(_) => true,
        Ty::Bool => false,
        Ty::Int => false,
        Ty::Time => false,
        Ty::Str => false,
        Ty::Bytes => false,
        Ty::Array(_) => false,
        Ty::Map(_, _) => false,
        Ty::Tuple(_) => false,
    }
}

// Whether the number is that of a proto type of the code.
fn is_message_number(code: &Code, number: usize) -> bool
    ensures value { result ≡ is_message_type (slice_get code.now.types number) }
{
    number < code.types.len() && is_proto(code.types.get(number))
}

// Whether each number of the instruction is in range, where the routines have at most this many locals.
fn is_in_range(code: &Code, locals: u32, instr: &Instr) -> bool
    requires most { locals ≡ most_locals code.now }
    ensures value { result ≡ is_in_range code.now instr.now }
{
    match instr {
        Instr::Push(constant) => (*constant as usize) < code.constants.len(),
        Instr::Local(n) | Instr::Keep(n) | Instr::Clear(n) | Instr::Store(n, _) => *n < locals,
        Instr::Static(n) | Instr::KeepStatic(n) => (*n as usize) < code.statics.len(),
        Instr::Convert(ty) => (*ty as usize) < code.types.len(),
        Instr::Decode(ty) => is_message_number(code, *ty as usize),
        Instr::Call(function) => (*function as usize) < code.functions.len(),
        Instr::Next(n, to) => *n < locals && *to < code.lines.len(),
        Instr::Test(to, past) => *to < code.lines.len() && *past < code.lines.len(),
        Instr::Jump(to) | Instr::Meets(to) | Instr::Fails(to) => *to < code.lines.len(),
        Instr::AndTest(to) | Instr::OrTest(to) => *to < code.lines.len(),
        Instr::Emit(table, _, _) => (*table as usize) < code.tables.len(),
        Instr::Input
        | Instr::Unary(_)
        | Instr::Binary(_)
        | Instr::Apply(_)
        | Instr::MakeArray(_)
        | Instr::MakeTuple(_)
        | Instr::MakeMap(_)
        | Instr::Index
        | Instr::Slice
        | Instr::Field(_)
        | Instr::Def
        | Instr::Tick
        | Instr::Return
        | Instr::EndRecord
        | Instr::Discard
        | Instr::Enter(_)
        | Instr::Leave => true,
    }
}
