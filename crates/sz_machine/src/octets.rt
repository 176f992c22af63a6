//! What common lines do to bytes that lie in a buffer, or in a value that stays with its owner: they are measured, searched, read as a number
//! and cut where they lie, and no slot is made around what comes of it. Each is done wholly or not at all; no clause says when.
ghost use Rattle.std.specs.Prelude.{◌≡◌, ◌<◌, ◌≤◌, length};
ghost use Rattle.std.specs.Option.{option_map};
ghost use Rattle.sz_instr.specs.declared.code.Code.{Code};
ghost use Rattle.sz_instr.specs.declared.instr.Instr.TheVariants as instr;
ghost use Rattle.sz_types.specs.Rows.{arity};
ghost use Rattle.sz_types.specs.declared.operator.Builtin.TheVariants.{Len, StrFind};
ghost use Rattle.sz_value.specs.Data.{int};
ghost use Rattle.sz_builtin.specs.Conversions.{number_in};
ghost use Rattle.sz_machine_rows.specs.Acting.{DoesIf, weighs_and_acts};

use sz_builtin::{number_in, place_of_bytes};
use sz_instr::Code;
use sz_machine_cells::Cell;
use sz_machine_rows::RunState;
use sz_types::{Builtin, Ty};

/// Puts the length of the topmost bytes in their stead; or the place at which the bytes below stand in them, in the stead of both.
#[inline(never)]
pub fn apply_to_octets(state: &mut RunState<'_>, which: Builtin) -> bool
    requires within { arity which ≤ length state.old.operands }
    ensures value { (code : Code) → DoesIf result (weighs_and_acts code (instr.Apply which)) state.old state.new }
{
    match which {
        Builtin::Len => measure(state),
        Builtin::StrFind => search(state),
        Builtin::Keys | Builtin::HasKey => false,
    }
}

// Puts the length of the topmost bytes in their stead.
fn measure(state: &mut RunState<'_>) -> bool
    requires some { 0 < length state.old.operands }
    ensures value { (code : Code) → DoesIf result (weighs_and_acts code (instr.Apply Len)) state.old state.new }
{
    let Some(octets) = state.operands.top_octets() else {
        return false;
    };
    let count = octets.len() as i64;
    state.operands.put_on_top(Cell::of_int(count));
    true
}

// Puts the place at which the bytes below stand in the topmost ones in the stead of both.
fn search(state: &mut RunState<'_>) -> bool
    requires some { 1 < length state.old.operands }
    ensures value { (code : Code) → DoesIf result (weighs_and_acts code (instr.Apply StrFind)) state.old state.new }
{
    let Some((needle, hay)) = state.operands.top_two_octets() else {
        return false;
    };
    let place = place_of_bytes(needle, hay);
    state.operands.drop_one();
    state.operands.put_on_top(Cell::of_int(place));
    true
}

/// Puts the number that the topmost bytes spell in their stead, if the type is that of whole numbers.
#[inline(never)]
pub fn read_number(state: &mut RunState<'_>, code: &Code, ty: u32) -> bool
    requires within { ty < length code.now.types }
    requires some { 0 < length state.old.operands }
    ensures value { DoesIf result (weighs_and_acts code.now (instr.Convert ty)) state.old state.new }
{
    let Ty::Int = code.types.get(ty as usize) else {
        return false;
    };
    let Some(octets) = state.operands.top_octets() else {
        return false;
    };
    let number = number_cell(octets);
    state.operands.put_on_top(number);
    true
}

/// Cuts a part of a buffer to its own part between the two topmost places, if the ticks for that are left.
#[inline(never)]
pub fn cut(state: &mut RunState<'_>) -> bool
    requires some { 2 < length state.old.operands }
    ensures value { (code : Code) → DoesIf result (weighs_and_acts code instr.Slice) state.old state.new }
{
    let Some((from, to)) = state.operands.top_ints() else {
        return false;
    };
    let Some(weight) = state.operands.cut_below(from, to, state.left) else {
        return false;
    };
    state.left -= weight;
    true
}

// The cell of the number that bytes spell, which is undefined where they spell none.
#[inline(always)]
fn number_cell<'a>(octets: &[u8]) -> Cell<'a>
    ensures value { result ≡ option_map int (number_in octets.now) }
{
    match number_in(octets) {
        Some(number) => Cell::of_int(number),
        None => Cell::undefined(),
    }
}
