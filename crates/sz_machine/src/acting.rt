//! What a line does.
ghost use Rattle.std.specs.Prelude.{◌≡◌, ◌<◌, ◌≤◌, ◌+◌, ◌-◌, ◌^◌, ℕ, length, true, false, IfOk, IsSome};
ghost use Rattle.sz_instr.specs.declared.instr.Instr.TheVariants as instr;
ghost use Rattle.sz_instr.specs.declared.code.Code.{Code};
ghost use Rattle.sz_types.specs.declared.place.Place.{Place};
ghost use Rattle.sz_instr.specs.Rows.{act};
ghost use Rattle.sz_instr.specs.Covering.{Covers};
ghost use Rattle.sz_machine_rows.specs.Acting.{DoesFromTo, DoesWhere, Paid, state_of, weighs_and_acts};
ghost use Rattle.sz_machine.specs.AtLines.{IsInside, IsApart, IsCovered, TakesCandidate, base_charge, in_record, in_static};
ghost use Rattle.sz_machine_rows.specs.declared.run_state.RunState.{RunState};

use std::alloc::Global;
use sz_instr::{Code, Instr};
use sz_machine_cells::Cell;
use sz_machine_rows::{Onward, RunState, if_paid, rebuilt};
use sz_types::Place;
use sz_value::{NoMemory, Slots};

/// Pushes the static, which stays where it is.
#[inline(always)]
pub fn push_static<'a>(
    state: &mut RunState<'a>,
    statics: &'a Slots,
    n: u32,
) -> Result<Onward, NoMemory>
    requires within { n < length statics.now }
    ensures value { (code : Code) (place : Place) → IfOk result (λ next.
        DoesWhere place (λ a. a.statics ≡ statics.now) (act code (instr.Static n)) state.old next state.new) }
{
    let cell = Cell::lent_slot(statics.get(n as usize));
    state.operands.push(cell)?;
    Ok(Onward::On)
}

/// Pushes a copy of the static, as statics still change.
pub fn copy_static(
    state: &mut RunState<'_>,
    alloc: Global,
    statics: &Slots,
    n: u32,
) -> Result<Onward, NoMemory>
    requires within { n < length statics.now }
    ensures value { (code : Code) (place : Place) → IfOk result (λ next.
        DoesWhere place (λ a. a.statics ≡ statics.now) (act code (instr.Static n)) state.old next state.new) }
{
    let cell = Cell::of_slot_copy(alloc, statics.get(n as usize))?;
    state.operands.push(cell)?;
    Ok(Onward::On)
}

/// Pushes the bytes of the record.
#[inline(always)]
pub fn push_input<'a>(state: &mut RunState<'a>, input: &Cell<'a>) -> Result<Onward, NoMemory>
    ensures value { (code : Code) (place : Place) → IfOk result (λ next.
        DoesWhere place (λ a. a.input ≡ input.now) (act code instr.Input) state.old next state.new) }
{
    state.operands.push_copy(input)?;
    Ok(Onward::On)
}

/// The whole charge of a line was taken, or not all of it was left. Nothing is due where no candidate is left: what was taken then
/// comes back. Whether what is due is taken.
#[inline(always)]
pub fn settle(state: &mut RunState<'_>, paid: bool, charge: u32, instr: &Instr) -> bool
    requires lists { TakesCandidate instr.now → 0 < length state.old.calls.lists }
    requires room { paid ≡ true → state.old.left + charge ≤ 2 ^ 64 - 1 }
    ensures value { (before : RunState) → Paid charge before paid state.old → (paid ≡ false → state.old ≡ before)
        → Paid (base_charge charge instr.now state.old.calls.lists) before result state.new }
{
    match instr {
        Instr::Next(_, _) if state.calls.is_used_up() => {
            if paid {
                state.left += u64::from(charge);
            }
            true
        }
        _ => paid,
    }
}

/// The charge of a line, of which nothing is taken where no candidate is left.
#[inline(always)]
pub fn base_charge(state: &RunState<'_>, charge: u32, instr: &Instr) -> u64
    requires lists { TakesCandidate instr.now → 0 < length state.now.calls.lists }
    ensures value { result ≡ base_charge charge instr.now state.now.calls.lists }
{
    match instr {
        Instr::Next(_, _) => {
            if state.calls.is_used_up() {
                0
            } else {
                u64::from(charge)
            }
        }
        _ => u64::from(charge),
    }
}

/// Pops a slot into the static.
pub fn keep_static(
    state: &mut RunState<'_>,
    alloc: Global,
    statics: &mut Slots,
    n: u32,
) -> Result<Onward, NoMemory>
    requires within { n < length statics.old }
    requires some { 0 < length state.old.operands }
    ensures value { (code : Code) (place : Place) (at : ℕ) → IfOk result (λ next.
        DoesFromTo place (in_static at statics.old) (in_static at statics.new) (act code (instr.KeepStatic n)) state.old next state.new) }
{
    let slot = state.operands.pop().into_slot(alloc)?;
    statics.set(n as usize, slot);
    Ok(Onward::On)
}

/// What the instruction of a line at a place does, if it has to do with the operands, the locals and the calls alone. The common
/// ones stand here, so that the loop over the lines has them in line.
#[inline(always)]
fn act_inside<'a>(
    state: &mut RunState<'a>,
    alloc: Global,
    code: &'a Code,
    at: usize,
    place: Place,
    instr: &Instr,
) -> Result<Onward, NoMemory>
    requires room { at < usize.MAX }
    requires inside { IsInside instr.now }
    requires covers { IsCovered code.now instr.now state.old }
    ensures value { IfOk result (λ next. DoesWhere place (λ a. a.at ≡ at) (weighs_and_acts code.now instr.now) state.old next state.new) }
{
    match instr {
        Instr::Push(n) => state.push(code, *n),
        Instr::Local(n) => state.push_local(*n),
        Instr::Keep(n) => state.keep(alloc, *n),
        Instr::Clear(n) => Ok(state.clear(*n)),
        Instr::Store(n, path) => state.store(alloc, code, place, *n, path),
        Instr::Binary(op) => Ok(if_paid(state.binary(alloc, *op)?)),
        Instr::Tick => Ok(Onward::On),
        Instr::Jump(to) => Ok(Onward::To(*to)),
        Instr::Test(to, past) => rebuilt(state.test(alloc, code, place, *to, *past)),
        Instr::AndTest(to) => Ok(state.and_test(*to)),
        Instr::OrTest(to) => Ok(state.or_test(*to)),
        Instr::Emit(table, indexes, weighted) => {
            state.emit(alloc, code, place, *table, *indexes, *weighted)
        }
        Instr::EndRecord => Ok(Onward::End),
        Instr::Apply(which) => Ok(if_paid(state.apply(alloc, *which)?)),
        Instr::Convert(ty) => Ok(if_paid(state.convert(alloc, code, *ty)?)),
        Instr::Slice => Ok(if_paid(state.slice(alloc)?)),
        Instr::Index => {
            state.index(alloc)?;
            Ok(Onward::On)
        }
        Instr::Field(n) => {
            state.field(alloc, *n)?;
            Ok(Onward::On)
        }
        _ => act_apart(state, alloc, code, at, place, instr),
    }
}

// What one of the other instructions does, with the answer made anew.
#[inline(always)]
fn act_apart<'a>(
    state: &mut RunState<'a>,
    alloc: Global,
    code: &'a Code,
    at: usize,
    place: Place,
    instr: &Instr,
) -> Result<Onward, NoMemory>
    requires room { at < usize.MAX }
    requires apart { IsApart instr.now }
    requires covers { IsCovered code.now instr.now state.old }
    ensures value { IfOk result (λ next. DoesWhere place (λ a. a.at ≡ at) (weighs_and_acts code.now instr.now) state.old next state.new) }
{
    rebuilt(act_seldom(state, alloc, code, at, place, instr))
}

// What one of the other instructions does.
#[inline(never)]
fn act_seldom<'a>(
    state: &mut RunState<'a>,
    alloc: Global,
    code: &'a Code,
    at: usize,
    place: Place,
    instr: &Instr,
) -> Result<Onward, NoMemory>
    requires room { at < usize.MAX }
    requires apart { IsApart instr.now }
    requires covers { IsCovered code.now instr.now state.old }
    ensures value { IfOk result (λ next. DoesWhere place (λ a. a.at ≡ at) (weighs_and_acts code.now instr.now) state.old next state.new) }
{
    match instr {
        Instr::Unary(op) => state.unary(alloc, *op),
        Instr::Decode(ty) => state.decode(alloc, code, *ty),
        Instr::MakeArray(count) => state.make_array(alloc, *count),
        Instr::MakeTuple(count) => state.make_tuple(alloc, *count),
        Instr::MakeMap(count) => state.make_map(alloc, *count),
        Instr::Def => state.def(),
        Instr::Call(function) => state.call(code.functions.get(*function as usize), at),
        Instr::Return => Ok(state.give_back()),
        Instr::Discard => state.discard(alloc, code, place),
        Instr::Enter(slice) => state.enter_search(*slice),
        Instr::Next(n, to) => state.next_candidate(alloc, *n, *to),
        Instr::Leave => Ok(state.leave_search()),
        Instr::Meets(to) => Ok(state.meets(*to)),
        Instr::Fails(to) => Ok(state.fails(*to)),
        _ => unreachable!(),
    }
}

/// What the instruction of a line at a place does in the run for a record.
#[inline(always)]
pub fn act_in_record<'a>(
    state: &mut RunState<'a>,
    alloc: Global,
    code: &'a Code,
    statics: &'a Slots,
    input: &Cell<'a>,
    at: usize,
    place: Place,
    instr: &Instr,
) -> Result<Onward, NoMemory>
    requires room { at < usize.MAX }
    requires there { IsSome input.now }
    requires covers { Covers code.now instr.now (state_of state.old (in_record at statics.now input.now)) }
    ensures value { IfOk result (λ next. DoesFromTo place (in_record at statics.now input.now) (in_record at statics.now input.now)
        (weighs_and_acts code.now instr.now) state.old next state.new) }
{
    match instr {
        Instr::Static(n) => push_static(state, statics, *n),
        Instr::Input => push_input(state, input),
        Instr::KeepStatic(_) => unreachable!(),
        _ => act_inside(state, alloc, code, at, place, instr),
    }
}

/// What the instruction of a line at a place does in the run of a static.
pub fn act_in_static<'a>(
    state: &mut RunState<'a>,
    alloc: Global,
    code: &'a Code,
    statics: &mut Slots,
    at: usize,
    place: Place,
    instr: &Instr,
) -> Result<Onward, NoMemory>
    requires room { at < usize.MAX }
    requires covers { Covers code.now instr.now (state_of state.old (in_static at statics.old)) }
    ensures value { IfOk result (λ next. DoesFromTo place (in_static at statics.old) (in_static at statics.new)
        (weighs_and_acts code.now instr.now) state.old next state.new) }
{
    match instr {
        Instr::Static(n) => copy_static(state, alloc, statics, *n),
        Instr::Input => unreachable!(),
        Instr::KeepStatic(n) => keep_static(state, alloc, statics, *n),
        _ => act_inside(state, alloc, code, at, place, instr),
    }
}
