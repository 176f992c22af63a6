//! The common lines, in the cases that can't fault: constants and locals; whole numbers and truth values that lie in their cells; and bytes where
//! they lie. Each is done wholly or not at all; no clause says which.
ghost use Rattle.std.specs.Prelude.{◌≡◌, ◌<◌, ℕ, Option, false, length, IfSome, IfNone};
ghost use Rattle.sz_instr.specs.declared.code.Code.{Code};
ghost use Rattle.sz_types.specs.declared.place.Place.{Place};
ghost use Rattle.sz_instr.specs.declared.instr.Instr.TheVariants as instr;
ghost use Rattle.sz_instr.specs.Rows.{act, indexes_in, store};
ghost use Rattle.sz_machine_rows.specs.Acting.{DoesIf, DoesWhere, weighs_and_acts};
ghost use Rattle.sz_machine.specs.AtLines.{IsAt, IsCovered, TakesCandidate, on_if};

use crate::octets::{apply_to_octets, cut, read_number};
use std::alloc::Global;
use sz_instr::{Code, Instr, Steps};
use sz_machine_cells::{Cell, of_ints};
use sz_machine_rows::{Onward, RunState};
use sz_types::BinOp;
use sz_value::Value;

/// What the instruction of a line at a place does, if it is one of these and finds such operands. Else nothing is done.
#[inline(always)]
pub fn act_quickly<'a>(
    state: &mut RunState<'a>,
    alloc: Global,
    code: &'a Code,
    input: &Cell<'a>,
    at: usize,
    instr: &Instr,
) -> Option<Onward>
    requires room { at < usize.MAX }
    requires covers { IsCovered code.now instr.now state.old }
    ensures done { IfSome result (λ next. (place : Place) →
        DoesWhere place (IsAt at input.now) (weighs_and_acts code.now instr.now) state.old next state.new) }
    ensures common { IfSome result (λ next. TakesCandidate instr.now → ⊥) }
    ensures left { IfNone result (state.new ≡ state.old) }
{
    match instr {
        Instr::Push(n) => on_if(push_constant(state, code, *n)),
        Instr::Local(n) => on_if(push_copy_of(state, *n)),
        Instr::Input => push_record(state, input),
        Instr::Binary(op) => on_if(binary_of_ints(state, *op)),
        Instr::Keep(n) => on_if(keep_int(state, *n)),
        Instr::Store(n, path) => on_if(store_int(state, *n, path)),
        Instr::Test(to, _) => test_truth(state, at, *to),
        Instr::Jump(to) => Some(Onward::To(*to)),
        Instr::Tick => Some(Onward::On),
        Instr::EndRecord => Some(Onward::End),
        Instr::Apply(which) => on_if(apply_to_octets(state, *which)),
        Instr::Convert(ty) => on_if(read_number(state, code, *ty)),
        Instr::Slice => on_if(cut(state)),
        Instr::Emit(table, 0, false) => on_if(emit_int(state, alloc, *table)),
        _ => None,
    }
}

// Pushes the constant, which stays where it is, if there is memory.
#[inline(always)]
fn push_constant<'a>(state: &mut RunState<'a>, code: &'a Code, n: u32) -> bool
    requires within { n < length code.now.constants }
    ensures value { DoesIf result (act code.now (instr.Push n)) state.old state.new }
{
    match code.constants.get(n as usize) {
        Value::Int(number) => state.operands.push_int(*number),
        other => state.operands.push_lent(other).is_ok(),
    }
}

// Pushes a copy of the local, if there is memory.
#[inline(always)]
fn push_copy_of(state: &mut RunState<'_>, n: u32) -> bool
    requires within { n < length state.old.calls.locals }
    ensures value { (code : Code) → DoesIf result (act code (instr.Local n)) state.old state.new }
{
    let local = state.calls.local(n);
    match local.int() {
        Some(number) => state.operands.push_int(number),
        None => state.operands.push_copy(local).is_ok(),
    }
}

// Pushes the bytes of the record, which cells share, if there is memory.
#[inline(always)]
fn push_record<'a>(state: &mut RunState<'a>, input: &Cell<'a>) -> Option<Onward>
    ensures done { (code : Code) (at : ℕ) → IfSome result (λ next. (place : Place) →
        DoesWhere place (IsAt at input.now) (act code instr.Input) state.old next state.new) }
    ensures left { IfNone result (state.new ≡ state.old) }
{
    match state.operands.push_copy(input) {
        Ok(()) => Some(Onward::On),
        Err(_) => None,
    }
}

// Puts what a common operator makes of two whole numbers in their stead.
#[inline(always)]
fn binary_of_ints(state: &mut RunState<'_>, op: BinOp) -> bool
    requires some { 1 < length state.old.operands }
    ensures value { (code : Code) → DoesIf result (weighs_and_acts code (instr.Binary op)) state.old state.new }
{
    let Some((a, b)) = state.operands.top_ints() else {
        return false;
    };
    let Some(made) = of_ints(op, a, b) else {
        return false;
    };
    state.operands.drop_one();
    state.operands.put_on_top(made);
    true
}

// Pops a whole number into the local.
#[inline(always)]
fn keep_int(state: &mut RunState<'_>, n: u32) -> bool
    requires within { n < length state.old.calls.locals }
    requires some { 0 < length state.old.operands }
    ensures value { (code : Code) → DoesIf result (act code (instr.Keep n)) state.old state.new }
{
    let Some(number) = state.operands.pop_int() else {
        return false;
    };
    state.calls.keep_int(n, number);
    true
}

// Pops a whole number and puts it into the local, if no path leads further.
#[inline(always)]
fn store_int(state: &mut RunState<'_>, n: u32, path: &Steps) -> bool
    requires within { n < length state.old.calls.locals }
    requires some { 0 < length state.old.operands }
    ensures value { (counting : Option ℕ) → DoesIf result (λ place s. store counting path.now (indexes_in path.now) place n s) state.old state.new }
{
    if !path.is_empty() {
        return false;
    }
    let Some(number) = state.operands.pop_int() else {
        return false;
    };
    state.calls.keep_int(n, number);
    true
}

// Pops a truth value, and goes on after the line at the place `at` if it is true, and to the place `to` if it is false.
#[inline(always)]
fn test_truth(state: &mut RunState<'_>, at: usize, to: usize) -> Option<Onward>
    requires room { at < usize.MAX }
    requires some { 0 < length state.old.operands }
    ensures done { IfSome result (λ next. (code : Code) (past : ℕ) (place : Place) →
        DoesWhere place (λ a. a.at ≡ at) (act code (instr.Test to past)) state.old next state.new) }
    ensures left { IfNone result (state.new ≡ state.old) }
{
    let truth = state.operands.top().bool()?;
    state.operands.drop_one();
    Some(Onward::To(if truth { at + 1 } else { to }))
}

// Pops a whole number and emits it, with neither indexes nor a weight, if its tick is left and there is memory.
#[inline(always)]
fn emit_int(state: &mut RunState<'_>, alloc: Global, table: u32) -> bool
    requires some { 0 < length state.old.operands }
    ensures value { (code : Code) → DoesIf result (weighs_and_acts code (instr.Emit table 0 false)) state.old state.new }
{
    if state.left == 0 {
        return false;
    }
    let Some(number) = state.operands.top().int() else {
        return false;
    };
    if state.emits.push_number(alloc, table, number).is_err() {
        return false;
    }
    state.operands.drop_one();
    state.left -= 1;
    true
}

// A run goes on after a line that was done.
#[inline(always)]
fn on_if(done: bool) -> Option<Onward>
    ensures value { result ≡ on_if done }
{
    if done { Some(Onward::On) } else { None }
}
