//! What instructions do to the place of the next line: tests, calls and candidates.
ghost use Rattle.std.specs.Prelude.{◌≡◌, ◌<◌, ◌≤◌, ℕ, suc, length, Some, IfOk};
ghost use Rattle.sz_instr.specs.declared.code.Code.{Code};
ghost use Rattle.sz_types.specs.declared.place.Place.{Place};
ghost use Rattle.sz_instr.specs.declared.instr.Instr.TheVariants as instr;
ghost use Rattle.sz_instr.specs.Rows.{act, call_routine};
ghost use Rattle.sz_machine_rows.specs.Acting.{Does, DoesAt, DoesWhere, PassesTo, if_passed};
ghost use Rattle.sz_machine_rows.specs.declared.run_state.Onward.TheVariants.{On, To};

use crate::run_state::{CALLS_TOO_DEEP, Onward, RunState, if_passed};
use std::alloc::Global;
use sz_instr::{Code, Routine};
use sz_machine_cells::{Candidates, Cell};
use sz_types::Place;
use sz_value::NoMemory;

// How many calls can be open.
const MOST_OPEN_CALLS: usize = 128;

impl<'a> RunState<'a> {
    /// Pops a slot and goes on if it is true, and to the first place if it is false. An undefined one is a fault, or leads to the second place,
    /// its line being counted.
    #[inline(never)]
    pub fn test(
        &mut self,
        alloc: Global,
        code: &Code,
        place: Place,
        to: usize,
        past: usize,
    ) -> Result<Onward, NoMemory>
        requires some { 0 < length self.old.operands }
        ensures value { IfOk result (λ next. DoesAt place (act code.now (instr.Test to past)) self.old next self.new) }
    {
        let x = self.operands.pop();
        match x.truth() {
            Some(true) => Ok(Onward::On),
            _ if x.is_defined() => Ok(Onward::To(to)),
            _ => Ok(if_passed(self.pass(alloc, code, place)?, Onward::To(past))),
        }
    }

    /// An undefined value was used. Where the code counts lines, the one at this place of the text is counted, and the answer is true: the
    /// run passes over it. Else the answer is false, and it is a fault.
    #[inline(never)]
    pub fn pass(&mut self, alloc: Global, code: &Code, place: Place) -> Result<bool, NoMemory>
        ensures to { (to : ℕ) → IfOk result (λ passed. PassesTo code.now.ignore place (λ a. to) self.old (if_passed passed (To to)) self.new) }
        ensures on { IfOk result (λ passed. PassesTo code.now.ignore place (λ a. suc a.at) self.old (if_passed passed On) self.new) }
    {
        match code.ignore {
            Some(table) => {
                self.count_line(alloc, table, place)?;
                Ok(true)
            }
            None => Ok(false),
        }
    }

    /// Goes to the place if the slot on top isn't true, and leaves it; else pops it.
    #[inline(always)]
    pub fn and_test(&mut self, to: usize) -> Onward
        requires some { 0 < length self.old.operands }
        ensures value { (code : Code) → Does (act code (instr.AndTest to)) self.old result self.new }
    {
        match self.operands.top().truth() {
            Some(true) => {
                self.operands.pop();
                Onward::On
            }
            _ => Onward::To(to),
        }
    }

    /// Goes to the place if the slot on top isn't false, and leaves it; else pops it.
    #[inline(always)]
    pub fn or_test(&mut self, to: usize) -> Onward
        requires some { 0 < length self.old.operands }
        ensures value { (code : Code) → Does (act code (instr.OrTest to)) self.old result self.new }
    {
        match self.operands.top().truth() {
            Some(false) => {
                self.operands.pop();
                Onward::On
            }
            _ => Onward::To(to),
        }
    }

    /// Pops a slot, and goes to the place unless it is true.
    #[inline(never)]
    pub fn meets(&mut self, to: usize) -> Onward
        requires some { 0 < length self.old.operands }
        ensures value { (code : Code) → Does (act code (instr.Meets to)) self.old result self.new }
    {
        let x = self.operands.pop();
        match x.truth() {
            Some(true) => Onward::On,
            _ => Onward::To(to),
        }
    }

    /// Pops a slot, and goes to the place if it is false.
    #[inline(never)]
    pub fn fails(&mut self, to: usize) -> Onward
        requires some { 0 < length self.old.operands }
        ensures value { (code : Code) → Does (act code (instr.Fails to)) self.old result self.new }
    {
        let x = self.operands.pop();
        match x.truth() {
            Some(false) => Onward::To(to),
            _ => Onward::On,
        }
    }

    /// Pops a slot, which is to be defined: an undefined one is a fault, unless its line is counted.
    #[inline(never)]
    pub fn discard(&mut self, alloc: Global, code: &Code, place: Place) -> Result<Onward, NoMemory>
        requires some { 0 < length self.old.operands }
        ensures value { IfOk result (λ next. DoesAt place (act code.now instr.Discard) self.old next self.new) }
    {
        let x = self.operands.pop();
        if x.is_defined() {
            Ok(Onward::On)
        } else {
            Ok(if_passed(self.pass(alloc, code, place)?, Onward::On))
        }
    }

    /// Enters the routine with its arguments, from the line at a place. Where one of them is undefined, so is the result, and nothing is
    /// called; where 128 calls are open, it is a fault.
    #[inline(never)]
    pub fn call(&mut self, routine: &Routine, at: usize) -> Result<Onward, NoMemory>
        requires within { routine.now.params ≤ length self.old.operands }
        requires room { at < usize.MAX }
        ensures value { IfOk result (λ next. (place : Place) →
            DoesWhere place (λ a. a.at ≡ at) (call_routine (Some routine.now)) self.old next self.new) }
    {
        let count = routine.params as usize;
        if !self.operands.are_defined(count) {
            self.operands.drop_top(count);
            self.operands.push(Cell::undefined())?;
            return Ok(Onward::On);
        }
        if self.calls.open() >= MOST_OPEN_CALLS {
            return Ok(Onward::Fault(CALLS_TOO_DEEP));
        }
        self.calls
            .enter(&mut self.operands, routine.params, routine.locals, at + 1)?;
        Ok(Onward::To(routine.entry))
    }

    /// Leaves the routine, with the slot on top for the one that called it.
    #[inline(never)]
    pub fn give_back(&mut self) -> Onward
        requires some { 0 < length self.old.operands }
        requires called { 0 < length self.old.calls.callers }
        ensures value { (code : Code) → Does (act code instr.Return) self.old result self.new }
    {
        Onward::To(self.calls.leave())
    }

    /// Pops a base and adds the list of its candidates.
    #[inline(never)]
    pub fn enter_search(&mut self, slice: bool) -> Result<Onward, NoMemory>
        requires some { 0 < length self.old.operands }
        ensures value { (code : Code) → IfOk result (λ next. Does (act code (instr.Enter slice)) self.old next self.new) }
    {
        let base = self.operands.pop();
        let list = Candidates::of(slice, &base)?;
        self.calls.add_list(list)?;
        Ok(Onward::On)
    }

    /// Takes the next candidate into the local; if none is left, drops the list and goes to the place.
    #[inline(never)]
    pub fn next_candidate(&mut self, alloc: Global, n: u32, to: usize) -> Result<Onward, NoMemory>
        requires within { n < length self.old.calls.locals }
        requires some { 0 < length self.old.calls.lists }
        ensures value { (code : Code) → IfOk result (λ next. Does (act code (instr.Next n to)) self.old next self.new) }
    {
        if self.calls.next(alloc, n)? {
            Ok(Onward::On)
        } else {
            Ok(Onward::To(to))
        }
    }

    /// Drops the innermost candidate list.
    #[inline(never)]
    pub fn leave_search(&mut self) -> Onward
        requires some { 0 < length self.old.calls.lists }
        ensures value { (code : Code) → Does (act code instr.Leave) self.old result self.new }
    {
        self.calls.drop_list();
        Onward::On
    }
}
