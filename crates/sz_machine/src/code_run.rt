//! Runs of code.
ghost use Rattle.std.specs.Prelude.{◌≡◌, ◌≤◌, ◌<◌, ◌^◌, IfOk, OnOk, [], true, length, slice_get, Some, IsSome, List, Option};
ghost use Rattle.sz_value.specs.Data.{Datum};
ghost use Rattle.sz_tabs.specs.Data.{EmitDatum};
ghost use Rattle.sz_world_rules.specs.World.{Outcome, new_world};
ghost use Rattle.sz_world_rules.specs.Slots.{undefined_slots};
ghost use Rattle.sz_instr.specs.WellFormed.{is_well_formed};
ghost use Rattle.sz_instr.specs.Runs.{EndsRecord, RunsTo, StaticsRunTo};
ghost use Rattle.sz_machine_rows.specs.Acting.{state_of, world_of};
ghost use Rattle.sz_machine.specs.AtLines.{in_record, in_static};
ghost use Rattle.sz_machine.specs.Ends.{seen_end, seen_statics_end, RunEnds, StaticsRunEnds};
ghost use Rattle.sz_instr.specs.States.{Goes};
ghost use Rattle.sz_machine.specs.CodeRuns.{Ends, OfEnds, EndsSo, LineDoes};
ghost use Rattle.sz_machine.specs.LinesLeft.{ends_within, routines_end_within};

use crate::acting::{act_in_record, act_in_static, base_charge, settle};
use crate::asked::{RecordRun, StaticsRun};
use crate::ends::{Fault, RunEnd, StaticsEnd};
use crate::quick::act_quickly;
use std::alloc::Global;
use sz_instr::{Code, Line, Routine};
use sz_machine_cells::{Calls, Cell, Operands};
use sz_machine_rows::{BUDGET_PASSED, Emitted, Onward, RunState};
use sz_tabs::Emits;
use sz_value::{NoMemory, Slot, Slots};

/// Room for runs: what a run has at hand lies in it, and the memory that one run took is kept for the next. The code and the statics
/// outlive it, so their values are read where they stand.
pub struct Room<'a> {
    alloc: Global,
    state: RunState<'a>,
    input: Cell<'a>,
}

impl<'a> Drop for Room<'a> {
    fn drop(self) {
        let Room {
            alloc: _,
            state: _,
            input: _,
        } = self;
    }
}

impl<'a> Room<'a> {
    /// No room yet, which takes no memory.
    pub fn new(alloc: Global) -> Room<'a> {
        Room {
            alloc,
            state: fresh(alloc, 0),
            input: Cell::undefined(),
        }
    }

    /// Runs the code for a record as `run` does, in this room.
    pub fn run(
        &mut self,
        code: &'a Code,
        input: &[u8],
        statics: &'a Slots,
        budget: u64,
    ) -> Result<RunEnd, NoMemory>
        requires formed { is_well_formed code.now ≡ true }
        requires least { 1 ≤ budget }
        requires most { budget ≤ 2 ^ 32 }
        requires ends { RunEnds code.now input.now statics.now budget }
        ensures value { (o : Outcome (List EmitDatum)) → RunsTo code.now input.now statics.now budget o → IfOk result (λ end. seen_end end ≡ o) }
    {
        let asked = RecordRun {
            code,
            input,
            statics,
            budget,
        };
        renew(&mut self.state, budget);
        begin(&mut self.state, &code.main)?;
        self.input.set_bytes(self.alloc, input)?;
        run_record(
            &mut self.state,
            self.alloc,
            code,
            statics,
            &self.input,
            code.main.entry,
            &asked,
        )
    }

    /// Gives the list of a run's emits back, so that later runs need no memory for theirs, nor for the index lists of so many.
    pub fn take_back(&mut self, emits: Emits) {
        self.state.emits.take_back(emits);
    }
}

/// The state before a run with so many ticks, which takes no memory.
fn fresh<'a>(alloc: Global, budget: u64) -> RunState<'a>
    ensures value { result ≡ record { operands = []; calls = record { locals = []; lists = []; callers = [] }; emits = []; left = budget } }
{
    RunState {
        operands: Operands::new(alloc),
        calls: Calls::new(alloc),
        emits: Emitted::new(alloc),
        left: budget,
    }
}

/// Forgets the emits, and has so many ticks. The room is kept.
fn renew(state: &mut RunState<'_>, budget: u64)
    ensures value { state.new ≡ record state.old { emits = []; left = budget } }
{
    state.emits.clear();
    state.left = budget;
}

/// Begins the routine without operands. The room is kept.
fn begin(state: &mut RunState<'_>, routine: &Routine) -> Result<(), NoMemory>
    ensures value { OnOk result (state.new ≡ record state.old {
      operands = [];
      calls = record { locals = undefined_slots routine.now.locals; lists = []; callers = [] };
    }) }
{
    if state.operands.len() > 0 {
        state.operands.clear();
    }
    state.calls.begin(routine.locals)
}

/// What the line at a place does in the run for a record.
#[inline(always)]
fn step_in_record<'a>(
    state: &mut RunState<'a>,
    alloc: Global,
    code: &'a Code,
    statics: &'a Slots,
    input: &Cell<'a>,
    at: usize,
) -> Result<Onward, NoMemory>
    requires there { IsSome input.now }
    requires ends { Ends code.now (state_of state.old (in_record at statics.now input.now)) }
    ensures value { IfOk result (λ next.
        LineDoes code.now (in_record at statics.now input.now) (in_record at statics.now input.now) state.old next state.new) }
{
    let line = line_at(code, at);
    let paid = state.pay(u64::from(line.charge));
    if paid {
        if let Some(next) = act_quickly(state, alloc, code, input, at, &line.instr) {
            return Ok(next);
        }
    }
    if !settle(state, paid, line.charge, &line.instr) {
        return Ok(Onward::Fault(BUDGET_PASSED));
    }
    act_in_record(
        state,
        alloc,
        code,
        statics,
        input,
        at,
        line.place,
        &line.instr,
    )
}

/// What the line at a place does in the run of a static.
fn step_in_static<'a>(
    state: &mut RunState<'a>,
    alloc: Global,
    code: &'a Code,
    statics: &mut Slots,
    at: usize,
) -> Result<Onward, NoMemory>
    requires ends { Ends code.now (state_of state.old (in_static at statics.old)) }
    ensures value { IfOk result (λ next.
        LineDoes code.now (in_static at statics.old) (in_static at statics.new) state.old next state.new) }
{
    let line = line_at(code, at);
    let charge = base_charge(state, line.charge, &line.instr);
    if !state.pay(charge) {
        return Ok(Onward::Fault(BUDGET_PASSED));
    }
    act_in_static(state, alloc, code, statics, at, line.place, &line.instr)
}

/// The run for a record from a place to its end.
fn run_record<'a>(
    state: &mut RunState<'a>,
    alloc: Global,
    code: &'a Code,
    statics: &'a Slots,
    input: &Cell<'a>,
    start: usize,
    asked: &RecordRun<'_>,
) -> Result<RunEnd, NoMemory>
    requires there { IsSome input.now }
    requires ends { Ends code.now (state_of state.old (in_record start statics.now input.now)) }
    requires within { ends_within code.now asked.now.lines.0 (Goes (state_of state.old (in_record start statics.now input.now))) ≡ true }
    ensures value { IfOk result (λ end.
        OfEnds code.now (state_of state.old (in_record start statics.now input.now)) (λ x. EndsRecord x (seen_end end))) }
{
    let mut at = start;
    loop {
        let line = line_at(code, at);
        match step_in_record(state, alloc, code, statics, input, at)? {
            Onward::On => at += 1,
            Onward::To(to) => at = to,
            Onward::End => return Ok(RunEnd::Done(state.emits.hand_over(alloc))),
            Onward::Fault(kind) => return Ok(RunEnd::Fault(Fault {
                kind,
                place: line.place,
            })),
        }
    }
}

/// The run of a static from a place to its end: the fault, if it ends in one.
fn run_static<'a>(
    state: &mut RunState<'a>,
    alloc: Global,
    code: &'a Code,
    statics: &mut Slots,
    start: usize,
    asked: &StaticsRun<'_>,
) -> Result<Option<Fault>, NoMemory>
    requires ends { Ends code.now (state_of state.old (in_static start statics.old)) }
    requires within { ends_within code.now asked.now.lines.0 (Goes (state_of state.old (in_static start statics.old))) ≡ true }
    ensures value { IfOk result (λ fault.
        OfEnds code.now (state_of state.old (in_static start statics.old)) (EndsSo fault (world_of state.new) statics.new)) }
{
    let mut at = start;
    loop {
        let line = line_at(code, at);
        match step_in_static(state, alloc, code, statics, at)? {
            Onward::On => at += 1,
            Onward::To(to) => at = to,
            Onward::End => return Ok(None),
            Onward::Fault(kind) => return Ok(Some(Fault {
                kind,
                place: line.place,
            })),
        }
    }
}

// The line at a place.
#[inline(always)]
fn line_at(code: &Code, at: usize) -> &Line
    requires within { at < length code.now.lines }
    ensures value { slice_get code.now.lines at ≡ Some result.now }
    ensures room { at < usize.MAX }
{
    &code.lines.as_slice()[at]
}

// So many undefined slots.
fn undefined(alloc: Global, count: usize) -> Result<Slots, NoMemory>
    ensures value { IfOk result (λ slots. slots ≡ undefined_slots count) }
{
    let mut slots = Slots::with_capacity(alloc, count)?;
    for _ in 0..count {
        slots.push(Slot::Undefined)?;
    }
    Ok(slots)
}

/// Runs the code for a record of these bytes, with these statics and `budget` ticks.
pub fn run<'a>(
    alloc: Global,
    code: &'a Code,
    input: &[u8],
    statics: &'a Slots,
    budget: u64,
) -> Result<RunEnd, NoMemory>
    requires formed { is_well_formed code.now ≡ true }
    requires least { 1 ≤ budget }
    requires most { budget ≤ 2 ^ 32 }
    requires ends { RunEnds code.now input.now statics.now budget }
    ensures value { (o : Outcome (List EmitDatum)) → RunsTo code.now input.now statics.now budget o → IfOk result (λ end. seen_end end ≡ o) }
{
    Room::new(alloc).run(code, input, statics, budget)
}

/// Runs the code that computes the statics, all of them with `budget` ticks.
pub fn run_statics(alloc: Global, code: &Code, budget: u64) -> Result<StaticsEnd, NoMemory>
    requires formed { is_well_formed code.now ≡ true }
    requires least { 1 ≤ budget }
    requires most { budget ≤ 2 ^ 32 }
    requires ends { StaticsRunEnds code.now budget }
    ensures value { (o : Outcome (List (Option Datum))) → StaticsRunTo code.now budget o → IfOk result (λ end. seen_statics_end end ≡ o) }
{
    let asked = StaticsRun { code, budget };
    run_each(alloc, code, budget, &asked)
}

// Runs the code of each static, as it is asked for.
fn run_each(
    alloc: Global,
    code: &Code,
    budget: u64,
    asked: &StaticsRun<'_>,
) -> Result<StaticsEnd, NoMemory>
    requires ends { StaticsRunEnds code.now budget }
    requires within { routines_end_within code.now asked.now.lines.0 code.now.statics (new_world budget) (undefined_slots (length code.now.statics)) ≡ true }
    ensures value { (o : Outcome (List (Option Datum))) → StaticsRunTo code.now budget o → IfOk result (λ end. seen_statics_end end ≡ o) }
{
    let mut state = fresh(alloc, budget);
    let count = code.statics.len();
    let mut statics = undefined(alloc, count)?;
    for i in 0..count {
        let routine = code.statics.get(i);
        begin(&mut state, routine)?;
        if let Some(fault) = run_static(
            &mut state,
            alloc,
            code,
            &mut statics,
            routine.entry,
            asked,
        )? {
            return Ok(StaticsEnd::Fault(fault));
        }
    }
    Ok(StaticsEnd::Done(statics))
}
