//! Emits.
ghost use Rattle.std.specs.Prelude.{◌≡◌, ◌+◌, ◌<◌, ◌≤◌, ◌∷◌, ◌++◌, length, false, IfOk, OnOk, Some, None, Option, List, []};
ghost use Rattle.sz_instr.specs.declared.code.Code.{Code};
ghost use Rattle.sz_instr.specs.declared.instr.Instr.TheVariants as instr;
ghost use Rattle.sz_value.specs.Seen.{seen};
ghost use Rattle.sz_world_rules.specs.Slots.{all_defined};
ghost use Rattle.sz_world_rules.specs.Ticks.{result_weight};
ghost use Rattle.sz_world_rules.specs.Emits.{weight_number, weight_if_all, emit_by_weight, line_emit};
ghost use Rattle.sz_instr.specs.States.{popped};
ghost use Rattle.sz_instr.specs.Rows.{emit_operands};
ghost use Rattle.sz_machine_rows.specs.Acting.{Paid, DoesAt, weighs_and_acts, if_paid};
ghost use Rattle.sz_machine_rows.specs.declared.run_state.Onward.TheVariants.{On};
ghost use Rattle.sz_machine_rows.specs.Emitting.{parts_weight, emits_made, emits_on_top};

use crate::run_state::{Onward, RunState, if_paid};
use std::alloc::Global;
use sz_instr::Code;
use sz_machine_cells::{Cell, result_weight};
use sz_tabs::Emit;
use sz_types::Place;
use sz_value::{List, NoMemory, Value};

impl<'a> RunState<'a> {
    /// Pops the parts of an emit to the table, and emits them if all are defined; else its line is counted, if the code counts lines.
    /// What has at most one index and no weight is emitted by a call of its own.
    #[inline(always)]
    pub fn emit(
        &mut self,
        alloc: Global,
        code: &Code,
        place: Place,
        table: u32,
        indexes: u32,
        weighted: bool,
    ) -> Result<Onward, NoMemory>
        requires within { emit_operands indexes weighted ≤ length self.old.operands }
        ensures value { IfOk result (λ next. DoesAt place (weighs_and_acts code.now (instr.Emit table indexes weighted)) self.old next self.new) }
    {
        if weighted || indexes > 1 {
            return Ok(if_paid(self.emit_any(alloc, code, place, table, indexes, weighted)?));
        }
        if indexes == 1 {
            return Ok(if_paid(self.emit_under_one(alloc, code, place, table)?));
        }
        Ok(if_paid(self.emit_alone(alloc, code, place, table)?))
    }

    // Pops a value and emits it, with neither indexes nor a weight. Whether the ticks for it were left.
    #[inline(never)]
    #[tactic(auto, using(crate::proofs::EmitLemmas::alone_unpaid))]
    fn emit_alone(
        &mut self,
        alloc: Global,
        code: &Code,
        place: Place,
        table: u32,
    ) -> Result<bool, NoMemory>
        requires some { 0 < length self.old.operands }
        ensures value { IfOk result (λ paid. DoesAt place (weighs_and_acts code.now (instr.Emit table 0 false)) self.old (if_paid paid) self.new) }
    {
        let value = self.operands.pop();
        if !self.pay(result_weight(&value)) {
            return Ok(false);
        }
        self.emit_paid(alloc, code, place, table, value)?;
        Ok(true)
    }

    // Emits a value whose weight is taken, if it is there; else its line is counted, if the code counts lines.
    #[inline(always)]
    fn emit_paid(
        &mut self,
        alloc: Global,
        code: &Code,
        place: Place,
        table: u32,
        value: Cell<'a>,
    ) -> Result<(), NoMemory>
        ensures value { OnOk result (DoesAt place (emits_made code.now.ignore (emit_by_weight table (Some []) value.entry None)) self.old On self.new) }
    {
        match value.into_value(alloc)? {
            Some(value) => self.emits.push_alone(alloc, table, value),
            None => self.emit_made(alloc, code, place, None),
        }
    }

    // Pops a value and one index, and emits the value under it, without a weight. Whether the ticks for them were left.
    #[inline(never)]
    fn emit_under_one(
        &mut self,
        alloc: Global,
        code: &Code,
        place: Place,
        table: u32,
    ) -> Result<bool, NoMemory>
        requires within { 1 < length self.old.operands }
        ensures value { IfOk result (λ paid. DoesAt place (weighs_and_acts code.now (instr.Emit table 1 false)) self.old (if_paid paid) self.new) }
    {
        let value = self.operands.pop();
        let index = self.operands.pop();
        if !self.pay_two(&index, &value) {
            return Ok(false);
        }
        self.emit_two(alloc, code, place, table, index, value)?;
        Ok(true)
    }

    // Takes what an index and a value weigh together, if both are there.
    #[inline(always)]
    #[tactic(auto, using(crate::proofs::PayLemmas::pays_as, crate::proofs::EmitLemmas::one_weighs, crate::proofs::EmitLemmas::without_value, crate::proofs::EmitLemmas::without_one))]
    fn pay_two(&mut self, index: &Cell<'_>, value: &Cell<'_>) -> bool
        ensures value { Paid (parts_weight (all_defined (index.now ∷ [])) value.now None) self.old result self.new }
    {
        if !index.is_defined() || !value.is_defined() {
            return true;
        }
        self.pay_both(index, value)
    }

    // Takes what two cells weigh.
    #[inline(always)]
    #[tactic(auto, using(crate::proofs::PayLemmas::paid_more, crate::proofs::PayLemmas::paid_less))]
    fn pay_both(&mut self, index: &Cell<'_>, value: &Cell<'_>) -> bool
        ensures value { Paid (result_weight index.now + result_weight value.now) self.old result self.new }
    {
        self.pay(result_weight(index)) && self.pay(result_weight(value))
    }

    // Emits a value under an index whose weights are taken, if both are there; else its line is counted, if the code counts lines.
    #[inline(always)]
    fn emit_two(
        &mut self,
        alloc: Global,
        code: &Code,
        place: Place,
        table: u32,
        index: Cell<'a>,
        value: Cell<'a>,
    ) -> Result<(), NoMemory>
        ensures value { OnOk result (DoesAt place (emits_made code.now.ignore (emit_by_weight table (all_defined (index.entry ∷ [])) value.entry None))
            self.old On self.new) }
    {
        match value.into_value(alloc)? {
            Some(value) => self.emit_under(alloc, code, place, table, index, value),
            None => self.emit_made(alloc, code, place, None),
        }
    }

    // The same where the value is there.
    #[inline(always)]
    fn emit_under(
        &mut self,
        alloc: Global,
        code: &Code,
        place: Place,
        table: u32,
        index: Cell<'a>,
        value: Value,
    ) -> Result<(), NoMemory>
        ensures value { OnOk result (DoesAt place (emits_made code.now.ignore (emit_by_weight table (all_defined (index.entry ∷ [])) (Some (seen value)) None))
            self.old On self.new) }
    {
        match index.into_value(alloc)? {
            Some(index) => self.emits.push_under(alloc, table, index, value),
            None => self.emit_made(alloc, code, place, None),
        }
    }

    // The same of any parts. Whether the ticks for them were left.
    #[inline(never)]
    fn emit_any(
        &mut self,
        alloc: Global,
        code: &Code,
        place: Place,
        table: u32,
        indexes: u32,
        weighted: bool,
    ) -> Result<bool, NoMemory>
        requires within { emit_operands indexes weighted ≤ length self.old.operands }
        ensures value { IfOk result (λ paid. DoesAt place (weighs_and_acts code.now (instr.Emit table indexes weighted)) self.old (if_paid paid) self.new) }
    {
        if weighted {
            let weight = self.operands.pop();
            self.emit_on_top(alloc, code, place, table, indexes, Some(weight))
        } else {
            self.emit_on_top(alloc, code, place, table, indexes, None)
        }
    }

    // Pops the value and the indexes of an emit with this weight.
    #[tactic(auto, using(crate::proofs::EmitLemmas::top_unpaid, crate::proofs::EmitLemmas::top_paid))]
    fn emit_on_top(
        &mut self,
        alloc: Global,
        code: &Code,
        place: Place,
        table: u32,
        indexes: u32,
        weight: Option<Cell<'a>>,
    ) -> Result<bool, NoMemory>
        requires within { indexes + 1 ≤ length self.old.operands }
        ensures value { IfOk result (λ paid. DoesAt place (emits_on_top code.now.ignore table indexes weight.entry) self.old (if_paid paid) self.new) }
    {
        let value = self.operands.pop();
        if !self.pay_parts(indexes as usize, &value, &weight) {
            return Ok(false);
        }
        let indexes = self.operands.pop_values(alloc, indexes as usize)?;
        let made = emit_of(alloc, table, indexes, value, weight)?;
        self.emit_made(alloc, code, place, made)?;
        Ok(true)
    }

    // Takes what so many topmost operands, the value and the weight weigh, if they are all there. They are weighed where they are, so that
    // nothing is copied that isn't paid.
    #[tactic(auto, using(crate::proofs::PayLemmas::pays_as, crate::proofs::EmitLemmas::weighs_plain, crate::proofs::EmitLemmas::weighs_weighted, crate::proofs::EmitLemmas::without_value, crate::proofs::EmitLemmas::without_indexes, crate::proofs::EmitLemmas::without_weight))]
    fn pay_parts(&mut self, indexes: usize, value: &Cell<'_>, weight: &Option<Cell<'_>>) -> bool
        requires within { indexes ≤ length self.old.operands }
        ensures value { Paid (parts_weight (all_defined (popped indexes self.old.operands)) value.now weight.now) self.old result self.new }
    {
        if !self.operands.are_defined(indexes) || !value.is_defined() {
            return true;
        }
        match weight {
            None => self.pay_plain(indexes, value),
            Some(weight) if weight.is_defined() => self.pay_weighted(indexes, value, weight),
            Some(_) => true,
        }
    }

    // Takes what so many topmost operands, the value and the weight weigh.
    #[tactic(auto, using(crate::proofs::PayLemmas::paid_more, crate::proofs::PayLemmas::paid_less))]
    fn pay_weighted(&mut self, indexes: usize, value: &Cell<'_>, weight: &Cell<'_>) -> bool
        requires within { indexes ≤ length self.old.operands }
        ensures value { Paid (weight_if_all (all_defined (popped indexes self.old.operands)) + result_weight value.now + result_weight weight.now)
            self.old result self.new }
    {
        self.pay_plain(indexes, value) && self.pay(result_weight(weight))
    }

    // Takes what so many topmost operands and the value weigh.
    #[tactic(auto, using(crate::proofs::PayLemmas::paid_more, crate::proofs::PayLemmas::paid_less))]
    fn pay_plain(&mut self, indexes: usize, value: &Cell<'_>) -> bool
        requires within { indexes ≤ length self.old.operands }
        ensures value { Paid (weight_if_all (all_defined (popped indexes self.old.operands)) + result_weight value.now) self.old result self.new }
    {
        self.pay_indexes(indexes) && self.pay(result_weight(value))
    }

    // Takes what so many topmost operands weigh, if they are all there.
    #[tactic(auto, using(crate::proofs::PayLemmas::pays_as, crate::proofs::PayLemmas::not_there))]
    fn pay_indexes(&mut self, indexes: usize) -> bool
        requires within { indexes ≤ length self.old.operands }
        ensures value { Paid (weight_if_all (all_defined (popped indexes self.old.operands))) self.old result self.new }
    {
        match self.operands.parts_weight(indexes, self.left) {
            Some(weight) => self.pay(weight),
            None => false,
        }
    }

    // Emits this, or else counts the line at the place of the text, if the code counts lines.
    fn emit_made(
        &mut self,
        alloc: Global,
        code: &Code,
        place: Place,
        made: Option<Emit>,
    ) -> Result<(), NoMemory>
        ensures value { OnOk result (DoesAt place (emits_made code.now.ignore made) self.old On self.new) }
    {
        match (made, code.ignore) {
            (Some(emit), _) => self.emits.push(emit)?,
            (None, Some(table)) => self.count_line(alloc, table, place)?,
            (None, None) => {}
        }
        Ok(())
    }

    /// Counts the line at the place of the text: the table that counts lines has one emit more.
    pub fn count_line(&mut self, alloc: Global, table: u32, place: Place) -> Result<(), NoMemory>
        ensures value { OnOk result (self.new ≡ record self.old { emits = self.old.emits ++ line_emit table place ∷ [] }) }
    {
        let line = i64::from(place.line);
        self.emits
            .push_under(alloc, table, Value::Int(line), Value::Int(1))?;
        Ok(())
    }
}

// The emit of these parts to the table, if they are all there.
#[tactic(auto, using(crate::proofs::EmitLemmas::no_indexes, crate::proofs::EmitLemmas::no_value))]
fn emit_of(
    alloc: Global,
    table: u32,
    indexes: Option<List>,
    value: Cell<'_>,
    weight: Option<Cell<'_>>,
) -> Result<Option<Emit>, NoMemory>
    ensures value { IfOk result (λ made. made ≡ emit_by_weight table indexes value.entry weight.entry) }
{
    let Some(indexes) = indexes else {
        return Ok(None);
    };
    let Some(value) = value.into_value(alloc)? else {
        return Ok(None);
    };
    match weight {
        None => Ok(Some(Emit {
            table,
            indexes,
            value,
            weight: None,
        })),
        Some(weight) => match weight.into_value(alloc)? {
            Some(given) => Ok(emit_with(table, indexes, value, &given)),
            None => Ok(None),
        },
    }
}

// The emit of a value under indexes with a weight.
fn emit_with(table: u32, indexes: List, value: Value, given: &Value) -> Option<Emit>
    ensures value { result ≡ emit_by_weight table (Some indexes) (Some (seen value)) (Some (Some (seen given.now))) }
{
    match weight_number(given) {
        Some(weight) => Some(Emit {
            table,
            indexes,
            value,
            weight: Some(weight),
        }),
        None => None,
    }
}

// The number that a weight is.
fn weight_number(value: &Value) -> Option<i64>
    ensures value { result ≡ weight_number (Some (seen value.now)) }
{
    match value {
        Value::Int(number) | Value::Time(number) => Some(*number),
        _ => None,
    }
}
