//! What instructions do to operands: constants, variables, operators, conversions, composites and parts.
ghost use Rattle.std.specs.Prelude.{◌≡◌, ◌<◌, ◌≤◌, ◌*◌, ◌∷◌, drop, length, Some, IfOk, OnOk};
ghost use Rattle.sz_instr.specs.declared.code.Code.{Code};
ghost use Rattle.sz_instr.specs.declared.instr.Instr.TheVariants as instr;
ghost use Rattle.sz_value.specs.Data.{int};
ghost use Rattle.sz_instr.specs.Rows.{act};
ghost use Rattle.sz_types.specs.Rows.{arity};
ghost use Rattle.sz_world_rules.specs.Operations.{array_of, tuple_of};
ghost use Rattle.sz_world_rules.specs.Ticks.{result_weight};
ghost use Rattle.sz_instr.specs.States.{popped};
ghost use Rattle.sz_machine_rows.specs.Acting.{Paid, Does, weighs_and_acts, if_paid};
ghost use Rattle.sz_machine_rows.specs.declared.run_state.Onward.TheVariants.{On};

use crate::run_state::{BUDGET_PASSED, Onward, RunState, if_paid};
use std::alloc::Global;
use sz_instr::Code;
use sz_machine_cells::{
    Cell, applied_to_one, applied_to_two, array_of, binary_of, binary_weight, builtin_weight,
    conversion_weight, converted, decoded, definedness, element_of, part_of, result_weight,
    slice_between, slice_of, tuple_of, unary_of,
};
use sz_types::{BinOp, Builtin, UnOp};
use sz_value::NoMemory;

impl<'a> RunState<'a> {
    /// Pushes the constant, which stays where it is.
    #[inline(always)]
    pub fn push(&mut self, code: &'a Code, constant: u32) -> Result<Onward, NoMemory>
        requires within { constant < length code.now.constants }
        ensures value { IfOk result (λ next. Does (act code.now (instr.Push constant)) self.old next self.new) }
    {
        self.operands
            .push_lent(code.constants.get(constant as usize))?;
        Ok(Onward::On)
    }

    /// Pushes a copy of the local.
    #[inline(always)]
    pub fn push_local(&mut self, n: u32) -> Result<Onward, NoMemory>
        requires within { n < length self.old.calls.locals }
        ensures value { (code : Code) → IfOk result (λ next. Does (act code (instr.Local n)) self.old next self.new) }
    {
        self.operands.push_copy(self.calls.local(n))?;
        Ok(Onward::On)
    }

    /// Pops a slot into the local.
    #[inline(always)]
    pub fn keep(&mut self, alloc: Global, n: u32) -> Result<Onward, NoMemory>
        requires within { n < length self.old.calls.locals }
        requires some { 0 < length self.old.operands }
        ensures value { (code : Code) → IfOk result (λ next. Does (act code (instr.Keep n)) self.old next self.new) }
    {
        self.keep_cell(alloc, n)?;
        Ok(Onward::On)
    }

    // The same, out of line.
    #[inline(never)]
    fn keep_cell(&mut self, alloc: Global, n: u32) -> Result<(), NoMemory>
        requires within { n < length self.old.calls.locals }
        requires some { 0 < length self.old.operands }
        ensures value { (code : Code) → OnOk result (Does (act code (instr.Keep n)) self.old On self.new) }
    {
        let cell = self.operands.pop().kept(alloc)?;
        self.calls.keep(n, cell);
        Ok(())
    }

    /// Makes the local undefined.
    #[inline(always)]
    pub fn clear(&mut self, n: u32) -> Onward
        requires within { n < length self.old.calls.locals }
        ensures value { (code : Code) → Does (act code (instr.Clear n)) self.old result self.new }
    {
        self.calls.keep(n, Cell::undefined());
        Onward::On
    }

    /// Pops an operand and pushes what the operator makes of it.
    #[inline(never)]
    pub fn unary(&mut self, alloc: Global, op: UnOp) -> Result<Onward, NoMemory>
        requires some { 0 < length self.old.operands }
        ensures value { (code : Code) → IfOk result (λ next. Does (act code (instr.Unary op)) self.old next self.new) }
    {
        let x = self.operands.pop();
        let made = unary_of(alloc, op, &x)?;
        self.operands.push(made)?;
        Ok(Onward::On)
    }

    /// Pops two operands and pushes what the operator makes of them. Whether the ticks for that were left.
    #[inline(never)]
    pub fn binary(&mut self, alloc: Global, op: BinOp) -> Result<bool, NoMemory>
        requires some { 1 < length self.old.operands }
        ensures value { (code : Code) → IfOk result (λ paid. Does (weighs_and_acts code (instr.Binary op)) self.old (if_paid paid) self.new) }
    {
        let y = self.operands.pop();
        let x = self.operands.pop();
        let made = binary_of(alloc, op, &x, &y)?;
        let weight = binary_weight(op, &made);
        self.finish(made, weight)
    }

    /// Pops the arguments and pushes what the function makes of them. They are looked at where they are.
    #[inline(never)]
    pub fn apply(&mut self, alloc: Global, which: Builtin) -> Result<bool, NoMemory>
        requires within { arity which ≤ length self.old.operands }
        ensures value { (code : Code) → IfOk result (λ paid. Does (weighs_and_acts code (instr.Apply which)) self.old (if_paid paid) self.new) }
    {
        match which {
            Builtin::Len | Builtin::Keys => self.apply_to_one(alloc, which),
            Builtin::HasKey | Builtin::StrFind => self.apply_to_two(alloc, which),
        }
    }

    // The same of a function of one argument.
    fn apply_to_one(&mut self, alloc: Global, which: Builtin) -> Result<bool, NoMemory>
        requires one { arity which ≡ 1 }
        requires some { 0 < length self.old.operands }
        ensures value { (code : Code) → IfOk result (λ paid. Does (weighs_and_acts code (instr.Apply which)) self.old (if_paid paid) self.new) }
    {
        let x = self.operands.pop();
        let made = applied_to_one(alloc, which, &x)?;
        let weight = builtin_weight(which, &made);
        self.finish(made, weight)
    }

    // The same of a function of two arguments.
    fn apply_to_two(&mut self, alloc: Global, which: Builtin) -> Result<bool, NoMemory>
        requires two { arity which ≡ 2 }
        requires some { 1 < length self.old.operands }
        ensures value { (code : Code) → IfOk result (λ paid. Does (weighs_and_acts code (instr.Apply which)) self.old (if_paid paid) self.new) }
    {
        let y = self.operands.pop();
        let x = self.operands.pop();
        let made = applied_to_two(alloc, which, &x, &y)?;
        let weight = builtin_weight(which, &made);
        self.finish(made, weight)
    }

    /// Pops an operand and pushes it converted to the type. Bytes become a text where they lie, if they can.
    #[inline(never)]
    pub fn convert(&mut self, alloc: Global, code: &Code, ty: u32) -> Result<bool, NoMemory>
        requires within { ty < length code.now.types }
        requires some { 0 < length self.old.operands }
        ensures value { IfOk result (λ paid. Does (weighs_and_acts code.now (instr.Convert ty)) self.old (if_paid paid) self.new) }
    {
        if self.read_text(alloc, code, ty) {
            return Ok(true);
        }
        let to = code.types.get(ty as usize);
        let x = self.operands.pop();
        let made = converted(alloc, to, &x)?;
        let weight = conversion_weight(to, &x, &made);
        self.finish(made, weight)
    }

    /// Pops bytes and pushes the message that they are by the type.
    #[inline(never)]
    pub fn decode(&mut self, alloc: Global, code: &Code, ty: u32) -> Result<Onward, NoMemory>
        requires within { ty < length code.now.types }
        requires some { 0 < length self.old.operands }
        ensures value { IfOk result (λ next. Does (weighs_and_acts code.now (instr.Decode ty)) self.old next self.new) }
    {
        let by = code.types.get(ty as usize);
        let x = self.operands.pop();
        let made = decoded(alloc, by, &x)?;
        let weight = result_weight(&made);
        Ok(if_paid(self.finish(made, weight)?))
    }

    // Takes what an array or a tuple of so many topmost operands weighs, if it is left. They are weighed where they are, so that nothing
    // is copied that isn't paid.
    #[tactic(auto, using(crate::proofs::PayLemmas::pays_as, crate::proofs::PayLemmas::not_there, crate::proofs::PayLemmas::weighs_array, crate::proofs::PayLemmas::weighs_tuple))]
    fn pay_composite(&mut self, count: usize) -> bool
        requires within { count ≤ length self.old.operands }
        ensures array { Paid (result_weight (array_of (popped count self.old.operands))) self.old result self.new }
        ensures tuple { Paid (result_weight (tuple_of (popped count self.old.operands))) self.old result self.new }
    {
        match self.operands.composite_weight(count, self.left) {
            Some(weight) => self.pay(weight),
            None => false,
        }
    }

    /// Pops the elements and pushes the array of them.
    #[inline(never)]
    #[tactic(auto, using(crate::proofs::PayLemmas::row_unpaid, crate::proofs::PayLemmas::row_paid))]
    pub fn make_array(&mut self, alloc: Global, count: u32) -> Result<Onward, NoMemory>
        requires within { count ≤ length self.old.operands }
        ensures value { (code : Code) → IfOk result (λ next. Does (weighs_and_acts code (instr.MakeArray count)) self.old next self.new) }
    {
        if !self.pay_composite(count as usize) {
            return Ok(Onward::Fault(BUDGET_PASSED));
        }
        let elements = self.operands.pop_values(alloc, count as usize)?;
        let made = array_of(alloc, elements)?;
        self.operands.push(made)?;
        Ok(Onward::On)
    }

    /// Pops the parts and pushes the tuple of them.
    #[inline(never)]
    #[tactic(auto, using(crate::proofs::PayLemmas::row_unpaid, crate::proofs::PayLemmas::row_paid))]
    pub fn make_tuple(&mut self, alloc: Global, count: u32) -> Result<Onward, NoMemory>
        requires within { count ≤ length self.old.operands }
        ensures value { (code : Code) → IfOk result (λ next. Does (weighs_and_acts code (instr.MakeTuple count)) self.old next self.new) }
    {
        if !self.pay_composite(count as usize) {
            return Ok(Onward::Fault(BUDGET_PASSED));
        }
        let parts = self.operands.pop_values(alloc, count as usize)?;
        let made = tuple_of(alloc, parts)?;
        self.operands.push(made)?;
        Ok(Onward::On)
    }

    /// Pops the keys and values and pushes the map of them. They are weighed where they are, so that nothing is copied that isn't paid.
    #[inline(never)]
    #[tactic(auto, using(crate::proofs::PayLemmas::row_unpaid, crate::proofs::PayLemmas::not_there))]
    pub fn make_map(&mut self, alloc: Global, count: u32) -> Result<Onward, NoMemory>
        requires within { 2 * count ≤ length self.old.operands }
        ensures value { (code : Code) → IfOk result (λ next. Does (weighs_and_acts code (instr.MakeMap count)) self.old next self.new) }
    {
        let parts = 2 * count as usize;
        match self.operands.map_within(alloc, parts, self.left)? {
            Some(made) => {
                let weight = result_weight(&made);
                self.operands.drop_top(parts);
                Ok(if_paid(self.finish(made, weight)?))
            }
            None => Ok(Onward::Fault(BUDGET_PASSED)),
        }
    }

    /// Pops an index or a key and what it leads into, and pushes the element.
    #[inline(never)]
    pub fn index(&mut self, alloc: Global) -> Result<(), NoMemory>
        requires some { 1 < length self.old.operands }
        ensures value { (code : Code) → OnOk result (Does (act code instr.Index) self.old On self.new) }
    {
        let i = self.operands.pop();
        let x = self.operands.pop();
        let made = element_of(alloc, &x, &i)?;
        self.operands.push(made)?;
        Ok(())
    }

    /// Pops the bounds of a part and what it is a part of, and pushes the part. Whether the ticks for that were left.
    #[inline(never)]
    pub fn slice(&mut self, alloc: Global) -> Result<bool, NoMemory>
        requires some { 2 < length self.old.operands }
        ensures value { (code : Code) → IfOk result (λ paid. Does (weighs_and_acts code instr.Slice) self.old (if_paid paid) self.new) }
    {
        match self.operands.top_ints() {
            Some((from, to)) => self.slice_between(alloc, from, to),
            None => self.slice_of_any(alloc),
        }
    }

    // The same, where the bounds are these whole numbers.
    #[inline(always)]
    fn slice_between(&mut self, alloc: Global, from: i64, to: i64) -> Result<bool, NoMemory>
        requires some { 2 < length self.old.operands }
        requires ints { self.old.operands ≡ Some (int to) ∷ Some (int from) ∷ drop 2 self.old.operands }
        ensures value { (code : Code) → IfOk result (λ paid. Does (weighs_and_acts code instr.Slice) self.old (if_paid paid) self.new) }
    {
        self.operands.drop_one();
        self.operands.drop_one();
        let x = self.operands.pop();
        let made = slice_between(alloc, x, from, to)?;
        let weight = result_weight(&made);
        self.finish(made, weight)
    }

    // The same of any operands.
    #[inline(never)]
    fn slice_of_any(&mut self, alloc: Global) -> Result<bool, NoMemory>
        requires some { 2 < length self.old.operands }
        ensures value { (code : Code) → IfOk result (λ paid. Does (weighs_and_acts code instr.Slice) self.old (if_paid paid) self.new) }
    {
        let j = self.operands.pop();
        let i = self.operands.pop();
        let x = self.operands.pop();
        let made = slice_of(alloc, x, &i, &j)?;
        let weight = result_weight(&made);
        self.finish(made, weight)
    }

    /// Pops a tuple or a message and pushes a part of it.
    #[inline(never)]
    pub fn field(&mut self, alloc: Global, n: u32) -> Result<(), NoMemory>
        requires some { 0 < length self.old.operands }
        ensures value { (code : Code) → OnOk result (Does (act code (instr.Field n)) self.old On self.new) }
    {
        let x = self.operands.pop();
        let made = part_of(alloc, n, &x)?;
        self.operands.push(made)?;
        Ok(())
    }

    /// Pops a slot and pushes whether it was defined.
    #[inline(never)]
    pub fn def(&mut self) -> Result<Onward, NoMemory>
        requires some { 0 < length self.old.operands }
        ensures value { (code : Code) → IfOk result (λ next. Does (act code instr.Def) self.old next self.new) }
    {
        let x = self.operands.pop();
        self.operands.push(definedness(&x))?;
        Ok(Onward::On)
    }
}
