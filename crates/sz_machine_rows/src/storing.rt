//! Stores into values, by a path.
ghost use Rattle.std.specs.Prelude.{ℕ, ◌+◌, ◌<◌, ◌≤◌, [], length, IfOk, Option};
ghost use Rattle.sz_value.specs.Seen.{seen};
ghost use Rattle.sz_instr.specs.Rows.{indexes_in, store};
ghost use Rattle.sz_machine_rows.specs.Acting.{Does, DoesAt, if_passed};
ghost use Rattle.sz_machine_rows.specs.declared.run_state.Onward.TheVariants.{On};
ghost use Rattle.sz_machine_rows.specs.Storing.{stores_values};

use crate::run_state::{Onward, RunState, STORE_OUTSIDE, if_passed, rebuilt};
use std::alloc::Global;
use sz_instr::{Code, Step, Steps};
use sz_machine_cells::{indexes_in, stored_in};
use sz_types::Place;
use sz_value::{List, NoMemory, Value};

impl<'a> RunState<'a> {
    /// Pops a value and the indexes of the path, and puts the value where the path leads in the local.
    #[inline(always)]
    pub fn store(
        &mut self,
        alloc: Global,
        code: &Code,
        place: Place,
        n: u32,
        path: &Steps,
    ) -> Result<Onward, NoMemory>
        requires within { n < length self.old.calls.locals }
        requires some { indexes_in path.now + 1 ≤ length self.old.operands }
        ensures value { IfOk result (λ next.
            DoesAt place (λ place s. store code.now.ignore path.now (indexes_in path.now) place n s) self.old next self.new) }
    {
        match path.as_slice() {
            [] => self.store_whole(alloc, code, place, n),
            steps => self.store_apart(alloc, code, place, n, steps),
        }
    }

    // Pops a value and puts it into the local.
    #[inline(always)]
    fn store_whole(
        &mut self,
        alloc: Global,
        code: &Code,
        place: Place,
        n: u32,
    ) -> Result<Onward, NoMemory>
        requires within { n < length self.old.calls.locals }
        requires some { 0 < length self.old.operands }
        ensures value { IfOk result (λ next. DoesAt place (λ place s. store code.now.ignore [] 0 place n s) self.old next self.new) }
    {
        Ok(if_passed(self.store_cell(alloc, code, place, n)?, Onward::On))
    }

    // The same, out of line. An undefined value is a fault, and the answer false, but where lines are counted.
    #[inline(never)]
    fn store_cell(
        &mut self,
        alloc: Global,
        code: &Code,
        place: Place,
        n: u32,
    ) -> Result<bool, NoMemory>
        requires within { n < length self.old.calls.locals }
        requires some { 0 < length self.old.operands }
        ensures value { IfOk result (λ passed. DoesAt place (λ place s. store code.now.ignore [] 0 place n s) self.old (if_passed passed On) self.new) }
    {
        let new = self.operands.pop();
        if !new.is_defined() {
            return self.pass(alloc, code, place);
        }
        let cell = new.kept(alloc)?;
        self.calls.keep(n, cell);
        Ok(true)
    }

    // Pops a value and the indexes of the steps, and puts the value where they lead in the local, with the answer made anew.
    #[inline(always)]
    fn store_apart(
        &mut self,
        alloc: Global,
        code: &Code,
        place: Place,
        n: u32,
        path: &[Step],
    ) -> Result<Onward, NoMemory>
        requires within { n < length self.old.calls.locals }
        requires some { indexes_in path.now + 1 ≤ length self.old.operands }
        ensures value { IfOk result (λ next.
            DoesAt place (λ place s. store code.now.ignore path.now (indexes_in path.now) place n s) self.old next self.new) }
    {
        rebuilt(self.store_part(alloc, code, place, n, path))
    }

    // Pops a value and the indexes of the steps, and puts the value where they lead in the local.
    #[inline(never)]
    fn store_part(
        &mut self,
        alloc: Global,
        code: &Code,
        place: Place,
        n: u32,
        path: &[Step],
    ) -> Result<Onward, NoMemory>
        requires within { n < length self.old.calls.locals }
        requires some { indexes_in path.now + 1 ≤ length self.old.operands }
        ensures value { IfOk result (λ next.
            DoesAt place (λ place s. store code.now.ignore path.now (indexes_in path.now) place n s) self.old next self.new) }
    {
        let new = self.operands.pop();
        let indexes = self.operands.pop_values(alloc, indexes_in(path))?;
        let Some(indexes) = indexes else {
            return Ok(if_passed(self.pass(alloc, code, place)?, Onward::On));
        };
        let Some(new) = new.into_value(alloc)? else {
            return Ok(if_passed(self.pass(alloc, code, place)?, Onward::On));
        };
        self.calls.set_apart(alloc, n)?;
        self.store_at(alloc, n, path, &indexes, new)
    }

    // Puts the value where the steps with these indexes lead in the local.
    fn store_at(
        &mut self,
        alloc: Global,
        n: u32,
        steps: &[Step],
        indexes: &List,
        new: Value,
    ) -> Result<Onward, NoMemory>
        requires within { n < length self.old.calls.locals }
        ensures value { (counting : Option ℕ) → IfOk result (λ next.
            Does (stores_values counting steps.now indexes.now (seen new) n) self.old next self.new) }
    {
        let old = self.calls.take(n);
        match stored_in(alloc, steps, indexes.as_slice(), new, old)? {
            Some(cell) => {
                self.calls.keep(n, cell);
                Ok(Onward::On)
            }
            None => Ok(Onward::Fault(STORE_OUTSIDE)),
        }
    }
}
