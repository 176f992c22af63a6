//! The routine that runs, and those that wait.
ghost use Rattle.std.specs.Prelude.{◌≡◌, ◌<◌, ◌≤◌, [], ◌∷◌, length, drop, slice_get, slice_set, Some, None, IfOk, OnErr, OnOk};
ghost use Rattle.std.specs.Prelude.{◌++◌, ◌-◌, not};
ghost use Rattle.sz_value.specs.Data.{int};
ghost use Rattle.sz_world_rules.specs.Slots.{undefined_slots};
ghost use Rattle.sz_instr.specs.States.{popped};
ghost use Rattle.sz_machine_cells.specs.Calls.{is_used_up, after_next, caller};

use crate::candidates::Candidates;
use crate::cell::{Cell, Form};
use crate::operands::Operands;
use std::alloc::Global;
use std::marker::Model;
use std::mem;
use std::rc::Rc;
use sz_value::NoMemory;

/// A routine that waits: where its locals and its candidate lists begin, and the place where it goes on.
#[derive(Clone, Copy)]
pub struct Waiting {
    pub locals: usize,
    pub lists: usize,
    pub back: usize,
}

/// The locals and the candidate lists of all open calls, each in one list, those of the innermost call last.
///
/// Contracts see those of the routine that runs, the innermost candidate list first, and the routines that wait.
pub struct Calls<'a> {
    cells: Vec<Cell<'a>>,
    lists: Vec<Candidates<'a>>,
    waiting: Vec<Waiting>,
    locals_from: usize,
    lists_from: usize,
}

impl<'a> Drop for Calls<'a> {
    fn drop(self) {
        let Calls {
            cells: _,
            lists: _,
            waiting: _,
            locals_from: _,
            lists_from: _,
        } = self;
    }
}

impl<'a> Model for Calls<'a> {
    ghost use Rattle.sz_machine_cells.specs.Calls.{Open, open_code};

    ghost Value = { Open };

    ghost coded = { open_code };

    ghost use Rattle.sz_machine_cells.specs.Waiting.{open_calls, AreStacked};

    ghost view = { λ c. open_calls c.waiting.items c.cells.items c.lists.items c.locals_from c.lists_from };

    ghost invariant = { λ c. AreStacked c.waiting.items c.cells.items c.lists.items c.locals_from c.lists_from };
}

impl<'a> Calls<'a> {
    /// No call with no locals, which takes no memory.
    pub fn new(alloc: Global) -> Calls<'a>
        ensures value { result ≡ record { locals = []; lists = []; callers = [] } }
    {
        Calls {
            cells: Vec::new(alloc),
            lists: Vec::new(alloc),
            waiting: Vec::new(alloc),
            locals_from: 0,
            lists_from: 0,
        }
    }

    /// Drops all, and begins with so many undefined locals. The room is kept.
    pub fn begin(&mut self, locals: u32) -> Result<(), NoMemory>
        ensures value { OnOk result (self.new ≡ record { locals = undefined_slots locals; lists = []; callers = [] }) }
    {
        self.cells.clear();
        self.lists.clear();
        self.waiting.clear();
        self.locals_from = 0;
        self.lists_from = 0;
        fill(&mut self.cells, locals)
    }

    /// How many routines wait.
    pub fn open(&self) -> usize
        ensures value { result ≡ length self.now.callers }
    {
        self.waiting.len()
    }

    /// A local of the routine that runs.
    #[inline(always)]
    pub fn local(&self, n: u32) -> &Cell<'a>
        requires within { n < length self.now.locals }
        ensures value { slice_get self.now.locals n ≡ Some result.now }
    {
        &self.cells[self.locals_from + n as usize]
    }

    /// Puts the cell into a local of the routine that runs.
    #[inline(never)]
    pub fn keep(&mut self, n: u32, cell: Cell<'a>)
        requires within { n < length self.old.locals }
        ensures value { self.new ≡ record self.old { locals = slice_set self.old.locals n cell.entry } }
    {
        self.put(n, cell);
    }

    /// Puts the whole number into a local of the routine that runs.
    #[inline(always)]
    pub fn keep_int(&mut self, n: u32, number: i64)
        requires within { n < length self.old.locals }
        ensures value { self.new ≡ record self.old { locals = slice_set self.old.locals n (Some (int number)) } }
    {
        self.put(n, Cell::of_int(number));
    }

    // Puts the cell into a local.
    #[inline(always)]
    fn put(&mut self, n: u32, cell: Cell<'a>)
        requires within { n < length self.old.locals }
        ensures value { self.new ≡ record self.old { locals = slice_set self.old.locals n cell.entry } }
    {
        let before = mem::replace(&mut self.cells[self.locals_from + n as usize], cell);
        before.forget();
    }

    /// Takes what a local holds. It is undefined from then on.
    #[inline(always)]
    pub fn take(&mut self, n: u32) -> Cell<'a>
        requires within { n < length self.old.locals }
        ensures value { slice_get self.old.locals n ≡ Some result }
        ensures left { self.new ≡ record self.old { locals = slice_set self.old.locals n None } }
    {
        mem::replace(
            &mut self.cells[self.locals_from + n as usize],
            Cell::undefined(),
        )
    }

    /// Adds a candidate list.
    pub fn add_list(&mut self, list: Candidates<'a>) -> Result<(), NoMemory>
        ensures value { OnOk result (self.new ≡ record self.old { lists = list.entry ∷ self.old.lists }) }
        ensures err { OnErr result (self.new ≡ self.old) }
    {
        self.lists.push(list)?;
        Ok(())
    }

    /// Drops the innermost candidate list.
    pub fn drop_list(&mut self)
        requires some { 0 < length self.old.lists }
        ensures value { self.new ≡ record self.old { lists = drop 1 self.old.lists } }
    {
        let kept = self.lists.len() - 1;
        self.lists.truncate(kept);
    }

    /// Whether no candidate is left in the innermost candidate list.
    pub fn is_used_up(&self) -> bool
        requires some { 0 < length self.now.lists }
        ensures value { result ≡ is_used_up self.now.lists }
    {
        self.lists[self.lists.len() - 1].is_empty()
    }

    /// Takes the next candidate of the innermost list into a local, and answers true; or drops that list where none is left.
    pub fn next(&mut self, alloc: Global, n: u32) -> Result<bool, NoMemory>
        requires within { n < length self.old.locals }
        requires some { 0 < length self.old.lists }
        ensures value { OnOk result (self.new ≡ after_next n self.old) }
        ensures found { IfOk result (λ found. found ≡ not (is_used_up self.old.lists)) }
    {
        let last = self.lists.len() - 1;
        match self.lists[last].next(alloc)? {
            Some(value) => {
                let cell = Cell::of_value(alloc, value)?;
                self.keep(n, cell);
                Ok(true)
            }
            None => {
                self.lists.truncate(last);
                Ok(false)
            }
        }
    }

    /// Where another cell shares the value of a local, no candidate list of the routine that runs counts among its owners from then on: so the
    /// value can be changed in place, if only they did.
    #[inline(never)]
    pub fn set_apart(&mut self, alloc: Global, n: u32) -> Result<(), NoMemory>
        requires within { n < length self.old.locals }
        ensures value { self.new ≡ self.old }
    {
        let is_shared = match &self.local(n).form {
            Form::Shared(shared) => Rc::strong_count(shared) > 1,
            _ => false,
        };
        if is_shared {
            apart_from(alloc, &mut self.lists, self.lists_from)?;
        }
        Ok(())
    }

    /// Enters a routine with so many topmost operands as its first locals: the one that runs waits, and goes on at `back`.
    pub fn enter(
        &mut self,
        operands: &mut Operands<'a>,
        params: u32,
        locals: u32,
        back: usize,
    ) -> Result<(), NoMemory>
        requires within { params ≤ length operands.old }
        ensures operands { OnOk result (operands.new ≡ drop params operands.old) }
        ensures value { OnOk result (self.new ≡ record {
          locals = popped params operands.old ++ undefined_slots (locals - params);
          lists = [];
          callers = caller self.old back ∷ self.old.callers;
        }) }
    {
        self.waiting.push(Waiting {
            locals: self.locals_from,
            lists: self.lists_from,
            back,
        })?;
        self.locals_from = self.cells.len();
        self.lists_from = self.lists.len();
        operands.move_to(params as usize, &mut self.cells)?;
        fill(&mut self.cells, locals.saturating_sub(params))
    }

    /// Leaves the routine that runs: the one that waited goes on, at the place that is the answer.
    pub fn leave(&mut self) -> usize
        requires some { 0 < length self.old.callers }
        ensures value { self.old.callers ≡ caller self.new result ∷ self.new.callers }
    {
        match self.waiting.pop() {
            Some(waiting) => {
                self.cells.truncate(self.locals_from);
                self.lists.truncate(self.lists_from);
                self.locals_from = waiting.locals;
                self.lists_from = waiting.lists;
                waiting.back
            }
            None => unreachable!(),
        }
    }
}

// Appends so many undefined cells.
fn fill<'a>(cells: &mut Vec<Cell<'a>>, count: u32) -> Result<(), NoMemory>
    ensures value { OnOk result (cells.new.items ≡ cells.old.items ++ undefined_slots count) }
    ensures grows { length cells.old.items ≤ length cells.new.items }
{
    for _ in 0..count {
        cells.push(Cell::undefined())?;
    }
    Ok(())
}

// Sets the candidate lists from a place on apart.
fn apart_from<'a>(
    alloc: Global,
    lists: &mut Vec<Candidates<'a>>,
    from: usize,
) -> Result<(), NoMemory>
    ensures value { lists.new.items ≡ lists.old.items }
{
    for n in from..lists.len() {
        lists[n].set_apart(alloc)?;
    }
    Ok(())
}
