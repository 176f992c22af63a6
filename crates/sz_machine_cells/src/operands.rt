//! The operands of a run.
ghost use Rattle.std.specs.Prelude.{◌≡◌, ◌≤◌, ◌<◌, ◌+◌, IfNone, [], ◌∷◌, length, map, take, drop, ◌++◌, List as ListOf, ℕ, is_some, true, false, IfOk, IfSome, OnOk, OnErr, Some};
ghost use Rattle.std.specs.List.{list_all};
ghost use Rattle.std.specs.Str.{is_utf8};
ghost use Rattle.sz_value.specs.Data.{bytes, int, str};
ghost use Rattle.sz_value.specs.Seen.{seen};
ghost use Rattle.sz_world_rules.specs.Slots.{all_defined};
ghost use Rattle.sz_instr.specs.States.{popped};
ghost use Rattle.sz_world_rules.specs.Emits.{weight_if_all};
ghost use Rattle.sz_world_rules.specs.Operations.{map_of};
ghost use Rattle.sz_world_rules.specs.Ticks.{result_weight};
ghost use Rattle.sz_machine_cells.specs.Results.{defined_of, slots_weight, composite_weight, IsCut};

use crate::cell::Cell;
use crate::maps::map_within;
use crate::weights::result_weight;
use std::alloc::Global;
use std::marker::Model;
use std::mem;
use sz_value::{List, NoMemory, Value};

/// The operands of a run, in room that is kept.
///
/// Contracts see the list of their slots, the topmost first.
pub struct Operands<'a> {
    cells: Vec<Cell<'a>>,
}

impl<'a> Drop for Operands<'a> {
    fn drop(self) {
        let Operands { cells: _ } = self;
    }
}

impl<'a> Model for Operands<'a> {
    ghost use Rattle.std.specs.Prelude.{List, Option, reverse};
    ghost use Rattle.sz_value.specs.Data.{Datum};
    ghost use Rattle.sz_value.specs.Code.{slots_code};

    ghost Value = { List (Option Datum) };

    ghost coded = { slots_code };

    ghost view = { λ operands. reverse operands.cells.items };
}

impl<'a> Operands<'a> {
    /// No operands, which takes no memory.
    pub fn new(alloc: Global) -> Operands<'a>
        ensures value { result ≡ [] }
    {
        Operands {
            cells: Vec::new(alloc),
        }
    }

    /// Drops all operands. Their room is kept.
    pub fn clear(&mut self)
        ensures value { self.new ≡ [] }
    {
        self.cells.clear();
    }

    /// How many operands there are.
    #[inline(always)]
    pub fn len(&self) -> usize
        ensures value { result ≡ length self.now }
    {
        self.cells.len()
    }

    /// Puts the cell on top.
    #[inline(always)]
    pub fn push(&mut self, cell: Cell<'a>) -> Result<(), NoMemory>
        ensures ok { OnOk result (self.new ≡ cell.entry ∷ self.old) }
        ensures err { OnErr result (self.new ≡ self.old) }
    {
        self.cells.push(cell)?;
        Ok(())
    }

    /// Takes the topmost operand off.
    #[inline(always)]
    pub fn pop(&mut self) -> Cell<'a>
        requires some { 0 < length self.old }
        ensures value { self.old ≡ result ∷ self.new }
    {
        match self.cells.pop() {
            Some(cell) => cell,
            None => unreachable!(),
        }
    }

    /// The topmost operand.
    #[inline(always)]
    pub fn top(&self) -> &Cell<'a>
        requires some { 0 < length self.now }
        ensures value { self.now ≡ result.now ∷ drop 1 self.now }
    {
        &self.cells[self.cells.len() - 1]
    }

    /// Puts the whole number on top, if there is memory.
    #[inline(always)]
    pub fn push_int(&mut self, number: i64) -> bool
        ensures pushed { result ≡ true → self.new ≡ Some (int number) ∷ self.old }
        ensures left { result ≡ false → self.new ≡ self.old }
    {
        self.push(Cell::of_int(number)).is_ok()
    }

    /// Puts a copy of the cell on top, which shares what owns memory.
    #[inline(never)]
    pub fn push_copy(&mut self, cell: &Cell<'a>) -> Result<(), NoMemory>
        ensures ok { OnOk result (self.new ≡ cell.now ∷ self.old) }
        ensures err { OnErr result (self.new ≡ self.old) }
    {
        // the room is there before the copy is made, so no copy is ever given up
        self.cells.reserve(1)?;
        let copy = cell.copy()?;
        self.cells.push_reserved(copy);
        Ok(())
    }

    /// Puts the value on top, which stays where it is.
    #[inline(never)]
    pub fn push_lent(&mut self, value: &'a Value) -> Result<(), NoMemory>
        ensures ok { OnOk result (self.new ≡ Some (seen value.now) ∷ self.old) }
        ensures err { OnErr result (self.new ≡ self.old) }
    {
        self.push(Cell::lent(value))
    }

    /// The two topmost operands, the upper one last, if both are whole numbers that lie in their cells.
    #[inline(always)]
    pub fn top_ints(&self) -> Option<(i64, i64)>
        requires some { 1 < length self.now }
        ensures value { IfSome result (λ two. self.now ≡ Some (int two.1) ∷ Some (int two.0) ∷ drop 2 self.now) }
    {
        let count = self.cells.len();
        match (self.cells[count - 2].int(), self.cells[count - 1].int()) {
            (Some(a), Some(b)) => Some((a, b)),
            _ => None,
        }
    }

    /// The topmost operand, if it is bytes that lie in a buffer, or in a value that stays with its owner.
    #[inline(always)]
    pub fn top_octets(&self) -> Option<&[u8]>
        requires some { 0 < length self.now }
        ensures value { IfSome result (λ octets. self.now ≡ Some (bytes octets.now) ∷ drop 1 self.now) }
    {
        self.cells[self.cells.len() - 1].octets()
    }

    /// The text that the topmost operand is, if it is bytes in a buffer all of which are ASCII: it lies where they do.
    pub fn top_text(&self) -> Option<Cell<'a>>
        requires some { 0 < length self.now }
        ensures value { IfSome result (λ made. (octets : ListOf ℕ)
            → self.now ≡ Some (bytes octets) ∷ drop 1 self.now → made ≡ Some (str octets)) }
        ensures utf8 { IfSome result (λ made. (octets : ListOf ℕ)
            → self.now ≡ Some (bytes octets) ∷ drop 1 self.now → is_utf8 octets ≡ true) }
    {
        self.top().text_in()
    }

    /// The two topmost operands, the upper one last, if both are such bytes.
    #[inline(always)]
    pub fn top_two_octets(&self) -> Option<(&[u8], &[u8])>
        requires some { 1 < length self.now }
        ensures value { IfSome result (λ two. self.now ≡ Some (bytes two.1.now) ∷ Some (bytes two.0.now) ∷ drop 2 self.now) }
    {
        let count = self.cells.len();
        match (
            self.cells[count - 2].octets(),
            self.cells[count - 1].octets(),
        ) {
            (Some(a), Some(b)) => Some((a, b)),
            _ => None,
        }
    }

    /// The two topmost operands are these whole numbers. Where below them is a part of a buffer, whose own part between the two places is
    /// defined and weighs no more than `most`, that one stands for all three from then on, and the answer is its weight. Else nothing is done.
    #[inline(always)]
    pub fn cut_below(&mut self, from: i64, to: i64, most: u64) -> Option<u64>
        requires some { 2 < length self.old }
        requires ints { self.old ≡ Some (int to) ∷ Some (int from) ∷ drop 2 self.old }
        ensures made { IfSome result (λ weight. IsCut from to weight self.old self.new) }
        ensures most { IfSome result (λ weight. weight ≤ most) }
        ensures left { IfNone result (self.new ≡ self.old) }
    {
        let place = self.cells.len() - 3;
        let weight = self.cells[place].cut(from, to, most)?;
        self.drop_one();
        self.drop_one();
        Some(weight)
    }

    /// Puts the cell in the stead of the topmost operand.
    #[inline(always)]
    pub fn put_on_top(&mut self, cell: Cell<'a>)
        requires some { 0 < length self.old }
        ensures value { self.new ≡ cell.entry ∷ drop 1 self.old }
    {
        let last = self.cells.len() - 1;
        let before = mem::replace(&mut self.cells[last], cell);
        before.forget();
    }

    /// Takes the topmost operand off and forgets it.
    #[inline(always)]
    pub fn drop_one(&mut self)
        requires some { 0 < length self.old }
        ensures value { self.new ≡ drop 1 self.old }
    {
        self.pop().forget();
    }

    /// Takes the topmost operand off, if it is a whole number that lies in its cell.
    #[inline(always)]
    pub fn pop_int(&mut self) -> Option<i64>
        requires some { 0 < length self.old }
        ensures some { IfSome result (λ number. self.old ≡ Some (int number) ∷ self.new) }
        ensures none { IfNone result (self.new ≡ self.old) }
    {
        let number = self.top().int()?;
        self.drop_one();
        Some(number)
    }

    /// Takes so many topmost operands off.
    pub fn drop_top(&mut self, count: usize)
        requires within { count ≤ length self.old }
        ensures value { self.new ≡ drop count self.old }
    {
        let kept = self.cells.len() - count;
        self.cells.truncate(kept);
    }

    /// Whether so many topmost operands are all defined.
    pub fn are_defined(&self, count: usize) -> bool
        requires within { count ≤ length self.now }
        ensures value { result ≡ is_some (all_defined (popped count self.now)) }
    {
        let from = self.cells.len() - count;
        all_defined(&self.cells[from..])
    }

    /// What so many topmost operands weigh together, if that is no more than `most`. Where one of them is undefined they weigh nothing.
    /// They are weighed where they are, and no further than `most`.
    pub fn parts_weight(&self, count: usize, most: u64) -> Option<u64>
        requires within { count ≤ length self.now }
        ensures some { IfSome result (λ weight. (weight ≡ weight_if_all (all_defined (popped count self.now))) × (weight ≤ most)) }
        ensures none { IfNone result (most < weight_if_all (all_defined (popped count self.now))) }
    {
        let from = self.cells.len() - count;
        parts_weight(&self.cells[from..], most)
    }

    /// What an array or a tuple of so many topmost operands weighs, if that is no more than `most`, in the same way.
    pub fn composite_weight(&self, count: usize, most: u64) -> Option<u64>
        requires within { count ≤ length self.now }
        ensures some { IfSome result (λ weight. (weight ≡ composite_weight (all_defined (popped count self.now))) × (weight ≤ most)) }
        ensures none { IfNone result (most < composite_weight (all_defined (popped count self.now))) }
    {
        let from = self.cells.len() - count;
        composite_weight(&self.cells[from..], most)
    }

    /// The map of so many topmost operands, in which each value stands above its key, if it weighs no more than `most`. Where one of them is
    /// undefined, so is the map, and weighs nothing. They stay where they
    /// are, and are weighed there: nothing is copied of a map that weighs more, and of another one what is in it, which of equal keys is
    /// the last one with its value.
    pub fn map_within(
        &self,
        alloc: Global,
        count: usize,
        most: u64,
    ) -> Result<Option<Cell<'a>>, NoMemory>
        requires within { count ≤ length self.now }
        ensures some { IfOk result (λ made. IfSome made (λ cell.
            (cell ≡ map_of (popped count self.now)) × (result_weight (map_of (popped count self.now)) ≤ most))) }
        ensures none { IfOk result (λ made. IfNone made (most < result_weight (map_of (popped count self.now)))) }
    {
        let from = self.cells.len() - count;
        map_within(alloc, &self.cells[from..], most)
    }

    /// Moves so many topmost operands to the end of the cells, the upmost one last.
    pub fn move_to(&mut self, count: usize, cells: &mut Vec<Cell<'a>>) -> Result<(), NoMemory>
        requires within { count ≤ length self.old }
        ensures rest { OnOk result (self.new ≡ drop count self.old) }
        ensures moved { OnOk result (cells.new.items ≡ cells.old.items ++ popped count self.old) }
        ensures grows { length cells.old.items ≤ length cells.new.items }
    {
        let from = self.cells.len() - count;
        move_rest(&mut self.cells, from, cells)?;
        Ok(())
    }

    /// Takes so many topmost operands off, and gives their values, the upmost one last, if all of them are defined.
    #[tactic(auto, using(crate::proofs::ListLemmas::all_popped, crate::proofs::ListLemmas::not_all_popped))]
    pub fn pop_values(&mut self, alloc: Global, count: usize) -> Result<Option<List>, NoMemory>
        requires within { count ≤ length self.old }
        ensures value { IfOk result (λ values. values ≡ all_defined (popped count self.old)) }
        ensures rest { OnOk result (self.new ≡ drop count self.old) }
    {
        if count == 0 {
            return Ok(Some(List::new(alloc)));
        }
        if !self.are_defined(count) {
            self.drop_top(count);
            return Ok(None);
        }
        let mut values = self.taken_off(alloc, count)?;
        values.reverse();
        Ok(Some(List::from_vec(values)))
    }

    // Takes so many topmost operands off, and gives the values of those that are defined, the upmost one first.
    fn taken_off(&mut self, alloc: Global, count: usize) -> Result<Vec<Value>, NoMemory>
        requires within { count ≤ length self.old }
        ensures value { IfOk result (λ values. map seen values.items ≡ defined_of (take count self.old)) }
        ensures rest { OnOk result (self.new ≡ drop count self.old) }
    {
        let mut values = Vec::with_capacity(alloc, count)?;
        for _ in 0..count {
            let cell = self.pop();
            let Some(value) = cell.into_value(alloc)? else {
                continue;
            };
            values.push(value)?;
        }
        Ok(values)
    }
}

// Moves the cells from a place on to the end of others.
fn move_rest<'a>(
    cells: &mut Vec<Cell<'a>>,
    from: usize,
    to: &mut Vec<Cell<'a>>,
) -> Result<(), NoMemory>
    requires within { from ≤ length cells.old.items }
    ensures rest { OnOk result (cells.new.items ≡ take from cells.old.items) }
    ensures moved { OnOk result (to.new.items ≡ to.old.items ++ drop from cells.old.items) }
    ensures grows { length to.old.items ≤ length to.new.items }
{
    let count = cells.len() - from;
    for i in 0..count {
        to.push(mem::replace(&mut cells[from + i], Cell::undefined()))?;
    }
    cells.truncate(from);
    Ok(())
}

/// Whether the cells are all defined.
pub(crate) fn all_defined(cells: &[Cell<'_>]) -> bool
    ensures value { result ≡ list_all is_some cells.now }
{
    cells.iter().all(|cell| cell.is_defined())
}

// What the cells weigh together, if that is no more than `most`.
#[tactic(auto, using(crate::proofs::PartLemmas::all_weigh, crate::proofs::ListLemmas::are_not_all))]
fn parts_weight(cells: &[Cell<'_>], most: u64) -> Option<u64>
    ensures some { IfSome result (λ weight. (weight ≡ weight_if_all (all_defined cells.now)) × (weight ≤ most)) }
    ensures none { IfNone result (most < weight_if_all (all_defined cells.now)) }
{
    if all_defined(cells) {
        sum_within(cells, 0, most)
    } else {
        Some(0)
    }
}

// What an array or a tuple of the cells weighs, if that is no more than `most`. A weight stays at 2^64 - 1.
fn composite_weight(cells: &[Cell<'_>], most: u64) -> Option<u64>
    ensures some { IfSome result (λ weight. (weight ≡ composite_weight (all_defined cells.now)) × (weight ≤ most)) }
    ensures none { IfNone result (most < composite_weight (all_defined cells.now)) }
{
    if !all_defined(cells) {
        return Some(0);
    }
    match sum_within(cells, 1, most) {
        Some(weight) => Some(weight),
        None if most == u64::MAX => Some(most),
        None => None,
    }
}

// A number and what the cells weigh, if that is no more than `most`. Nothing is weighed once it is more.
fn sum_within(cells: &[Cell<'_>], first: u64, most: u64) -> Option<u64>
    ensures some { IfSome result (λ sum. (sum ≡ first + slots_weight cells.now) × (sum ≤ most)) }
    ensures none { IfNone result (most < first + slots_weight cells.now) }
{
    let mut sum = first;
    for cell in cells {
        if sum > most {
            return None;
        }
        sum = sum.checked_add(result_weight(cell))?;
    }
    if sum > most { None } else { Some(sum) }
}
