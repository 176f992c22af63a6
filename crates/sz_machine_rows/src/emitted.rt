//! The emits of a run, in room that is kept.
ghost use Rattle.std.specs.Prelude.{◌≡◌, ◌<◌, ◌≤◌, ◌++◌, ◌∷◌, [], None, length, take, OnOk, OnErr};
ghost use Rattle.sz_value.specs.Data.{int};
ghost use Rattle.sz_value.specs.Seen.{seen};

use std::alloc::Global;
use std::marker::Model;
use std::mem;
use sz_tabs::{Emit, Emits};
use sz_value::{List, NoMemory, Value};

/// The emits of a run so far. Those of runs before stand behind them or are spare. The next emit is written over one of them, and takes over the room
/// of its index list.
///
/// Contracts see the list of the run's own emits.
pub struct Emitted {
    emits: Vec<Emit>,
    count: usize,
    spare: Vec<Emit>,
}

impl Drop for Emitted {
    fn drop(self) {
        let Emitted {
            emits: _,
            count: _,
            spare: _,
        } = self;
    }
}

impl Model for Emitted {
    ghost use Rattle.std.specs.Prelude.{◌≤◌, List, length, take};
    ghost use Rattle.std.specs.Coded.{coded_list};
    ghost use Rattle.sz_tabs.specs.Data.{EmitDatum};
    ghost use Rattle.sz_tabs.specs.Code.{emit_code};

    ghost Value = { List EmitDatum };

    ghost coded = { coded_list emit_code };

    ghost view = { λ emitted. take emitted.count emitted.emits.items };

    ghost invariant = { λ emitted. emitted.count ≤ length emitted.emits.items };
}

// How many emits of runs before are kept, at each of the two places.
const MOST_KEPT: usize = 64;

impl Emitted {
    /// No emits, which takes no memory.
    pub fn new(alloc: Global) -> Emitted
        ensures value { result ≡ [] }
    {
        Emitted {
            emits: Vec::new(alloc),
            count: 0,
            spare: Vec::new(alloc),
        }
    }

    /// Forgets the emits. Some of them are kept, to serve again.
    pub fn clear(&mut self)
        ensures value { self.new ≡ [] }
    {
        self.count = 0;
        self.emits.truncate(MOST_KEPT);
    }

    /// Appends the emit. Where there is no memory it is dropped.
    pub fn push(&mut self, emit: Emit) -> Result<(), NoMemory>
        ensures ok { OnOk result (self.new ≡ self.old ++ emit ∷ []) }
        ensures err { OnErr result (self.new ≡ self.old) }
    {
        if self.count < self.emits.len() {
            self.emits[self.count] = emit;
        } else {
            self.emits.push(emit)?;
        }
        self.count += 1;
        Ok(())
    }

    /// Appends an emit with neither indexes nor a weight.
    #[inline(always)]
    pub fn push_alone(&mut self, alloc: Global, table: u32, value: Value) -> Result<(), NoMemory>
        ensures ok { OnOk result (self.new ≡ self.old ++ record { table = table; indexes = []; value = seen value; weight = None } ∷ []) }
        ensures err { OnErr result (self.new ≡ self.old) }
    {
        open(alloc, &mut self.emits, self.count, &mut self.spare)?;
        fill_alone(&mut self.emits[self.count], table, value);
        self.count += 1;
        Ok(())
    }

    /// Appends an emit of a whole number, with neither indexes nor a weight.
    #[inline(always)]
    pub fn push_number(&mut self, alloc: Global, table: u32, number: i64) -> Result<(), NoMemory>
        ensures ok { OnOk result (self.new ≡ self.old ++ record { table = table; indexes = []; value = int number; weight = None } ∷ []) }
        ensures err { OnErr result (self.new ≡ self.old) }
    {
        open(alloc, &mut self.emits, self.count, &mut self.spare)?;
        fill_with_number(&mut self.emits[self.count], table, number);
        self.count += 1;
        Ok(())
    }

    /// Appends an emit under one index, without a weight.
    #[inline(always)]
    pub fn push_under(
        &mut self,
        alloc: Global,
        table: u32,
        index: Value,
        value: Value,
    ) -> Result<(), NoMemory>
        ensures ok { OnOk result (self.new ≡ self.old ++ record { table = table; indexes = seen index ∷ []; value = seen value; weight = None } ∷ []) }
        ensures err { OnErr result (self.new ≡ self.old) }
    {
        open(alloc, &mut self.emits, self.count, &mut self.spare)?;
        fill_under(&mut self.emits[self.count], table, index, value)?;
        self.count += 1;
        Ok(())
    }

    /// Hands the emits over, and has none from then on. Those behind them are spare from then on.
    pub fn hand_over(&mut self, alloc: Global) -> Emits
        ensures value { result ≡ self.old }
    {
        put_aside(&mut self.emits, self.count, &mut self.spare);
        self.count = 0;
        Emits::from_vec(mem::replace(&mut self.emits, Vec::new(alloc)))
    }

    /// Takes over emits that have served, for their room and their index lists.
    pub fn take_back(&mut self, emits: Emits)
        ensures value { self.new ≡ [] }
    {
        self.count = 0;
        self.emits = emits.into_vec();
    }
}

// Sees to it that an emit stands behind the first so many.
#[inline(always)]
fn open(
    alloc: Global,
    emits: &mut Vec<Emit>,
    count: usize,
    spare: &mut Vec<Emit>,
) -> Result<(), NoMemory>
    requires within { count ≤ length emits.old.items }
    ensures room { OnOk result (count < length emits.new.items) }
    ensures kept { take count emits.new.items ≡ take count emits.old.items }
    ensures within { count ≤ length emits.new.items }
{
    if count < emits.len() {
        return Ok(());
    }
    append_one(alloc, emits, spare)
}

// Appends an emit that served before, or else a blank one.
#[inline(never)]
fn append_one(alloc: Global, emits: &mut Vec<Emit>, spare: &mut Vec<Emit>) -> Result<(), NoMemory>
    ensures more { OnOk result (length emits.old.items < length emits.new.items) }
    ensures kept { take (length emits.old.items) emits.new.items ≡ emits.old.items }
    ensures within { length emits.old.items ≤ length emits.new.items }
{
    let emit = match spare.pop() {
        Some(emit) => emit,
        None => blank(alloc),
    };
    emits.push(emit)?;
    Ok(())
}

// An emit that nobody made, without indexes.
fn blank(alloc: Global) -> Emit {
    Emit {
        table: 0,
        indexes: List::new(alloc),
        value: Value::Int(0),
        weight: None,
    }
}

// Makes it the emit of a value with neither indexes nor a weight.
#[inline(always)]
fn fill_alone(emit: &mut Emit, table: u32, value: Value)
    ensures value { emit.new ≡ record { table = table; indexes = []; value = seen value; weight = None } }
{
    emit.table = table;
    empty(&mut emit.indexes);
    emit.value = value;
    emit.weight = None;
}

// Makes it the emit of a whole number with neither indexes nor a weight.
#[inline(always)]
fn fill_with_number(emit: &mut Emit, table: u32, number: i64)
    ensures value { emit.new ≡ record { table = table; indexes = []; value = int number; weight = None } }
{
    emit.table = table;
    empty(&mut emit.indexes);
    put_number(&mut emit.value, number);
    emit.weight = None;
}

// Puts a whole number in the stead of a value: in place where that is one too, so that nothing is dropped.
#[inline(always)]
fn put_number(value: &mut Value, number: i64)
    ensures value { seen value.new ≡ int number }
{
    match value {
        Value::Int(old) => *old = number,
        other => *other = Value::Int(number),
    }
}

// Makes it the emit of a value under one index, without a weight.
#[inline(always)]
fn fill_under(emit: &mut Emit, table: u32, index: Value, value: Value) -> Result<(), NoMemory>
    ensures ok { OnOk result (emit.new ≡ record { table = table; indexes = seen index ∷ []; value = seen value; weight = None }) }
{
    emit.table = table;
    empty(&mut emit.indexes);
    emit.indexes.push(index)?;
    emit.value = value;
    emit.weight = None;
    Ok(())
}

// Drops the values of a list, whose room is kept.
#[inline(always)]
fn empty(list: &mut List)
    ensures value { list.new ≡ [] }
{
    while !list.is_empty() {
        let _ = list.pop();
    }
}

// Moves all emits but the first so many to the spare ones, of which no more are kept than a few.
fn put_aside(emits: &mut Vec<Emit>, count: usize, spare: &mut Vec<Emit>)
    requires within { count ≤ length emits.old.items }
    ensures value { emits.new.items ≡ take count emits.old.items }
{
    if emits.len() == count {
        return;
    }
    while emits.len() > count && spare.len() < MOST_KEPT {
        let Some(emit) = emits.pop() else {
            break;
        };
        let _ = spare.push(emit);
    }
    emits.truncate(count);
}
