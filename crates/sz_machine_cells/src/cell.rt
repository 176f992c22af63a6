//! Cells: what an operand or a local lies in. Nothing above knows their form.
ghost use Rattle.std.specs.Prelude.{◌≡◌, IfOk, IfSome, Some, None, option_map, is_some};
ghost use Rattle.sz_value.specs.Data.{truth, int};
ghost use Rattle.sz_value.specs.Seen.{seen, seen_slot};
ghost use Rattle.sz_builtin.specs.Views.{seen_view};
ghost use Rattle.sz_machine_cells.specs.Cells.{truth_of};

use crate::buffers::{all_of, part_bytes};
use crate::inside::{Inside, view_of_nth};
use std::alloc::Global;
use std::marker::Model;
use std::rc::Rc;
use sz_builtin::{Ascii, Kind, View};
use sz_value::{NoMemory, Slot, Value, copy};

/// An operand or a local, in 16 bytes. Numbers, times and truth values lie in it and take no memory. A value that owns memory
/// is shared by the cells that hold it, so a copy of a cell copies no value; or it stays with its owner, who outlives the cell. A part
/// of a value is told by its places in that value, so it is read where it stands. Bytes may lie in a buffer that cells share, each of
/// which has its part of it, so a part of them takes no memory; nor does it as a text, where all of its bytes are ASCII.
///
/// Contracts see the slot that it is: plain data, or none where it is undefined.
#[derive(Drop)]
pub struct Cell<'a> {
    pub(crate) form: Form<'a>,
}

/// What lies in a cell.
#[derive(Drop)]
pub enum Form<'a> {
    Undefined,
    Bool(bool),
    Int(i64),
    Time(i64),
    Shared(Rc<Value>),
    /// A value that another owns.
    Lent(&'a Value),
    /// The part at a place of a value that is shared. The place stands first, so that a cell has 16 bytes.
    Element(u32, Rc<Value>),
    /// A part further inside.
    Inside(Rc<Inside>),
    /// All bytes of a buffer.
    Buffer(Rc<Vec<u8>>),
    /// So many bytes of a buffer, after so many others. Their number stands first, so that a cell has 16 bytes.
    Part(u16, u32, Rc<Vec<u8>>),
    /// Such a part as a text. All of its bytes are ASCII.
    Text(u16, u32, Rc<Vec<u8>>),
}

impl<'a> Model for Cell<'a> {
    ghost use Rattle.std.specs.Prelude.{◌≡◌, Option, true};
    ghost use Rattle.std.specs.Coded.{coded_option};
    ghost use Rattle.sz_value.specs.Data.{Datum};
    ghost use Rattle.sz_value.specs.Code.{datum_code};

    ghost Value = { Option Datum };

    ghost coded = { coded_option datum_code };

    ghost use Rattle.sz_machine_cells.specs.Cells.{slot_of, has_ascii};

    ghost view = { λ cell. slot_of cell.form };

    ghost invariant = { λ cell. has_ascii cell.form ≡ true };
}

impl<'a> Cell<'a> {
    /// The undefined cell.
    #[inline(always)]
    pub fn undefined() -> Cell<'a>
        ensures value { result ≡ None }
    {
        Cell {
            form: Form::Undefined,
        }
    }

    /// The cell of a truth value.
    #[inline(always)]
    pub fn of_bool(value: bool) -> Cell<'a>
        ensures value { result ≡ Some (truth value) }
    {
        Cell {
            form: Form::Bool(value),
        }
    }

    /// The cell of a whole number.
    #[inline(always)]
    pub fn of_int(number: i64) -> Cell<'a>
        ensures value { result ≡ Some (int number) }
    {
        Cell {
            form: Form::Int(number),
        }
    }

    /// The cell of a slot.
    #[inline(always)]
    pub fn of_slot(alloc: Global, slot: Slot) -> Result<Cell<'a>, NoMemory>
        ensures value { IfOk result (λ made. made ≡ seen_slot slot) }
    {
        match slot {
            Slot::Defined(value) => Cell::of_value(alloc, value),
            Slot::Undefined => Ok(Cell::undefined()),
        }
    }

    /// The cell of a value.
    #[inline(always)]
    pub fn of_value(alloc: Global, value: Value) -> Result<Cell<'a>, NoMemory>
        ensures value { IfOk result (λ made. made ≡ Some (seen value)) }
    {
        match &value {
            Value::Bool(truth) => Ok(Cell::of_bool(*truth)),
            Value::Int(number) => Ok(Cell::of_int(*number)),
            Value::Time(number) => Ok(Cell {
                form: Form::Time(*number),
            }),
            _ => Cell::shared(alloc, value),
        }
    }

    // The cell that shares a value.
    #[inline(never)]
    fn shared(alloc: Global, value: Value) -> Result<Cell<'a>, NoMemory>
        ensures value { IfOk result (λ made. made ≡ Some (seen value)) }
    {
        Ok(Cell {
            form: Form::Shared(Rc::new(alloc, value)?),
        })
    }

    /// A cell of a copy of the value.
    #[inline(always)]
    pub fn of_copy(alloc: Global, value: &Value) -> Result<Cell<'a>, NoMemory>
        ensures value { IfOk result (λ made. made ≡ Some (seen value.now)) }
    {
        match value {
            Value::Bool(truth) => Ok(Cell::of_bool(*truth)),
            Value::Int(number) => Ok(Cell::of_int(*number)),
            Value::Time(number) => Ok(Cell {
                form: Form::Time(*number),
            }),
            owner => Cell::apart(alloc, owner),
        }
    }

    // The same, with the answer made anew: so what a caller has of it needs no place in memory that the function below writes to.
    #[inline(always)]
    fn apart(alloc: Global, value: &Value) -> Result<Cell<'a>, NoMemory>
        ensures value { IfOk result (λ made. made ≡ Some (seen value.now)) }
    {
        match Cell::shared_copy(alloc, value) {
            Ok(cell) => Ok(cell),
            Err(error) => Err(error),
        }
    }

    // The cell that shares a copy of the value.
    #[inline(never)]
    fn shared_copy(alloc: Global, value: &Value) -> Result<Cell<'a>, NoMemory>
        ensures value { IfOk result (λ made. made ≡ Some (seen value.now)) }
    {
        Cell::shared(alloc, copy(alloc, value)?)
    }

    /// A cell of a copy of the slot.
    #[inline(always)]
    pub fn of_slot_copy(alloc: Global, slot: &Slot) -> Result<Cell<'a>, NoMemory>
        ensures value { IfOk result (λ made. made ≡ seen_slot slot.now) }
    {
        match slot {
            Slot::Defined(value) => Cell::of_copy(alloc, value),
            Slot::Undefined => Ok(Cell::undefined()),
        }
    }

    /// A cell of the value, which stays where it is.
    #[inline(always)]
    pub fn lent(value: &'a Value) -> Cell<'a>
        ensures value { result ≡ Some (seen value.now) }
    {
        match scalar(value) {
            Some(cell) => cell,
            None => Cell {
                form: Form::Lent(value),
            },
        }
    }

    /// A cell of the slot, whose value stays where it is.
    #[inline(always)]
    pub fn lent_slot(slot: &'a Slot) -> Cell<'a>
        ensures value { result ≡ seen_slot slot.now }
    {
        match slot {
            Slot::Defined(value) => Cell::lent(value),
            Slot::Undefined => Cell::undefined(),
        }
    }

    /// Whether there is a value.
    #[inline(always)]
    pub fn is_defined(&self) -> bool
        ensures value { result ≡ is_some self.now }
    {
        match &self.form {
            Form::Undefined => false,
            Form::Element(_, _) | Form::Inside(_) => self.is_there(),
            _ => true,
        }
    }

    // The same, by a look.
    #[inline(never)]
    fn is_there(&self) -> bool
        ensures value { result ≡ is_some self.now }
    {
        match self.view() {
            Some(_) => true,
            None => false,
        }
    }

    /// The truth value, if it is one.
    #[inline(always)]
    pub fn truth(&self) -> Option<bool>
        ensures value { result ≡ truth_of self.now }
    {
        match &self.form {
            Form::Bool(value) => Some(*value),
            Form::Undefined
            | Form::Int(_)
            | Form::Time(_)
            | Form::Buffer(_)
            | Form::Part(_, _, _)
            | Form::Text(_, _, _) => None,
            _ => self.truth_by_look(),
        }
    }

    // The same, by a look.
    #[inline(never)]
    fn truth_by_look(&self) -> Option<bool>
        ensures value { result ≡ truth_of self.now }
    {
        match self.view() {
            Some(view) => truth_in(&view),
            None => None,
        }
    }

    /// The whole number, if it is one that lies in the cell.
    #[inline(always)]
    pub fn int(&self) -> Option<i64>
        ensures value { IfSome result (λ number. self.now ≡ Some (int number)) }
    {
        match &self.form {
            Form::Int(number) => Some(*number),
            _ => None,
        }
    }

    /// The truth value, if it is one that lies in the cell.
    #[inline(always)]
    pub fn bool(&self) -> Option<bool>
        ensures value { IfSome result (λ value. self.now ≡ Some (truth value)) }
    {
        match &self.form {
            Form::Bool(value) => Some(*value),
            _ => None,
        }
    }

    /// The value to look at where it stands, if there is one.
    #[inline(always)]
    pub fn view(&self) -> Option<View<'_>>
        ensures value { option_map (λ view. seen_view view) result ≡ self.now }
    {
        match &self.form {
            Form::Undefined => None,
            Form::Bool(value) => Some(View::Bool(*value)),
            Form::Int(number) => Some(View::Int(*number)),
            Form::Time(number) => Some(View::Time(*number)),
            Form::Shared(shared) => Some(View::Whole(shared.as_ref())),
            Form::Lent(value) => Some(View::Whole(value)),
            Form::Element(place, shared) => view_of_nth(shared.as_ref(), *place as usize),
            Form::Inside(inside) => inside.view(),
            Form::Buffer(buffer) => Some(View::Bytes(buffer.as_ref().as_slice())),
            Form::Part(count, before, buffer) => {
                Some(View::Bytes(part_bytes(*count, *before, buffer)))
            }
            Form::Text(count, before, buffer) => Some(View::Ascii(Ascii {
                octets: part_bytes(*count, *before, buffer),
            })),
        }
    }

    /// The value itself, if there is one. It is copied where another cell shares it, or another owns it.
    #[inline(always)]
    pub fn into_value(self, alloc: Global) -> Result<Option<Value>, NoMemory>
        ensures value { IfOk result (λ value. option_map seen value ≡ self.entry) }
    {
        match self.form {
            Form::Undefined => Ok(None),
            Form::Bool(value) => Ok(Some(Value::Bool(value))),
            Form::Int(number) => Ok(Some(Value::Int(number))),
            Form::Time(number) => Ok(Some(Value::Time(number))),
            Form::Shared(shared) => Ok(Some(unshared(alloc, shared)?)),
            form => Cell { form }.copied(alloc),
        }
    }

    // A copy of the value, if there is one.
    #[inline(never)]
    fn copied(&self, alloc: Global) -> Result<Option<Value>, NoMemory>
        ensures value { IfOk result (λ value. option_map seen value ≡ self.now) }
    {
        match self.view() {
            Some(view) => Ok(Some(view.owned(alloc)?)),
            None => Ok(None),
        }
    }

    /// The cell, to be kept in a local. It doesn't share a value of which it is a part, so that one can be changed in place.
    #[inline(always)]
    pub fn kept(self, alloc: Global) -> Result<Cell<'a>, NoMemory>
        ensures value { IfOk result (λ made. made ≡ self.entry) }
    {
        match &self.form {
            Form::Element(_, _) | Form::Inside(_) => self.taken_out(alloc),
            _ => Ok(self),
        }
    }

    // A cell of a copy of the value.
    #[inline(never)]
    fn taken_out(&self, alloc: Global) -> Result<Cell<'a>, NoMemory>
        ensures value { IfOk result (λ made. made ≡ self.now) }
    {
        match self.copied(alloc)? {
            Some(value) => Cell::of_value(alloc, value),
            None => Ok(Cell::undefined()),
        }
    }

    /// Forgets the cell, with what it owns. One that takes no memory is forgotten in line.
    #[inline(always)]
    pub(crate) fn forget(self) {
        match self.form {
            Form::Undefined | Form::Bool(_) | Form::Int(_) | Form::Time(_) => {}
            form => forget(Cell { form }),
        }
    }

    /// The slot itself. Its value is copied where another cell shares it.
    pub fn into_slot(self, alloc: Global) -> Result<Slot, NoMemory>
        ensures value { IfOk result (λ slot. seen_slot slot ≡ self.entry) }
    {
        match self.into_value(alloc)? {
            Some(value) => Ok(Slot::Defined(value)),
            None => Ok(Slot::Undefined),
        }
    }

    /// A copy of the cell, which shares what owns memory.
    #[inline(always)]
    pub fn copy(&self) -> Result<Cell<'a>, NoMemory>
        ensures value { IfOk result (λ made. made ≡ self.now) }
    {
        let form = match &self.form {
            Form::Undefined => Form::Undefined,
            Form::Bool(value) => Form::Bool(*value),
            Form::Int(number) => Form::Int(*number),
            Form::Time(number) => Form::Time(*number),
            Form::Shared(shared) => Form::Shared(shared.clone()?),
            Form::Lent(value) => Form::Lent(value),
            Form::Element(place, shared) => Form::Element(*place, shared.clone()?),
            Form::Inside(inside) => Form::Inside(inside.clone()?),
            Form::Buffer(buffer) => all_of(buffer.clone()?),
            Form::Part(count, before, buffer) => Form::Part(*count, *before, buffer.clone()?),
            Form::Text(count, before, buffer) => Form::Text(*count, *before, buffer.clone()?),
        };
        Ok(Cell { form })
    }
}

// The cell of a value that lies in it.
#[inline(always)]
pub(crate) fn scalar<'a>(value: &Value) -> Option<Cell<'a>>
    ensures value { IfSome result (λ made. made ≡ Some (seen value.now)) }
{
    match value {
        Value::Bool(truth) => Some(Cell::of_bool(*truth)),
        Value::Int(number) => Some(Cell::of_int(*number)),
        Value::Time(number) => Some(Cell {
            form: Form::Time(*number),
        }),
        _ => None,
    }
}

// Forgets the cell, out of line.
#[inline(never)]
fn forget(_cell: Cell<'_>) {}

// The truth value that a value is, if it is one.
fn truth_in(view: &View<'_>) -> Option<bool>
    ensures value { result ≡ truth_of (Some (seen_view view.now)) }
{
    match view.kind() {
        Kind::Bool(value) => Some(value),
        _ => None,
    }
}

// The value that is shared, or a copy of it where it has another owner.
#[inline(never)]
fn unshared(alloc: Global, shared: Rc<Value>) -> Result<Value, NoMemory>
    ensures value { IfOk result (λ value. seen value ≡ seen shared.value) }
{
    match Rc::try_unwrap(shared) {
        Ok(value) => Ok(value),
        Err(shared) => copy(alloc, shared.as_ref()),
    }
}
