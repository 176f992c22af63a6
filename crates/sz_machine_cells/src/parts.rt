//! Parts of the values of cells, read where they stand.
ghost use Rattle.std.specs.Prelude.{◌≡◌, IfOk, IfSome};
ghost use Rattle.std.specs.Option.{option_and_then};
ghost use Rattle.sz_value.specs.Seen.{seen};
ghost use Rattle.sz_builtin.specs.Views.{seen_view};
ghost use Rattle.sz_machine_cells.specs.Nested.{nth};
ghost use Rattle.sz_machine_cells.specs.Insides.{part_inside};

use crate::cell::{Cell, Form, scalar};
use crate::inside::{Inside, nth};
use std::alloc::Global;
use std::rc::Rc;
use sz_builtin::View;
use sz_value::{NoMemory, Value};

// The greatest place that lies in a cell.
const MOST_PLACE: usize = 4_294_967_295;

impl<'a> Cell<'a> {
    /// The part at a place: of an array, a tuple or a map, whose parts are its values. It is read where it stands.
    pub(crate) fn part(&self, alloc: Global, n: usize) -> Result<Cell<'a>, NoMemory>
        ensures value { IfOk result (λ made. made ≡ option_and_then (nth n) self.now) }
    {
        match self.scalar_part(n) {
            Some(cell) => Ok(cell),
            None => self.lasting_part(alloc, n),
        }
    }

    // The part at a place, if it lies in a cell.
    fn scalar_part(&self, n: usize) -> Option<Cell<'a>>
        ensures value { IfSome result (λ made. made ≡ option_and_then (nth n) self.now) }
    {
        match self.view() {
            Some(view) => scalar_in(&view, n),
            None => None,
        }
    }

    // The part at a place, told by its places in what it is a part of.
    fn lasting_part(&self, alloc: Global, n: usize) -> Result<Cell<'a>, NoMemory>
        ensures value { IfOk result (λ made. made ≡ option_and_then (nth n) self.now) }
    {
        match &self.form {
            Form::Lent(value) => Ok(lent_part(value, n)),
            Form::Shared(shared) => element(alloc, shared, n),
            Form::Element(first, shared) => {
                further(alloc, &Inside::at(alloc, shared, *first as usize)?, n)
            }
            Form::Inside(inside) => further(alloc, inside.as_ref(), n),
            _ => Ok(Cell::undefined()),
        }
    }
}

// The part of a value at a place, if it lies in a cell.
fn scalar_in<'a>(view: &View<'_>, n: usize) -> Option<Cell<'a>>
    ensures value { IfSome result (λ made. made ≡ nth n (seen_view view.now)) }
{
    match view {
        View::Whole(value) => scalar_at(value, n),
        _ => None,
    }
}

// The same of a value.
fn scalar_at<'a>(value: &Value, n: usize) -> Option<Cell<'a>>
    ensures value { IfSome result (λ made. made ≡ nth n (seen value.now)) }
{
    match nth(value, n) {
        Some(part) => scalar(part),
        None => None,
    }
}

// The part at a place of a value that another owns.
fn lent_part<'a>(value: &'a Value, n: usize) -> Cell<'a>
    ensures value { result ≡ nth n (seen value.now) }
{
    match nth(value, n) {
        Some(part) => Cell::lent(part),
        None => Cell::undefined(),
    }
}

// The part at a place of a value that is shared.
fn element<'a>(alloc: Global, shared: &Rc<Value>, n: usize) -> Result<Cell<'a>, NoMemory>
    ensures value { IfOk result (λ made. made ≡ nth n (seen shared.now.value)) }
{
    if n > MOST_PLACE {
        return cell_inside(alloc, Inside::at(alloc, shared, n)?);
    }
    Ok(Cell {
        form: Form::Element(n as u32, shared.clone()?),
    })
}

// The part at a place of such a part.
fn further<'a>(alloc: Global, part: &Inside, n: usize) -> Result<Cell<'a>, NoMemory>
    ensures value { IfOk result (λ made. made ≡ option_and_then (nth n) (part_inside part.now)) }
{
    cell_inside(alloc, part.further(alloc, n)?)
}

// The cell of a part.
fn cell_inside<'a>(alloc: Global, part: Inside) -> Result<Cell<'a>, NoMemory>
    ensures value { IfOk result (λ made. made ≡ part_inside part) }
{
    Ok(Cell {
        form: Form::Inside(Rc::new(alloc, part)?),
    })
}
