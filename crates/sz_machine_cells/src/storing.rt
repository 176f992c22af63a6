//! Values with a change where a path leads in them.
ghost use Rattle.std.specs.Prelude.{◌≡◌, ◌≤◌, length, map, option_map, IfOk, Some};
ghost use Rattle.sz_value.specs.Data.{Datum, data_of, entries_of, array, mapping};
ghost use Rattle.sz_value.specs.Maps.{value_at, with_pair};
ghost use Rattle.sz_value.specs.Seen.{seen};
ghost use Rattle.sz_world_rules.specs.Stores.{to_element, to_part, with_change};
ghost use Rattle.sz_instr.specs.Rows.{indexes_in};
ghost use Rattle.sz_machine_cells.specs.Storing.{replaced_by, part_replaced, pair_replaced, defined, told};

use crate::cell::{Cell, Form};
use std::alloc::Global;
use std::mem;
use std::rc::Rc;
use sz_instr::Step;
use sz_value::{List, NoMemory, Pairs, Value, copy};

/// How many indexes the steps take.
pub fn indexes_in(steps: &[Step]) -> usize
    ensures value { result ≡ indexes_in steps.now }
    ensures within { result ≤ length steps.now }
{
    match steps {
        [] => 0,
        [Step::Index, rest @ ..] => indexes_in(rest) + 1,
        [Step::Field(_), rest @ ..] => indexes_in(rest),
    }
}

/// The old value with the new one where the steps lead, if they lead somewhere. What they lead into is changed in place.
#[cycle(replaced)]
fn replaced(
    alloc: Global,
    steps: &[Step],
    indexes: &[Value],
    new: Value,
    old: Option<Value>,
) -> Result<Option<Value>, NoMemory>
    ensures value { IfOk result (λ made.
        option_map seen made ≡ replaced_by steps.now (map seen indexes.now) (seen new) (option_map seen old)) }
{
    match steps {
        [] => Ok(Some(new)),
        [Step::Field(n), rest @ ..] => match old {
            Some(old) => in_tuple(alloc, old, *n as usize, rest, indexes, new),
            None => Ok(None),
        },
        [Step::Index, rest @ ..] => match indexes {
            [] => Ok(Some(new)),
            [key, others @ ..] => match old {
                Some(old) => at_key(alloc, old, key, rest, others, new),
                None => Ok(None),
            },
        },
    }
}

// A tuple or a message with the new value where the steps lead from its part at a place, if they lead somewhere.
#[cycle(replaced)]
#[tactic(auto, using(sz_builtin::proofs::Parts::parts_back))]
fn in_tuple(
    alloc: Global,
    mut old: Value,
    n: usize,
    steps: &[Step],
    indexes: &[Value],
    new: Value,
) -> Result<Option<Value>, NoMemory>
    ensures value { IfOk result (λ made. option_map seen made
        ≡ with_change (to_part n) (seen old) (replaced_by steps.now (map seen indexes.now) (seen new))) }
{
    let Value::Tuple(parts) = &mut old else {
        return Ok(None);
    };
    let parts = mem::replace(parts, List::new(alloc));
    match part_replaced(alloc, parts, n, steps, indexes, new)? {
        Some(parts) => Ok(Some(Value::Tuple(parts))),
        None => Ok(None),
    }
}

// An array or a map with the new value where the steps lead from its element at a key, if they lead somewhere.
#[cycle(replaced)]
fn at_key(
    alloc: Global,
    mut old: Value,
    key: &Value,
    steps: &[Step],
    indexes: &[Value],
    new: Value,
) -> Result<Option<Value>, NoMemory>
    ensures value { IfOk result (λ made. option_map seen made
        ≡ with_change (to_element (seen key.now)) (seen old) (replaced_by steps.now (map seen indexes.now) (seen new))) }
{
    match &mut old {
        Value::Array(parts) => {
            let parts = mem::replace(parts, List::new(alloc));
            in_array(alloc, parts, key, steps, indexes, new)
        }
        Value::Map(pairs) => {
            let pairs = mem::replace(pairs, Pairs::new(alloc));
            in_map(alloc, pairs, key, steps, indexes, new)
        }
        _ => Ok(None),
    }
}

// An array with the new value where the steps lead from its element at an index, if they lead somewhere.
#[cycle(replaced)]
#[tactic(auto, using(sz_builtin::proofs::Parts::parts_back))]
fn in_array(
    alloc: Global,
    parts: List,
    key: &Value,
    steps: &[Step],
    indexes: &[Value],
    new: Value,
) -> Result<Option<Value>, NoMemory>
    ensures value { IfOk result (λ made. option_map seen made
        ≡ with_change (to_element (seen key.now)) (array (data_of parts)) (replaced_by steps.now (map seen indexes.now) (seen new))) }
{
    let Value::Int(n) = key else {
        return Ok(None);
    };
    if *n < 0 {
        return Ok(None);
    }
    match part_replaced(alloc, parts, *n as usize, steps, indexes, new)? {
        Some(parts) => Ok(Some(Value::Array(parts))),
        None => Ok(None),
    }
}

// A map with the new value where the steps lead from the value at a key, if they lead somewhere.
#[cycle(replaced)]
#[tactic(auto, using(crate::proofs::StoreLemmas::map_changes))]
fn in_map(
    alloc: Global,
    pairs: Pairs,
    key: &Value,
    steps: &[Step],
    indexes: &[Value],
    new: Value,
) -> Result<Option<Value>, NoMemory>
    ensures value { IfOk result (λ made. option_map seen made
        ≡ with_change (to_element (seen key.now)) (mapping (entries_of pairs)) (replaced_by steps.now (map seen indexes.now) (seen new))) }
{
    match pair_replaced(alloc, pairs, key, steps, indexes, new)? {
        Some(pairs) => Ok(Some(Value::Map(pairs))),
        None => Ok(None),
    }
}

// The parts with the new value where the steps lead from that at a place, if they lead somewhere.
#[cycle(replaced)]
#[tactic(auto, using(crate::proofs::StoreLemmas::part_there, crate::proofs::StoreLemmas::no_part, crate::proofs::StoreLemmas::no_change))]
fn part_replaced(
    alloc: Global,
    mut parts: List,
    n: usize,
    steps: &[Step],
    indexes: &[Value],
    new: Value,
) -> Result<Option<List>, NoMemory>
    ensures value { IfOk result (λ made. made ≡ part_replaced parts n steps.now (map seen indexes.now) (seen new)) }
{
    if n >= parts.len() {
        return Ok(None);
    }
    let old = parts.replace(n, Value::Bool(false));
    match replaced(alloc, steps, indexes, new, Some(old))? {
        Some(value) => {
            parts.replace(n, value);
            Ok(Some(parts))
        }
        None => Ok(None),
    }
}

// The pairs with the new value where the steps lead from that at a key, if they lead somewhere.
#[cycle(replaced)]
fn pair_replaced(
    alloc: Global,
    mut pairs: Pairs,
    key: &Value,
    steps: &[Step],
    indexes: &[Value],
    new: Value,
) -> Result<Option<Pairs>, NoMemory>
    ensures value { IfOk result (λ made. made ≡ pair_replaced pairs (seen key.now) steps.now (map seen indexes.now) (seen new)) }
{
    let old = taken(&mut pairs, key);
    match replaced(alloc, steps, indexes, new, old)? {
        Some(value) => {
            pairs.insert(copy(alloc, key)?, value)?;
            Ok(Some(pairs))
        }
        None => Ok(None),
    }
}

// Takes the value at a key, if there is one; another stands there until the next is put in.
#[tactic(auto, using(crate::proofs::StoreLemmas::last_stands))]
fn taken(pairs: &mut Pairs, key: &Value) -> Option<Value>
    ensures value { option_map seen result ≡ value_at (seen key.now) pairs.old }
    ensures stands { (d : Datum) → with_pair (seen key.now) d pairs.new ≡ with_pair (seen key.now) d pairs.old }
{
    match pairs.replace(key, Value::Bool(false)) {
        Ok(old) => Some(old),
        Err(_) => None,
    }
}

/// The cell of the old one with the new value where the steps lead, if they lead somewhere. A value that the old one has alone is changed in
/// place; one that another cell shares, or that belongs to the code or the statics, is copied first.
pub fn stored_in<'a>(
    alloc: Global,
    steps: &[Step],
    indexes: &[Value],
    new: Value,
    old: Cell<'a>,
) -> Result<Option<Cell<'a>>, NoMemory>
    ensures value { IfOk result (λ made.
        option_map defined (replaced_by steps.now (map seen indexes.now) (seen new) old.entry) ≡ made) }
{
    match old.form {
        Form::Shared(mut shared) => match Rc::get_mut(&mut shared) {
            Some(place) => {
                if changed(alloc, steps, indexes, new, place)? {
                    Ok(Some(Cell {
                        form: Form::Shared(shared),
                    }))
                } else {
                    Ok(None)
                }
            }
            None => {
                let old = copy(alloc, shared.as_ref())?;
                made_anew(alloc, steps, indexes, new, Some(old))
            }
        },
        form => {
            let old = Cell { form }.into_value(alloc)?;
            made_anew(alloc, steps, indexes, new, old)
        }
    }
}

// The cell of the old value with the new one where the steps lead, if they lead somewhere.
fn made_anew<'a>(
    alloc: Global,
    steps: &[Step],
    indexes: &[Value],
    new: Value,
    old: Option<Value>,
) -> Result<Option<Cell<'a>>, NoMemory>
    ensures value { IfOk result (λ made.
        option_map defined (replaced_by steps.now (map seen indexes.now) (seen new) (option_map seen old)) ≡ made) }
{
    match replaced(alloc, steps, indexes, new, old)? {
        Some(value) => Ok(Some(Cell::of_value(alloc, value)?)),
        None => Ok(None),
    }
}

// Puts the new value where the steps lead in a value, and answers whether they lead somewhere. If not, what the value is then isn't told.
fn changed(
    alloc: Global,
    steps: &[Step],
    indexes: &[Value],
    new: Value,
    place: &mut Value,
) -> Result<bool, NoMemory>
    ensures value { IfOk result (λ done.
        told done (seen place.new) ≡ replaced_by steps.now (map seen indexes.now) (seen new) (Some (seen place.old))) }
{
    let old = mem::replace(place, Value::Bool(false));
    match replaced(alloc, steps, indexes, new, Some(old))? {
        Some(value) => {
            *place = value;
            Ok(true)
        }
        None => Ok(false),
    }
}
