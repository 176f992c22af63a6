//! The lines of a table, those of many index lists in pieces, each made by a thread.
ghost use Rattle.std.specs.Prelude.{◌≡◌, ◌-◌, ◌*◌, ◌^◌, ◌<◌, ◌≤◌, ◌++◌, List, ℕ, Ok, map, min, take, drop, length, IfOk, OnOk};
ghost use Rattle.std.specs.List.{concat};
ghost use Rattle.std.specs.Fork.{slice_chunk};
ghost use Rattle.sz_types.specs.SeenTables.{seen_table};
ghost use Rattle.sz_print.specs.Tables.{table_lines};

use crate::row::push_rows;
use std::alloc::Global;
use std::thread;
use std::thread::Threads;
use sz_tabs::NoMemory;
use sz_total::RowsInOrder;
use sz_types::TableDecl;
use sz_value::Octets;

// A table of fewer index lists is no work for threads: to start one takes as long as to print hundreds of lines.
const FEWEST_FOR_THREADS: usize = 4096;

// Appends the lines of a table, which are made by so many threads where it has many index lists.
pub(crate) fn push_by<'t, 'a, R: Threads + Sync>(
    rt: &R,
    alloc: Global,
    table: &TableDecl,
    shown: &RowsInOrder<'t, 'a>,
    threads: u32,
    out: &mut Vec<u8>,
) -> Result<(), NoMemory>
    requires threads { 1 ≤ threads }
    ensures value { OnOk result (out.new.items ≡ out.old.items ++ table_lines (seen_table table.now) shown.now) }
{
    if threads == 1 || shown.len() < FEWEST_FOR_THREADS {
        return push_in_order(alloc, table, shown, out);
    }
    let size = shown.len().div_ceil(threads as usize);
    let pieces = all_pieces(rt, alloc, table, shown, size)?;
    push_pieces(pieces, out)
}

// Appends the lines of a table.
pub(crate) fn push_in_order<'t, 'a>(
    alloc: Global,
    table: &TableDecl,
    shown: &RowsInOrder<'t, 'a>,
    out: &mut Vec<u8>,
) -> Result<(), NoMemory>
    ensures value { OnOk result (out.new.items ≡ out.old.items ++ table_lines (seen_table table.now) shown.now) }
{
    push_places(alloc, table, shown, 0, shown.len(), out)
}

// Appends the lines of the index lists from one place to another, which isn't included. The rows under one at a time are made.
fn push_places<'t, 'a>(
    alloc: Global,
    table: &TableDecl,
    shown: &RowsInOrder<'t, 'a>,
    from: usize,
    to: usize,
    out: &mut Vec<u8>,
) -> Result<(), NoMemory>
    requires within { (from ≤ to) × (to ≤ length shown.now) }
    ensures value { OnOk result (out.new.items ≡ out.old.items ++ table_lines (seen_table table.now) (take (to - from) (drop from shown.now))) }
{
    for place in from..to {
        let list = shown.rows(alloc, place)?;
        push_rows(table, &list.indexes, &list.rows, out)?;
    }
    Ok(())
}

// The texts of all pieces of a table, in order. Each has so many index lists but the last, which may have fewer, and is made in a
// thread of its own, where one can be started.
fn all_pieces<'t, 'a, R: Threads + Sync>(
    rt: &R,
    alloc: Global,
    table: &TableDecl,
    shown: &RowsInOrder<'t, 'a>,
    size: usize,
) -> Result<Vec<Octets>, NoMemory>
    requires size { 0 < size }
    ensures value { IfOk result (λ pieces. concat pieces.items ≡ table_lines (seen_table table.now) shown.now) }
{
    let made = thread::map_indices(
        rt,
        alloc,
        shown.len().div_ceil(size),
        &|number: usize| -> Result<Octets, NoMemory>
            requires { number * size < length shown.now }
            ensures { IfOk result (λ piece. piece ≡ table_lines (seen_table table.entry.now) (slice_chunk shown.entry.now size number)) }
        { piece(alloc, table, shown, size, number) },
    )?;
    all_made(alloc, made)
}

// The text of the piece with this number, counted from 0.
fn piece<'t, 'a>(
    alloc: Global,
    table: &TableDecl,
    shown: &RowsInOrder<'t, 'a>,
    size: usize,
    number: usize,
) -> Result<Octets, NoMemory>
    requires within { number * size < length shown.now }
    ensures value { IfOk result (λ piece. piece ≡ table_lines (seen_table table.now) (slice_chunk shown.now size number)) }
{
    let all = shown.len();
    let from = number * size;
    let to = from + size.min(all - from);
    let mut text = Vec::new(alloc);
    push_places(alloc, table, shown, from, to, &mut text)?;
    Ok(Octets::from_vec(text))
}

// The pieces, if all of them were made.
fn all_made(alloc: Global, made: Vec<Result<Octets, NoMemory>>) -> Result<Vec<Octets>, NoMemory>
    ensures value { IfOk result (λ pieces. map Ok pieces.items ≡ made.items) }
{
    let mut pieces = Vec::with_capacity(alloc, made.len())?;
    for one in made {
        let piece = one?;
        pieces.push(piece)?;
    }
    Ok(pieces)
}

// Appends the pieces. Room is made for all of them at once, and each is let go as soon as it is appended.
fn push_pieces(pieces: Vec<Octets>, out: &mut Vec<u8>) -> Result<(), NoMemory>
    ensures value { OnOk result (out.new.items ≡ out.old.items ++ concat pieces.items) }
{
    out.reserve_exact(length_of_all(pieces.as_slice()))?;
    for piece in pieces {
        out.extend_from_slice(piece.as_slice())?;
    }
    Ok(())
}

// How many bytes the pieces have, or the highest number where they have more.
fn length_of_all(pieces: &[Octets]) -> usize
    ensures value { result ≡ min (length (concat pieces.now)) (2 ^ 64 - 1) }
{
    let mut bytes: usize = 0;
    for piece in pieces {
        bytes = bytes.saturating_add(piece.as_slice().len());
    }
    bytes
}
