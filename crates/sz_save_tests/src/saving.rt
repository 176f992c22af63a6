//! What is saved of totals.
ghost use Rattle.std.specs.Prelude.{◌≡◌, ◌+◌, ◌<◌, ◌^◌, ◌∷◌, [], option_map, length, IfOk, OnOk};
ghost use Rattle.sz_types.specs.Data.{Shape};
ghost use Rattle.sz_types.specs.Seen.{seen};
ghost use Rattle.sz_types.specs.SeenTables.{seen_table};
ghost use Rattle.sz_save_tests.specs.Tables as tables;
ghost use Rattle.sz_save_tests.specs.Tables.{numbers_table, number_emit};

use crate::joining::has_text;
use std::alloc::{AllocError, Global};
use std::test::Fail;
use sz_save::{NoMemory, is_low, read_saved, save, write_saved};
use sz_tabs::Emit;
use sz_total::Total;
use sz_types::{TableDecl, TableDecls, TableKind, Text, Ty, Tys};
use sz_value::{List, Octets, Value};

// A number that is emitted: the index under which it is, the number, and its weight where the table has weights.
type Number = (i64, i64, i64);

// The limit of a table of this kind.
fn limit_for(kind: TableKind) -> u32
    ensures value { result ≡ tables.limit_for kind }
{
    match kind {
        TableKind::Sum | TableKind::Collection => 0,
        TableKind::Maximum | TableKind::Minimum | TableKind::Set => 2,
    }
}

// The type of the weights of a table of this kind.
#[tactic(auto, using(sz_types::proofs::ForCallers::seen_int))]
fn weights_of(kind: TableKind) -> Option<Ty>
    ensures value { option_map seen result ≡ tables.weight_for kind Shape.int }
{
    match kind {
        TableKind::Maximum | TableKind::Minimum => Some(Ty::Int),
        TableKind::Sum | TableKind::Set | TableKind::Collection => None,
    }
}

// The weight, where a table of this kind has weights.
fn weight_for(kind: TableKind, weight: i64) -> Option<i64>
    ensures value { result ≡ tables.weight_for kind weight }
{
    match kind {
        TableKind::Maximum | TableKind::Minimum => Some(weight),
        TableKind::Sum | TableKind::Set | TableKind::Collection => None,
    }
}

// A table of this kind, of whole numbers under a whole number.
#[tactic(auto, using(sz_types::proofs::ForCallers::seen_int))]
fn table_of(alloc: Global, kind: TableKind) -> Result<TableDecl, NoMemory>
    ensures value { IfOk result (λ table. seen_table table ≡ numbers_table kind) }
{
    let name = Text::from_str(alloc, "t")?;
    let indexes = Tys::from_vec(vec![in alloc; Ty::Int]?);
    Ok(TableDecl {
        name,
        kind,
        limit: limit_for(kind),
        indexes,
        element: Ty::Int,
        weight: weights_of(kind),
    })
}

// That table alone.
fn tables_of(alloc: Global, kind: TableKind) -> Result<TableDecls, NoMemory>
    ensures value { IfOk result (λ tables. tables ≡ numbers_table kind ∷ []) }
{
    let mut tables = TableDecls::new(alloc);
    tables.push(table_of(alloc, kind)?)?;
    Ok(tables)
}

// The emit of a number.
fn emit_of(alloc: Global, kind: TableKind, one: &Number) -> Result<Emit, NoMemory>
    ensures value { IfOk result (λ emit. emit ≡ number_emit kind one.now.0 one.now.1 one.now.2) }
{
    let mut indexes = List::new(alloc);
    indexes.push(Value::Int(one.0))?;
    Ok(Emit {
        table: 0,
        indexes,
        value: Value::Int(one.1),
        weight: weight_for(kind, one.2),
    })
}

// Adds a number.
#[tactic(auto, using(crate::proofs::TableLemmas::emit_goes, crate::proofs::TableLemmas::emit_short))]
fn add_number<'a>(
    alloc: Global,
    kind: TableKind,
    total: &mut Total<'a>,
    one: &Number,
) -> Result<(), NoMemory>
    requires same { total.old.tables ≡ numbers_table kind ∷ [] }
    requires room { total.old.count < 2 ^ 63 }
    ensures same { OnOk result (total.new.tables ≡ numbers_table kind ∷ []) }
    ensures count { OnOk result (total.new.count ≡ total.old.count + 1) }
{
    let emit = emit_of(alloc, kind, one)?;
    let added = total.add(&emit);
    drop(emit);
    added
}

// The total of the numbers.
#[tactic(auto, using(crate::proofs::TableLemmas::table_weighted))]
fn total_of<'a>(
    alloc: Global,
    kind: TableKind,
    tables: &'a TableDecls,
    numbers: &[Number],
) -> Result<Total<'a>, NoMemory>
    requires same { tables.now ≡ numbers_table kind ∷ [] }
    requires few { length numbers.now < 2 ^ 32 }
    ensures same { IfOk result (λ total. total.tables ≡ numbers_table kind ∷ []) }
    ensures count { IfOk result (λ total. total.count ≡ length numbers.now) }
{
    let mut total = Total::new(alloc, tables)?;
    for one in numbers {
        add_number(alloc, kind, &mut total, one)?;
    }
    Ok(total)
}

// The saved file of the numbers, under a bound that is large enough.
#[tactic(auto, using(crate::proofs::TableLemmas::table_spelled))]
fn file_of(
    alloc: Global,
    kind: TableKind,
    numbers: &[Number],
    bound: u64,
) -> Result<Octets, NoMemory> {
    if numbers.len() > 1000 || bound < numbers.len() as u64 || bound > 1 << 63 {
        return Err(AllocError);
    }
    let tables = tables_of(alloc, kind)?;
    let total = total_of(alloc, kind, &tables, numbers)?;
    let saved = save(alloc, &total, &tables, bound)?;
    write_saved(alloc, &saved)
}

// One table: what is shown by the case, its kind, the numbers that are emitted to it, and the text of what is saved.
const SAVED: &[(&str, TableKind, &[Number], &str)] = &[
    ("no emits", TableKind::Sum, &[], ""),
    (
        "sums, of which one is below 0",
        TableKind::Sum,
        &[(1, 5, 0), (0, 3, 0), (1, -7, 0)],
        "t[0] = 3\nt[1] = -2\n",
    ),
    (
        "a sum past 64 bits",
        TableKind::Sum,
        &[(0, i64::MIN, 0), (0, i64::MIN, 0), (0, -1, 0)],
        "t[0] = -18446744073709551617\n",
    ),
    (
        "the two greatest, of one weight by value",
        TableKind::Maximum,
        &[(1, 20, 5), (1, 10, 5), (1, 30, 6), (-1, 4, -9)],
        "t[-1] = 4 weight -9\nt[1] = 30 weight 6\nt[1] = 10 weight 5\n",
    ),
    (
        "the two least, of one weight by value",
        TableKind::Minimum,
        &[(1, 20, 5), (1, 10, 5), (1, 30, 6)],
        "t[1] = 10 weight 5\nt[1] = 20 weight 5\n",
    ),
    (
        "a set that has a value twice",
        TableKind::Set,
        &[(1, 4, 0), (1, 2, 0), (1, 4, 0)],
        "t[1] = 2\nt[1] = 4\n",
    ),
    (
        "a set with too many values, beside one that is full",
        TableKind::Set,
        &[(1, 4, 0), (1, 2, 0), (1, 3, 0), (2, 1, 0), (2, 0, 0)],
        "t[1] = overflow\nt[2] = 0\nt[2] = 1\n",
    ),
    (
        "a collection that has a value twice",
        TableKind::Collection,
        &[(2, 4, 0), (1, 9, 0), (1, 4, 0), (1, 9, 0)],
        "t[1] = 4\nt[1] = 9\nt[1] = 9\nt[2] = 4\n",
    ),
];

fn saved() -> &'static [(&'static str, TableKind, &'static [Number], &'static str)] {
    SAVED
}

// Whether a file is read as saved tables with this bound and this text.
fn is_read(alloc: Global, file: &Octets, bound: u64, text: &str) -> bool {
    match read_saved(alloc, file.as_slice()) {
        Ok(saved) => saved.bound() == bound && has_text(alloc, &saved, text),
        Err(_) => false,
    }
}

// Whether what is saved of the numbers under a bound is read with that bound and this text.
fn is_saved(alloc: Global, kind: TableKind, numbers: &[Number], bound: u64, text: &str) -> bool {
    match file_of(alloc, kind, numbers, bound) {
        Ok(file) => is_read(alloc, &file, bound, text),
        Err(_) => false,
    }
}

#[test]
fn each_kind_of_table_is_saved_and_read_again(rt: HostRuntime) -> Result<(), Fail> {
    for (what, kind, numbers, text) in saved() {
        let count = numbers.len() as u64;
        assert!(rt;
            is_saved(rt.alloc(), *kind, numbers, count, text),
            "at {what}, with its count"
        );
        assert!(rt;
            is_saved(rt.alloc(), *kind, numbers, 1 << 63, text),
            "at {what}, with the greatest bound"
        );
    }
    Ok(())
}

// The file of the sum 1 under the index 1, with the bound 16.
const ONE_SUM: [u8; 82] = [
    83, 90, 84, 65, 66, 76, 69, 49, 0, 0, 0, 0, 0, 0, 0, 16, 0, 0, 0, 1, 0, 0, 0, 1, 116, 0, 0, 0,
    0, 0, 0, 0, 0, 1, 2, 2, 0, 0, 0, 0, 0, 0, 0, 0, 1, 0, 0, 0, 0, 0, 0, 0, 9, 2, 0, 0, 0, 0, 0, 0,
    0, 1, 0, 0, 0, 1, 0, 0, 0, 0, 0, 0, 0, 0, 0, 0, 0, 0, 0, 0, 0, 1,
];

// Whether what is saved of the numbers is this file.
fn is_file(alloc: Global, kind: TableKind, numbers: &[Number], bound: u64, bytes: &[u8]) -> bool {
    match file_of(alloc, kind, numbers, bound) {
        Ok(file) => file.as_slice() == bytes,
        Err(_) => false,
    }
}

#[test]
fn a_sum_is_saved_as_its_file(rt: HostRuntime) -> Result<(), Fail> {
    assert!(rt; is_file(rt.alloc(), TableKind::Sum, &[(1, 1, 0)], 16, &ONE_SUM));
    Ok(())
}

// A type of this many levels more than another.
fn above(alloc: Global, inner: Ty, levels: u32) -> Result<Ty, NoMemory> {
    let mut ty = inner;
    for _ in 0..levels {
        ty = Ty::Array(Box::new(alloc, ty)?);
    }
    Ok(ty)
}

// A collection of elements of the one type under an index of the other.
fn collection(alloc: Global, index: Ty, element: Ty) -> Result<TableDecl, NoMemory> {
    let name = Text::from_str(alloc, "t")?;
    let indexes = Tys::from_vec(vec![in alloc; index]?);
    Ok(TableDecl {
        name,
        kind: TableKind::Collection,
        limit: 0,
        indexes,
        element,
        weight: None,
    })
}

// Whether a table is low whose index and element are arrays of so many levels above a number.
fn are_low(alloc: Global, index: u32, element: u32) -> Result<bool, NoMemory> {
    let index = above(alloc, Ty::Int, index)?;
    let element = above(alloc, Ty::Str, element)?;
    let table = collection(alloc, index, element)?;
    Ok(is_low(&table))
}

fn is_so(found: Result<bool, NoMemory>, want: bool) -> bool {
    match found {
        Ok(low) => low == want,
        Err(_) => false,
    }
}

#[test]
fn types_of_256_levels_are_low(rt: HostRuntime) -> Result<(), Fail> {
    for (index, element, low) in [
        (0, 0, true),
        (255, 0, true),
        (0, 255, true),
        (255, 255, true),
        (256, 0, false),
        (0, 256, false),
    ] {
        assert!(rt;
            is_so(are_low(rt.alloc(), index, element), low),
            "at {index} and {element}"
        );
    }
    Ok(())
}
