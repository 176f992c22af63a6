//! Rows of the plain aggregator, worked by hand; and emits in their order.
ghost use Rattle.std.specs.Prelude.{◌≡◌, ◌<◌, ◌+◌, ◌^◌, None, is_some, IfOk, OnOk};
ghost use Rattle.sz_types.specs.Data.{Shape, field};
ghost use Rattle.sz_types.specs.Seen.{seen_field, seen_fields};
ghost use Rattle.sz_types.specs.declared.encoding.Encoding.TheVariants.{Plain};
ghost use Rattle.sz_types.specs.SeenTables.{seen_table};
ghost use Rattle.sz_value.specs.Seen.{seen};
ghost use Rattle.sz_tables_tests.specs.Pairs.{pairs, pair_fields, pair_of};

use crate::tables::{add_number, numbers_from, table_of_numbers, with};
use std::alloc::Global;
use sz_tabs::{Aggregator, Emit, Emits, NoMemory, PlainAggregator, Rows};
use sz_types::{Encoding, Field, Fields, TableDecl, TableKind, Text, Ty, Tys};
use sz_value::{List, Value};

// A kind of table, its limit, three numbers that are emitted, their weights if there are any, and the numbers of the rows.
type Row = (TableKind, u32, [i64; 3], Option<[i64; 3]>, &'static [i128]);

const ROWS: &[Row] = &[
    (
        TableKind::Sum,
        0,
        [i64::MAX, i64::MAX, 2],
        None,
        &[18_446_744_073_709_551_616],
    ),
    (TableKind::Collection, 0, [5, -1, 5], None, &[-1, 5, 5]),
    (TableKind::Set, 2, [5, -1, 5], None, &[-1, 5]),
    (TableKind::Set, 1, [5, -1, 5], None, &[-1000]),
    // Weights rank values, and values break ties.
    (
        TableKind::Maximum,
        2,
        [3, 7, 2],
        Some([4, 9, 4]),
        &[7, 9, 2, 4],
    ),
    (
        TableKind::Minimum,
        2,
        [3, 7, 2],
        Some([4, 9, 4]),
        &[2, 4, 3, 4],
    ),
    (
        TableKind::Minimum,
        9,
        [3, 7, 2],
        Some([4, 9, 4]),
        &[2, 4, 3, 4, 7, 9],
    ),
];

fn rows() -> &'static [Row] {
    ROWS
}

// A whole number and its weight, if the table has weights.
type Weighed = (i64, Option<i64>);

// The weight, where the table has weights.
fn weight_if(by_weight: bool, weight: i64) -> Option<i64>
    ensures there { is_some result ≡ by_weight }
{
    if by_weight { Some(weight) } else { None }
}

// The rows after one emit to the first side and two to the second, which is merged into the first.
#[tactic(auto, using(sz_tabs::proofs::TestLemmas::numbers_fit))]
fn merged_rows<A: Aggregator + Drop>(
    mut first: A,
    mut second: A,
    one: Weighed,
    two: Weighed,
    three: Weighed,
) -> Result<Rows, NoMemory>
    requires element { (A.declaration first).element ≡ Shape.int }
    requires one { is_some one.1 ≡ is_some (A.declaration first).weight }
    requires two { is_some two.1 ≡ is_some (A.declaration first).weight }
    requires three { is_some three.1 ≡ is_some (A.declaration first).weight }
    requires same { A.declaration second ≡ A.declaration first }
    requires first_empty { A.count first ≡ 0 }
    requires second_empty { A.count second ≡ 0 }
{
    add_number(&mut first, one.0, one.1)?;
    add_number(&mut second, two.0, two.1)?;
    add_number(&mut second, three.0, three.1)?;
    match first.merge(second) {
        Ok(()) => first.rows(),
        Err(_) => Err(NoMemory),
    }
}

// The rows of a table of whole numbers after three emits, in numbers.
fn rows_under(
    alloc: Global,
    table: &TableDecl,
    one: Weighed,
    two: Weighed,
    three: Weighed,
) -> Result<Vec<i128>, NoMemory>
    requires element { (seen_table table.now).element ≡ Shape.int }
    requires one { is_some one.1 ≡ is_some (seen_table table.now).weight }
    requires two { is_some two.1 ≡ is_some (seen_table table.now).weight }
    requires three { is_some three.1 ≡ is_some (seen_table table.now).weight }
{
    let first = PlainAggregator::new(alloc, table)?;
    let (first, second) = with(first, PlainAggregator::new(alloc, table))?;
    numbers_from(alloc, merged_rows(first, second, one, two, three))
}

// Whether a table has the rows that its row says.
fn holds(alloc: Global, row: &Row) -> Result<bool, NoMemory> {
    let (kind, limit, [one, two, three], weights, wanted) = *row;
    let by_weight = weights.is_some();
    let [first, second, third] = weights.unwrap_or([0; 3]);
    let table = table_of_numbers(alloc, kind, limit, by_weight)?;
    let found = rows_under(
        alloc,
        &table,
        (one, weight_if(by_weight, first)),
        (two, weight_if(by_weight, second)),
        (three, weight_if(by_weight, third)),
    );
    drop(table);
    are(found, wanted)
}

// Whether these are the numbers, where there are some.
fn are(found: Result<Vec<i128>, NoMemory>, wanted: &[i128]) -> Result<bool, NoMemory> {
    Ok(found?.as_slice() == wanted)
}

// A field of whole numbers.
fn number_field(alloc: Global, name: &str) -> Result<Field, NoMemory>
    ensures value { IfOk result (λ made. seen_field made ≡ field name.now Shape.int 0 Plain) }
{
    Ok(Field {
        name: Text::from_str(alloc, name)?,
        ty: Ty::Int,
        number: 0,
        code: Encoding::Plain,
    })
}

fn pair_fields(alloc: Global) -> Result<Fields, NoMemory>
    ensures value { IfOk result (λ fields. seen_fields fields ≡ pair_fields) }
{
    let mut fields = Fields::new(alloc)?;
    fields.push(number_field(alloc, "a")?)?;
    fields.push(number_field(alloc, "b")?)?;
    Ok(fields)
}

// A table of sums of pairs.
#[tactic(auto, using(sz_types::proofs::ForCallers::seen_tuple))]
fn table_of_pairs(alloc: Global) -> Result<TableDecl, NoMemory>
    ensures element { IfOk result (λ table. (seen_table table).element ≡ pairs) }
    ensures weight { IfOk result (λ table. (seen_table table).weight ≡ None) }
{
    let (name, fields) = with(Text::from_str(alloc, "t")?, pair_fields(alloc))?;
    Ok(TableDecl {
        name,
        kind: TableKind::Sum,
        limit: 0,
        indexes: Tys::new(alloc),
        element: Ty::Tuple(fields),
        weight: None,
    })
}

fn pair_of(alloc: Global, first: i64, second: i64) -> Result<Value, NoMemory>
    ensures value { IfOk result (λ value. seen value ≡ pair_of first second) }
{
    let mut parts = List::new(alloc);
    parts.push(Value::Int(first))?;
    parts.push(Value::Int(second))?;
    Ok(Value::Tuple(parts))
}

// Adds a pair.
#[tactic(auto, using(crate::proofs::PairLemmas::pair_fits))]
fn add_pair<A: Aggregator + Drop>(
    alloc: Global,
    to: &mut A,
    first: i64,
    second: i64,
) -> Result<(), NoMemory>
    requires element { (A.declaration to.old).element ≡ pairs }
    requires weight { (A.declaration to.old).weight ≡ None }
    requires room { A.count to.old < 2 ^ 63 }
    ensures same { OnOk result (A.declaration to.new ≡ A.declaration to.old) }
    ensures count { OnOk result (A.count to.new ≡ A.count to.old + 1) }
{
    let pair = pair_of(alloc, first, second)?;
    let added = to.add(&pair, None);
    drop(pair);
    added
}

// The rows after two pairs.
fn rows_of_pairs<A: Aggregator + Drop>(alloc: Global, mut to: A) -> Result<Rows, NoMemory>
    requires element { (A.declaration to).element ≡ pairs }
    requires weight { (A.declaration to).weight ≡ None }
    requires empty { A.count to ≡ 0 }
{
    add_pair(alloc, &mut to, 1, -2)?;
    add_pair(alloc, &mut to, 10, i64::MIN)?;
    to.rows()
}

// The sums of two pairs.
fn sums_of_pairs(alloc: Global, table: &TableDecl) -> Result<Vec<i128>, NoMemory>
    requires element { (seen_table table.now).element ≡ pairs }
    requires weight { (seen_table table.now).weight ≡ None }
{
    let sums = PlainAggregator::new(alloc, table)?;
    numbers_from(alloc, rows_of_pairs(alloc, sums))
}

// Whether sums go by component.
fn components_are_summed(alloc: Global) -> Result<bool, NoMemory> {
    let table = table_of_pairs(alloc)?;
    let found = sums_of_pairs(alloc, &table);
    drop(table);
    are(found, &[11, -9_223_372_036_854_775_810])
}

#[test]
fn rows_are_those_worked_by_hand(rt: HostRuntime) {
    for row in rows() {
        let same = holds(rt.alloc(), row) == Ok(true);
        assert!(rt; same, "{:?} of {:?}", row.0, row.2);
    }
    assert!(rt; components_are_summed(rt.alloc()) == Ok(true));
}

// Adds an emit of a number to a table without indexes.
fn add_emit(alloc: Global, emits: &mut Emits, table: u32) -> Result<(), NoMemory> {
    emits.push(Emit {
        table,
        indexes: List::new(alloc),
        value: Value::Int(8),
        weight: None,
    })
}

// Whether emits stand in the order in which they came.
fn are_in_order(emits: &Emits) -> bool {
    match emits.as_slice() {
        [first, second] => first.table == 3 && second.table == 1,
        _ => false,
    }
}

fn emits_stay_in_order(alloc: Global) -> bool {
    let mut emits = Emits::new(alloc);
    let first = add_emit(alloc, &mut emits, 3);
    let second = add_emit(alloc, &mut emits, 1);
    first.is_ok() && second.is_ok() && are_in_order(&emits)
}

#[test]
fn emits_stand_in_their_order(rt: HostRuntime) {
    assert!(rt; emits_stay_in_order(rt.alloc()));
}
