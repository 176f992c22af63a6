//! All tables against plain aggregators: emits are drawn, dealt out to three totals, and these are merged in different orders.
ghost use Rattle.std.specs.Prelude.{◌≡◌, ◌∷◌, [], ◌≤◌, ◌<◌, ◌+◌, ◌^◌, All, is_some, length, IfOk, OnOk};
ghost use Rattle.sz_types.specs.Data.{Shape};
ghost use Rattle.sz_types.specs.SeenTables.{seen_table};
ghost use Rattle.sz_value.specs.Data.{int};
ghost use Rattle.sz_total.specs.Weights.{HaveTheirWeights};

use crate::dealing::{drawn, small};
use crate::tables::{add_number, are_same, indexed_table, numbers_from, numbers_in};
use std::alloc::Global;
use std::test::Fail;
use sz_tabs::{Aggregator, Emit, NoMemory, PlainAggregator, Rows};
use sz_total::{TableRows, Total};
use sz_types::{TableDecl, TableDecls, TableKind};
use sz_value::{List, Value};

// A whole number that goes to a table under an index, its weight, and the total that it is dealt to.
#[derive(Drop)]
pub(crate) struct Dealt {
    pub(crate) table: u64,
    pub(crate) index: i64,
    pub(crate) number: i64,
    pub(crate) weight: i64,
    pub(crate) side: u64,
}

// The declared tables, one of each kind, with their limits.
const TABLES: &[(&str, TableKind, u32)] = &[
    ("sums", TableKind::Sum, 0),
    ("most", TableKind::Maximum, 3),
    ("least", TableKind::Minimum, 2),
    ("set", TableKind::Set, 3),
    ("all", TableKind::Collection, 0),
];

fn declared() -> &'static [(&'static str, TableKind, u32)] {
    TABLES
}

// The declarations of these tables.
#[tactic(auto, using(crate::proofs::TestLemmas::tables_more, crate::proofs::TestLemmas::no_tables))]
pub(crate) fn declarations(alloc: Global) -> Result<TableDecls, NoMemory>
    ensures weights { IfOk result HaveTheirWeights }
    ensures numbers { IfOk result (λ tables. All (λ table. (table.element ≡ Shape.int) × (table.indexes ≡ Shape.int ∷ [])) tables) }
{
    let mut tables = TableDecls::new(alloc);
    for (name, kind, limit) in declared() {
        tables.push(indexed_table(alloc, name, *kind, *limit)?)?;
    }
    Ok(tables)
}

// The emit of what was dealt, to a table with this number.
fn emit_of(alloc: Global, table: &TableDecl, number: u32, dealt: &Dealt) -> Result<Emit, NoMemory>
    ensures table { IfOk result (λ emit. emit.table ≡ number) }
    ensures indexes { IfOk result (λ emit. emit.indexes ≡ int dealt.now.index ∷ []) }
    ensures value { IfOk result (λ emit. emit.value ≡ int dealt.now.number) }
    ensures weight { IfOk result (λ emit. is_some emit.weight ≡ is_some (seen_table table.now).weight) }
{
    let mut indexes = List::new(alloc);
    indexes.push(Value::Int(dealt.index))?;
    Ok(Emit {
        table: number,
        indexes,
        value: Value::Int(dealt.number),
        weight: weight_for(table, dealt.weight),
    })
}

// The weight, where the table has weights.
pub(crate) fn weight_for(table: &TableDecl, weight: i64) -> Option<i64>
    ensures some { is_some result ≡ is_some (seen_table table.now).weight }
{
    match table.weight {
        Some(_) => Some(weight),
        None => None,
    }
}

// Adds what was dealt to its table, if there is one.
#[tactic(auto, using(crate::proofs::TestLemmas::emit_fits, crate::proofs::TestLemmas::emit_short))]
pub(crate) fn add_dealt<'a>(
    alloc: Global,
    total: &mut Total<'a>,
    tables: &TableDecls,
    dealt: &Dealt,
) -> Result<(), NoMemory>
    requires numbers { All (λ table. (table.element ≡ Shape.int) × (table.indexes ≡ Shape.int ∷ [])) tables.now }
    requires same { total.old.tables ≡ tables.now }
    requires room { total.old.count < 2 ^ 63 }
    ensures same { OnOk result (total.new.tables ≡ tables.now) }
    ensures count { OnOk result (total.new.count ≤ total.old.count + 1) }
{
    let number = dealt.table as usize;
    if number < tables.len() && number < 100 {
        let emit = emit_of(alloc, tables.get(number), number as u32, dealt)?;
        let added = total.add(&emit);
        drop(emit);
        added
    } else {
        Ok(())
    }
}

// The total of what was dealt to this side.
fn dealt_to<'a>(
    alloc: Global,
    tables: &'a TableDecls,
    dealt: &[Dealt],
    side: u64,
) -> Result<Total<'a>, NoMemory>
    requires weights { HaveTheirWeights tables.now }
    requires numbers { All (λ table. (table.element ≡ Shape.int) × (table.indexes ≡ Shape.int ∷ [])) tables.now }
    requires few { length dealt.now < 2 ^ 32 }
    ensures same { IfOk result (λ total. total.tables ≡ tables.now) }
    ensures count { IfOk result (λ total. total.count ≤ length dealt.now) }
{
    let mut total = Total::new(alloc, tables)?;
    for one in dealt {
        if one.side == side {
            add_dealt(alloc, &mut total, tables, one)?;
        }
    }
    Ok(total)
}

// The numbers of the rows of three totals that what was dealt went to, merged in one of three orders.
fn total_numbers(
    alloc: Global,
    tables: &TableDecls,
    dealt: &[Dealt],
    order: u64,
) -> Result<Vec<i128>, NoMemory>
    requires weights { HaveTheirWeights tables.now }
    requires numbers { All (λ table. (table.element ≡ Shape.int) × (table.indexes ≡ Shape.int ∷ [])) tables.now }
    requires few { length dealt.now < 2 ^ 32 }
{
    let first = dealt_to(alloc, tables, dealt, 0)?;
    let second = dealt_to(alloc, tables, dealt, 1)?;
    let third = dealt_to(alloc, tables, dealt, 2)?;
    let total = merged_by(order, first, second, third)?;
    numbers_of(alloc, &total, tables)
}

// Three totals, merged in one of three orders.
fn merged_by<'a>(
    order: u64,
    first: Total<'a>,
    second: Total<'a>,
    third: Total<'a>,
) -> Result<Total<'a>, NoMemory>
    requires second_same { second.tables ≡ first.tables }
    requires third_same { third.tables ≡ first.tables }
    requires room { first.count + second.count + third.count ≤ 2 ^ 63 }
    ensures same { IfOk result (λ total. total.tables ≡ first.entry.tables) }
{
    match order {
        0 => merged(merged(first, second)?, third),
        1 => absorbed(first, absorbed(second, third)?),
        _ => merged(merged(third, first)?, second),
    }
}

// The first total with the second merged into it.
pub(crate) fn merged<'a>(mut first: Total<'a>, second: Total<'a>) -> Result<Total<'a>, NoMemory>
    requires same { second.tables ≡ first.tables }
    requires room { first.count + second.count ≤ 2 ^ 63 }
    ensures same { IfOk result (λ both. both.tables ≡ first.entry.tables) }
    ensures count { IfOk result (λ both. both.count ≡ first.entry.count + second.entry.count) }
{
    match first.merge(second) {
        Ok(()) => Ok(first),
        Err(_) => Err(NoMemory),
    }
}

// The two totals joined, of which that with more emits takes in the other.
pub(crate) fn absorbed<'a>(mut first: Total<'a>, second: Total<'a>) -> Result<Total<'a>, NoMemory>
    requires same { second.tables ≡ first.tables }
    requires room { first.count + second.count ≤ 2 ^ 63 }
    ensures same { IfOk result (λ both. both.tables ≡ first.entry.tables) }
    ensures count { IfOk result (λ both. both.count ≡ first.entry.count + second.entry.count) }
{
    match first.absorb(second) {
        Ok(()) => Ok(first),
        Err(_) => Err(NoMemory),
    }
}

// The numbers of the rows of each table, with the index in front of those under it.
fn numbers_of<'a>(
    alloc: Global,
    total: &Total<'a>,
    tables: &TableDecls,
) -> Result<Vec<i128>, NoMemory>
    requires same { total.now.tables ≡ tables.now }
{
    let mut numbers = Vec::new(alloc);
    for number in 0..tables.len() {
        push_rows(alloc, &total.rows(number)?, &mut numbers)?;
    }
    Ok(numbers)
}

fn push_rows(alloc: Global, rows: &TableRows, numbers: &mut Vec<i128>) -> Result<(), NoMemory> {
    for indexed in rows.as_slice() {
        if let Some(Value::Int(index)) = indexed.indexes.as_slice().first() {
            numbers.push(i128::from(*index))?;
        }
        numbers.extend_from_slice(&numbers_in(alloc, &indexed.rows)?)?;
    }
    Ok(())
}

// The same numbers by a plain aggregator for each table and index.
fn plain_numbers(alloc: Global, tables: &TableDecls, dealt: &[Dealt]) -> Result<Vec<i128>, NoMemory>
    requires numbers { All (λ table. (table.element ≡ Shape.int) × (table.indexes ≡ Shape.int ∷ [])) tables.now }
    requires few { length dealt.now < 2 ^ 32 }
{
    let mut numbers = Vec::new(alloc);
    for number in 0..tables.len() {
        for index in -3..4i64 {
            push_plain(
                alloc,
                tables.get(number),
                number as u64,
                index,
                dealt,
                &mut numbers,
            )?;
        }
    }
    Ok(numbers)
}

// Appends the index and the numbers of the plain rows under it, if there are rows.
fn push_plain(
    alloc: Global,
    table: &TableDecl,
    number: u64,
    index: i64,
    dealt: &[Dealt],
    numbers: &mut Vec<i128>,
) -> Result<(), NoMemory>
    requires element { (seen_table table.now).element ≡ Shape.int }
    requires few { length dealt.now < 2 ^ 32 }
{
    let rows = plain_rows(alloc, table, number, index, dealt);
    push_under(index, &numbers_from(alloc, rows)?, numbers)
}

// The rows that a plain aggregator has of what was dealt to this table under this index.
fn plain_rows(
    alloc: Global,
    table: &TableDecl,
    number: u64,
    index: i64,
    dealt: &[Dealt],
) -> Result<Rows, NoMemory>
    requires element { (seen_table table.now).element ≡ Shape.int }
    requires few { length dealt.now < 2 ^ 32 }
{
    let plain = PlainAggregator::new(alloc, table)?;
    rows_under(plain, table, number, index, dealt)
}

// The rows that this new aggregator of the table then has.
#[tactic(auto, using(crate::proofs::TestLemmas::number_fits))]
fn rows_under<A: Aggregator + Drop>(
    mut plain: A,
    table: &TableDecl,
    number: u64,
    index: i64,
    dealt: &[Dealt],
) -> Result<Rows, NoMemory>
    requires same { A.declaration plain ≡ seen_table table.now }
    requires empty { A.count plain ≡ 0 }
    requires element { (seen_table table.now).element ≡ Shape.int }
    requires few { length dealt.now < 2 ^ 32 }
{
    for one in dealt {
        if one.table == number && one.index == index {
            add_number(&mut plain, one.number, weight_for(table, one.weight))?;
        }
    }
    plain.rows()
}

fn push_under(index: i64, under: &[i128], numbers: &mut Vec<i128>) -> Result<(), NoMemory> {
    if !under.is_empty() {
        numbers.push(i128::from(index))?;
        numbers.extend_from_slice(under)?;
    }
    Ok(())
}

// So many emits of few different numbers and weights.
fn deal(alloc: Global, seed: u64, count: u64) -> Result<Vec<Dealt>, NoMemory>
    requires seed { seed ≤ 65536 }
{
    let mut dealt = Vec::new(alloc);
    let mut state = seed;
    for _ in 0..count {
        let table = drawn(state);
        let index = drawn(table);
        let number = drawn(index);
        let weight = drawn(number);
        state = drawn(weight);
        dealt.push(Dealt {
            table: table % 5,
            index: small(index),
            number: small(number),
            weight: small(weight),
            side: state % 3,
        })?;
    }
    Ok(dealt)
}

// How many emits there are: so few that most tables have none, and so many that each table is full under each index.
const COUNTS: &[u64] = &[0, 1, 2, 5, 20, 100, 400];

fn counts() -> &'static [u64] {
    COUNTS
}

// Whether totals and plain aggregators have the same rows of so many emits that are drawn from the seed.
fn agrees_from(alloc: Global, tables: &TableDecls, count: u64, seed: u64) -> Result<bool, NoMemory>
    requires weights { HaveTheirWeights tables.now }
    requires numbers { All (λ table. (table.element ≡ Shape.int) × (table.indexes ≡ Shape.int ∷ [])) tables.now }
    requires seed { seed ≤ 65536 }
{
    let dealt = deal(alloc, seed, count)?;
    if dealt.len() < 1000 {
        let want = plain_numbers(alloc, tables, &dealt);
        are_same(want, total_numbers(alloc, tables, &dealt, seed % 3))
    } else {
        Ok(false)
    }
}

#[test]
fn totals_in_any_order_have_the_plain_rows(rt: HostRuntime) -> Result<(), Fail> {
    let alloc = rt.alloc();
    let tables = declarations(alloc)?;
    for count in counts() {
        for seed in 1..7u64 {
            let same = agrees_from(alloc, &tables, *count, seed).unwrap_or(false);
            assert!(rt; same, "at {count} from {seed}");
        }
    }
    Ok(())
}
