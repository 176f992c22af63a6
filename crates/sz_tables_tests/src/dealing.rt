//! Aggregators against the plain one: emits are dealt out to three of them, which are merged in different orders.
ghost use Rattle.std.specs.Prelude.{◌≡◌, ◌⊎◌, ◌≤◌, ◌<◌, ◌+◌, ◌^◌, ℤ, true, false, Some, None, if◌then◌else◌, is_some, length, IfOk};
ghost use Rattle.sz_types.specs.Data.{Shape};
ghost use Rattle.sz_types.specs.SeenTables.{seen_table};
ghost use Rattle.sz_types.specs.declared.table.TableKind.TheVariants as kinds;
ghost use Rattle.sz_value.specs.Data.{int};
ghost use Rattle.sz_tabs.specs.Aggregating.{weighted};
ghost use Rattle.sz_tabs.specs.Fitting.{Fits};

use crate::tables::{add_number, are_same, numbers_from, table_of_numbers, with};
use std::alloc::Global;
use std::test::Fail;
use sz_extreme::Extreme;
use sz_members::Members;
use sz_sum::Sum;
use sz_tabs::{Aggregator, NoMemory, PlainAggregator, Rows};
use sz_types::{TableDecl, TableKind};

// A whole number, its weight, and the aggregator that it is dealt to.
type Dealt = (i64, i64, u64);

/// The next of the numbers that a generator draws.
pub(crate) fn drawn(last: u64) -> u64
    requires { last ≤ 65536 }
    ensures below { result ≤ 65536 }
{
    (75 * last + 74) % 65_537
}

// So many emits of few different numbers and weights.
fn deal(alloc: Global, seed: u64, count: u64) -> Result<Vec<Dealt>, NoMemory>
    requires seed { seed ≤ 65536 }
{
    let mut dealt = Vec::new(alloc);
    let mut state = seed;
    for _ in 0..count {
        let number = drawn(state);
        let weight = drawn(number);
        state = drawn(weight);
        dealt.push((small(number), small(weight), state % 3))?;
    }
    Ok(dealt)
}

/// A number from -3 to 3.
pub(crate) fn small(number: u64) -> i64 {
    (number % 7) as i64 - 3
}

// The weight, where the table has weights.
fn weight_if(by_weight: bool, weight: i64) -> Option<i64>
    ensures value { result ≡ (if by_weight then Some weight else None) }
{
    if by_weight { Some(weight) } else { None }
}

// The rows of the three sides after the emits, merged in one of three orders.
fn merged_rows<A: Aggregator + Drop>(
    mut first: A,
    mut second: A,
    mut third: A,
    dealt: &[Dealt],
    by_weight: bool,
    order: u64,
) -> Result<Rows, NoMemory>
    requires fit { (n w : ℤ) → Fits (A.declaration first) (weighted (int n) (if by_weight then Some w else None)) }
    requires second_same { A.declaration second ≡ A.declaration first }
    requires third_same { A.declaration third ≡ A.declaration first }
    requires first_empty { A.count first ≡ 0 }
    requires second_empty { A.count second ≡ 0 }
    requires third_empty { A.count third ≡ 0 }
    requires few { length dealt.now < 2 ^ 32 }
{
    for (number, weight, side) in dealt {
        let weight = weight_if(by_weight, *weight);
        match *side {
            0 => add_number(&mut first, *number, weight)?,
            1 => add_number(&mut second, *number, weight)?,
            _ => add_number(&mut third, *number, weight)?,
        }
    }
    merged_by(order, first, second, third)?.rows()
}

// Three sides, merged in one of three orders.
fn merged_by<A: Aggregator + Drop>(order: u64, first: A, second: A, third: A) -> Result<A, NoMemory>
    requires second_same { A.declaration second ≡ A.declaration first }
    requires third_same { A.declaration third ≡ A.declaration first }
    requires room { A.count first + A.count second + A.count third ≤ 2 ^ 63 }
{
    match order {
        0 => merged(merged(first, second)?, third),
        1 => merged(first, merged(second, third)?),
        _ => merged(merged(third, first)?, second),
    }
}

// The first side with the second merged into it.
pub(crate) fn merged<A: Aggregator + Drop>(mut first: A, second: A) -> Result<A, NoMemory>
    requires same { A.declaration second ≡ A.declaration first }
    requires room { A.count first + A.count second ≤ 2 ^ 63 }
    ensures same { IfOk result (λ both. A.declaration both ≡ A.declaration first) }
    ensures count { IfOk result (λ both. A.count both ≡ A.count first + A.count second) }
{
    match first.merge(second) {
        Ok(()) => Ok(first),
        Err(_) => Err(NoMemory),
    }
}

// The rows that a plain aggregator has of the emits, in numbers.
#[tactic(auto, using(crate::proofs::TestLemmas::numbers_fit))]
fn plain_rows(
    alloc: Global,
    table: &TableDecl,
    dealt: &[Dealt],
    by_weight: bool,
) -> Result<Vec<i128>, NoMemory>
    requires element { (seen_table table.now).element ≡ Shape.int }
    requires weight { is_some (seen_table table.now).weight ≡ by_weight }
    requires few { length dealt.now < 2 ^ 32 }
{
    let first = PlainAggregator::new(alloc, table)?;
    let (first, second) = with(first, PlainAggregator::new(alloc, table))?;
    let ((first, second), third) = with((first, second), PlainAggregator::new(alloc, table))?;
    let rows = merged_rows(first, second, third, dealt, by_weight, 0);
    numbers_from(alloc, rows)
}

// The rows that a sum has of the emits, in numbers.
#[tactic(auto, using(crate::proofs::TestLemmas::numbers_fit))]
fn sum_rows(
    alloc: Global,
    table: &TableDecl,
    dealt: &[Dealt],
    order: u64,
) -> Result<Vec<i128>, NoMemory>
    requires kind { (seen_table table.now).kind ≡ kinds.Sum }
    requires element { (seen_table table.now).element ≡ Shape.int }
    requires weight { is_some (seen_table table.now).weight ≡ false }
    requires few { length dealt.now < 2 ^ 32 }
{
    let first = Sum::new(alloc, table)?;
    let (first, second) = with(first, Sum::new(alloc, table))?;
    let ((first, second), third) = with((first, second), Sum::new(alloc, table))?;
    let rows = merged_rows(first, second, third, dealt, false, order);
    numbers_from(alloc, rows)
}

// The rows that an aggregator of extremes has of the emits, in numbers.
#[tactic(auto, using(crate::proofs::TestLemmas::numbers_fit))]
fn extreme_rows(
    alloc: Global,
    table: &TableDecl,
    dealt: &[Dealt],
    order: u64,
) -> Result<Vec<i128>, NoMemory>
    requires kind { ((seen_table table.now).kind ≡ kinds.Maximum) ⊎ ((seen_table table.now).kind ≡ kinds.Minimum) }
    requires element { (seen_table table.now).element ≡ Shape.int }
    requires weight { is_some (seen_table table.now).weight ≡ true }
    requires few { length dealt.now < 2 ^ 32 }
{
    let first = Extreme::new(alloc, table);
    let second = Extreme::new(alloc, table);
    let third = Extreme::new(alloc, table);
    let rows = merged_rows(first, second, third, dealt, true, order);
    numbers_from(alloc, rows)
}

// The rows that an aggregator of members has of the emits, in numbers.
#[tactic(auto, using(crate::proofs::TestLemmas::numbers_fit))]
fn members_rows(
    alloc: Global,
    table: &TableDecl,
    dealt: &[Dealt],
    order: u64,
) -> Result<Vec<i128>, NoMemory>
    requires kind { ((seen_table table.now).kind ≡ kinds.Set) ⊎ ((seen_table table.now).kind ≡ kinds.Collection) }
    requires element { (seen_table table.now).element ≡ Shape.int }
    requires weight { is_some (seen_table table.now).weight ≡ false }
    requires few { length dealt.now < 2 ^ 32 }
{
    let first = Members::new(alloc, table);
    let second = Members::new(alloc, table);
    let third = Members::new(alloc, table);
    let rows = merged_rows(first, second, third, dealt, false, order);
    numbers_from(alloc, rows)
}

// Whether a sum has the rows of the plain aggregator.
fn sum_agrees(alloc: Global, limit: u32, dealt: &[Dealt], order: u64) -> Result<bool, NoMemory>
    requires few { length dealt.now < 2 ^ 32 }
{
    let table = table_of_numbers(alloc, TableKind::Sum, limit, false)?;
    let want = plain_rows(alloc, &table, dealt, false);
    let same = are_same(want, sum_rows(alloc, &table, dealt, order));
    drop(table);
    same
}

// Whether an aggregator of extremes has the rows of the plain one.
#[tactic(auto, using(crate::proofs::TestLemmas::one_of_two))]
fn extreme_agrees(
    alloc: Global,
    kind: TableKind,
    limit: u32,
    dealt: &[Dealt],
    order: u64,
) -> Result<bool, NoMemory>
    requires kind { (kind ≡ kinds.Maximum) ⊎ (kind ≡ kinds.Minimum) }
    requires few { length dealt.now < 2 ^ 32 }
{
    let table = table_of_numbers(alloc, kind, limit, true)?;
    let want = plain_rows(alloc, &table, dealt, true);
    let same = are_same(want, extreme_rows(alloc, &table, dealt, order));
    drop(table);
    same
}

// Whether an aggregator of members has the rows of the plain one.
#[tactic(auto, using(crate::proofs::TestLemmas::one_of_two))]
fn members_agree(
    alloc: Global,
    kind: TableKind,
    limit: u32,
    dealt: &[Dealt],
    order: u64,
) -> Result<bool, NoMemory>
    requires kind { (kind ≡ kinds.Set) ⊎ (kind ≡ kinds.Collection) }
    requires few { length dealt.now < 2 ^ 32 }
{
    let table = table_of_numbers(alloc, kind, limit, false)?;
    let want = plain_rows(alloc, &table, dealt, false);
    let same = are_same(want, members_rows(alloc, &table, dealt, order));
    drop(table);
    same
}

// Whether the aggregator of such a table has the rows of the plain one.
fn agrees(
    alloc: Global,
    kind: TableKind,
    limit: u32,
    dealt: &[Dealt],
    order: u64,
) -> Result<bool, NoMemory>
    requires few { length dealt.now < 2 ^ 32 }
{
    match kind {
        TableKind::Sum => sum_agrees(alloc, limit, dealt, order),
        TableKind::Maximum => extreme_agrees(alloc, TableKind::Maximum, limit, dealt, order),
        TableKind::Minimum => extreme_agrees(alloc, TableKind::Minimum, limit, dealt, order),
        TableKind::Set => members_agree(alloc, TableKind::Set, limit, dealt, order),
        TableKind::Collection => members_agree(alloc, TableKind::Collection, limit, dealt, order),
    }
}

// Whether it is so for so many emits that are drawn from the seed.
fn agrees_from(
    alloc: Global,
    kind: TableKind,
    limit: u32,
    count: u64,
    seed: u64,
) -> Result<bool, NoMemory>
    requires seed { seed ≤ 65536 }
{
    let dealt = deal(alloc, seed, count)?;
    if dealt.len() < 1000 {
        agrees(alloc, kind, limit, &dealt, seed % 3)
    } else {
        Ok(false)
    }
}

// The tables with their limits: there are seven different numbers, so forty emits fill the first two sets and just fit the third.
const TABLES: &[(&str, TableKind, u32)] = &[
    ("sum", TableKind::Sum, 0),
    ("maximum", TableKind::Maximum, 3),
    ("minimum", TableKind::Minimum, 3),
    ("collection", TableKind::Collection, 0),
    ("set of 1", TableKind::Set, 1),
    ("set of 3", TableKind::Set, 3),
    ("set of 7", TableKind::Set, 7),
];

fn declared() -> &'static [(&'static str, TableKind, u32)] {
    TABLES
}

// How many emits there are, around the limit of the tables and above it.
const COUNTS: &[u64] = &[0, 1, 2, 3, 4, 5, 40];

fn counts() -> &'static [u64] {
    COUNTS
}

#[test]
fn rows_are_those_of_the_plain_aggregator(rt: HostRuntime) -> Result<(), Fail> {
    for (name, kind, limit) in declared() {
        for count in counts() {
            for seed in 1..10u64 {
                let same = agrees_from(rt.alloc(), *kind, *limit, *count, seed).unwrap_or(false);
                assert!(rt; same, "{name} at {count} from {seed}");
            }
        }
    }
    Ok(())
}
