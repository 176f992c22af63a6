//! Large tables: as many values as a limit lets in and one more, a merge of a million index lists, a text that is made in pieces, and a
//! merge that is made in parts. No answer of want of memory comes but from the allocator, so none comes here.
ghost use Rattle.std.specs.Prelude.{◌≡◌, ◌∷◌, [], ◌≤◌, ◌<◌, ◌+◌, ◌^◌, true, false, All, IfOk, OnOk};
ghost use Rattle.sz_types.specs.Data.{Shape};
ghost use Rattle.sz_types.specs.SeenTables.{seen_table};
ghost use Rattle.sz_total.specs.Weights.{HaveTheirWeights};

use crate::dealing::merged;
use crate::tables::{add_number, numbers_from, table_of_numbers, with};
use crate::totals;
use crate::totals::{Dealt, add_dealt, declarations, weight_for};
use std::alloc::Global;
use std::test::Fail;
use std::thread::Threads;
use sz_extreme::Extreme;
use sz_members::Members;
use sz_print::{text, text_by};
use sz_tabs::{Aggregator, NoMemory};
use sz_total::Total;
use sz_types::{TableDecl, TableDecls, TableKind};

// Whole numbers from a first one on, each two above the last.
#[derive(Clone, Copy)]
struct Numbers {
    first: u32,
    count: u32,
}

// The number at a place.
fn number_at(numbers: Numbers, at: u32) -> i64 {
    i64::from(numbers.first) + 2 * i64::from(at)
}

// The aggregator with these numbers added, each with itself as its weight where there are weights.
#[tactic(auto, using(crate::proofs::TestLemmas::number_fits))]
fn filled<A: Aggregator + Drop>(
    mut aggregate: A,
    table: &TableDecl,
    numbers: Numbers,
) -> Result<A, NoMemory>
    requires same { A.declaration aggregate ≡ seen_table table.now }
    requires element { (seen_table table.now).element ≡ Shape.int }
    requires room { A.count aggregate ≤ 2 ^ 40 }
    ensures same { IfOk result (λ full. A.declaration full ≡ seen_table table.now) }
    ensures count { IfOk result (λ full. A.count full ≤ A.count aggregate + 2 ^ 32) }
{
    for at in 0..numbers.count {
        let number = number_at(numbers, at);
        add_number(&mut aggregate, number, weight_for(table, number))?;
    }
    Ok(aggregate)
}

// The numbers of the rows after the even numbers were added to one side, the odd ones to the other, and then one more to the merged
// sides.
fn both_filled<A: Aggregator + Drop>(
    alloc: Global,
    even: A,
    odd: A,
    table: &TableDecl,
    count: u32,
    more: u32,
) -> Result<Vec<i128>, NoMemory>
    requires same { A.declaration even ≡ seen_table table.now }
    requires other_same { A.declaration odd ≡ seen_table table.now }
    requires empty { A.count even ≡ 0 }
    requires other_empty { A.count odd ≡ 0 }
    requires element { (seen_table table.now).element ≡ Shape.int }
{
    let even = filled(even, table, Numbers { first: 0, count })?;
    let (even, odd) = with(even, filled(odd, table, Numbers { first: 1, count }))?;
    let last = Numbers {
        first: 1_000_000_000,
        count: more,
    };
    let rows = filled(merged(even, odd)?, table, last)?.rows();
    numbers_from(alloc, rows)
}

// The numbers of the rows of a table of maxima.
#[tactic(auto, using(crate::proofs::TestLemmas::one_of_two))]
fn maxima(alloc: Global, limit: u32, count: u32, more: u32) -> Result<Vec<i128>, NoMemory> {
    let table = table_of_numbers(alloc, TableKind::Maximum, limit, true)?;
    let even = Extreme::new(alloc, &table);
    let odd = Extreme::new(alloc, &table);
    both_filled(alloc, even, odd, &table, count, more)
}

// The numbers of the rows of a table of a set.
#[tactic(auto, using(crate::proofs::TestLemmas::one_of_two))]
fn members(alloc: Global, limit: u32, count: u32, more: u32) -> Result<Vec<i128>, NoMemory> {
    let table = table_of_numbers(alloc, TableKind::Set, limit, false)?;
    let even = Members::new(alloc, &table);
    let odd = Members::new(alloc, &table);
    both_filled(alloc, even, odd, &table, count, more)
}

// How many numbers there are, and the first and the last of them.
fn seen_of(numbers: Result<Vec<i128>, NoMemory>) -> Option<(usize, i128, i128)> {
    let Ok(numbers) = numbers else {
        return None;
    };
    match (numbers.first(), numbers.last()) {
        (Some(first), Some(last)) => Some((numbers.len(), *first, *last)),
        _ => None,
    }
}

// The total of a table of sums with 1 under each of these numbers.
fn counted<'a>(
    alloc: Global,
    tables: &'a TableDecls,
    numbers: Numbers,
) -> Result<Total<'a>, NoMemory>
    requires weights { HaveTheirWeights tables.now }
    requires numbers { All (λ table. (table.element ≡ Shape.int) × (table.indexes ≡ Shape.int ∷ [])) tables.now }
    ensures same { IfOk result (λ total. total.tables ≡ tables.now) }
    ensures count { IfOk result (λ total. total.count ≤ 2 ^ 32) }
{
    let mut total = Total::new(alloc, tables)?;
    count_more(alloc, &mut total, tables, numbers)?;
    Ok(total)
}

// Adds 1 under each of these numbers of the table of sums.
fn count_more<'a>(
    alloc: Global,
    total: &mut Total<'a>,
    tables: &TableDecls,
    numbers: Numbers,
) -> Result<(), NoMemory>
    requires numbers { All (λ table. (table.element ≡ Shape.int) × (table.indexes ≡ Shape.int ∷ [])) tables.now }
    requires same { total.old.tables ≡ tables.now }
    requires room { total.old.count ≤ 2 ^ 40 }
    ensures same { OnOk result (total.new.tables ≡ tables.now) }
    ensures count { OnOk result (total.new.count ≤ total.old.count + 2 ^ 32) }
{
    for at in 0..numbers.count {
        let dealt = Dealt {
            table: 0,
            index: number_at(numbers, at),
            number: 1,
            weight: 0,
            side: 0,
        };
        add_dealt(alloc, total, tables, &dealt)?;
    }
    Ok(())
}

// How many index lists the table of sums has after so many on each of two sides.
fn lists_merged(alloc: Global, count: u32) -> Result<usize, NoMemory> {
    let tables = declarations(alloc)?;
    let even = counted(alloc, &tables, Numbers { first: 0, count })?;
    let odd = counted(alloc, &tables, Numbers { first: 1, count })?;
    first_rows(&totals::merged(even, odd)?, &tables)
}

// How many index lists have rows in the first table, if there is one.
fn first_rows<'a>(total: &Total<'a>, tables: &TableDecls) -> Result<usize, NoMemory>
    requires same { total.now.tables ≡ tables.now }
{
    if tables.len() == 0 {
        return Ok(0);
    }
    Ok(total.rows(0)?.as_slice().len())
}

// Whether so many threads make the text that one makes, of a table of sums with so many index lists.
fn have_one_text<R: Threads + Sync>(
    rt: &R,
    alloc: Global,
    count: u32,
    threads: u32,
) -> Result<bool, NoMemory>
    requires threads { 1 ≤ threads }
{
    let tables = declarations(alloc)?;
    let total = counted(alloc, &tables, Numbers { first: 0, count })?;
    let one = text(alloc, &total, &tables)?;
    let all = text_by(rt, alloc, &total, &tables, threads)?;
    Ok(one.len() > 0 && one.as_slice() == all.as_slice())
}

// Two sides with thousands of index lists, many of them in common, a small side, and what comes after they are joined: index lists that are
// there, and others.
const LARGE: Numbers = Numbers {
    first: 0,
    count: 6_000,
};

const OTHER: Numbers = Numbers {
    first: 4_000,
    count: 7_000,
};

const SMALL: Numbers = Numbers {
    first: 3_001,
    count: 10,
};

const LATER: Numbers = Numbers {
    first: 17_990,
    count: 9,
};

// The text of all of them in one total, which is never merged.
fn text_alone(alloc: Global) -> Result<Vec<u8>, NoMemory> {
    let tables = declarations(alloc)?;
    let mut total = counted(alloc, &tables, LARGE)?;
    count_more(alloc, &mut total, &tables, OTHER)?;
    count_more(alloc, &mut total, &tables, SMALL)?;
    count_more(alloc, &mut total, &tables, LATER)?;
    text(alloc, &total, &tables)
}

// The text of the sides, joined by so many threads, with the others after them, which as many put in order. The large ones are dealt out to
// parts where there are two threads, and the small one is dealt out for them.
fn text_joined<R: Threads + Sync>(rt: &R, alloc: Global, threads: u32) -> Result<Vec<u8>, NoMemory>
    requires threads { 1 ≤ threads }
{
    let tables = declarations(alloc)?;
    let large = counted(alloc, &tables, LARGE)?;
    let other = counted(alloc, &tables, OTHER)?;
    let small = counted(alloc, &tables, SMALL)?;
    let both = absorbed_by(rt, threads as usize, large, other)?;
    let mut all = absorbed_by(rt, threads as usize, small, both)?;
    count_more(alloc, &mut all, &tables, LATER)?;
    text_by(rt, alloc, &all, &tables, threads)
}

// The same by one thread, where the small side comes first and deals large tables out early.
fn text_dealt_early(alloc: Global) -> Result<Vec<u8>, NoMemory> {
    let tables = declarations(alloc)?;
    let mut small = counted(alloc, &tables, SMALL)?;
    small.deal_early(true);
    let large = totals::absorbed(small, counted(alloc, &tables, LARGE)?)?;
    let mut all = totals::absorbed(large, counted(alloc, &tables, OTHER)?)?;
    count_more(alloc, &mut all, &tables, LATER)?;
    text(alloc, &all, &tables)
}

// The two totals joined, by so many threads.
fn absorbed_by<'a, R: Threads + Sync>(
    rt: &R,
    threads: usize,
    mut first: Total<'a>,
    second: Total<'a>,
) -> Result<Total<'a>, NoMemory>
    requires threads { 1 ≤ threads }
    requires same { second.tables ≡ first.tables }
    requires room { first.count + second.count ≤ 2 ^ 63 }
    ensures same { IfOk result (λ both. both.tables ≡ first.entry.tables) }
    ensures count { IfOk result (λ both. both.count ≡ first.entry.count + second.entry.count) }
{
    match first.absorb_by(rt, threads, second) {
        Ok(()) => Ok(first),
        Err(_) => Err(NoMemory),
    }
}

#[test]
fn ten_thousand_maxima_of_both_sides_are_kept(rt: HostRuntime) -> Result<(), Fail> {
    let alloc = rt.alloc();
    let full = seen_of(maxima(alloc, 10_000, 10_000, 0));
    assert!(rt; full == Some((20_000, 19_999, 10_000)));
    let one_more = seen_of(maxima(alloc, 10_000, 10_000, 1));
    assert!(rt; one_more == Some((20_000, 1_000_000_000, 10_001)));
    Ok(())
}

#[test]
fn a_set_of_a_million_values_is_just_full(rt: HostRuntime) -> Result<(), Fail> {
    let alloc = rt.alloc();
    let full = seen_of(members(alloc, 1_000_000, 500_000, 0));
    assert!(rt; full == Some((1_000_000, 0, 999_999)));
    let one_more = seen_of(members(alloc, 1_000_000, 500_000, 1));
    assert!(rt; one_more == Some((1, -1000, -1000)));
    Ok(())
}

#[test]
fn a_million_index_lists_are_merged(rt: HostRuntime) -> Result<(), Fail> {
    let lists = lists_merged(rt.alloc(), 500_000);
    assert!(rt; lists.unwrap_or(0) == 1_000_000);
    Ok(())
}

#[test]
fn any_number_of_threads_makes_the_same_text(rt: HostRuntime) -> Result<(), Fail> {
    for fewer in 0..4u32 {
        let same = have_one_text(&rt, rt.alloc(), 4_999, fewer + 1)?;
        assert!(rt; same, "by {} threads", fewer + 1);
        let few = have_one_text(&rt, rt.alloc(), 9, fewer + 1)?;
        assert!(rt; few, "of few by {} threads", fewer + 1);
    }
    Ok(())
}

#[test]
fn any_number_of_threads_merges_the_same(rt: HostRuntime) -> Result<(), Fail> {
    let alone = text_alone(rt.alloc())?;
    assert!(rt; alone.len() > 100_000);
    for fewer in 0..4u32 {
        let joined = text_joined(&rt, rt.alloc(), fewer + 1)?;
        assert!(rt;
            joined.as_slice() == alone.as_slice(),
            "by {} threads",
            fewer + 1
        );
    }
    Ok(())
}

#[test]
fn tables_that_are_dealt_out_early_show_the_same(rt: HostRuntime) -> Result<(), Fail> {
    let alone = text_alone(rt.alloc())?;
    let early = text_dealt_early(rt.alloc())?;
    assert!(rt; early.as_slice() == alone.as_slice());
    Ok(())
}
