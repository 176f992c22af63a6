//! Tables of whole numbers, and the rows of aggregators as numbers.
ghost use Rattle.std.specs.Prelude.{◌≡◌, ◌∷◌, [], ◌<◌, ◌+◌, ◌^◌, true, Ok, is_some, IfOk, OnOk};
ghost use Rattle.sz_types.specs.Data.{Shape};
ghost use Rattle.sz_types.specs.SeenTables.{seen_table};
ghost use Rattle.sz_value.specs.Data.{int};
ghost use Rattle.sz_tabs.specs.Aggregating.{weighted};
ghost use Rattle.sz_tabs.specs.Fitting.{Fits};
ghost use Rattle.sz_total.specs.Weights.{ranks, HasItsWeights};

use std::alloc::Global;
use sz_tabs::{Aggregator, NoMemory, RowValue, Rows};
use sz_types::{TableDecl, TableKind, Text, Ty, Tys};
use sz_value::Value;

/// A table of whole numbers without indexes, with whole numbers as weights or with none.
#[tactic(auto, using(sz_types::proofs::ForCallers::seen_int))]
pub(crate) fn table_of_numbers(
    alloc: Global,
    kind: TableKind,
    limit: u32,
    by_weight: bool,
) -> Result<TableDecl, NoMemory>
    ensures kind { IfOk result (λ table. (seen_table table).kind ≡ kind) }
    ensures element { IfOk result (λ table. (seen_table table).element ≡ Shape.int) }
    ensures weight { IfOk result (λ table. is_some (seen_table table).weight ≡ by_weight) }
{
    Ok(TableDecl {
        name: Text::from_str(alloc, "t")?,
        kind,
        limit,
        indexes: Tys::new(alloc),
        element: Ty::Int,
        weight: if by_weight { Some(Ty::Int) } else { None },
    })
}

/// A table of whole numbers with one whole number as its index, and with whole numbers as weights where its kind needs them.
#[tactic(auto, using(sz_types::proofs::ForCallers::seen_int))]
pub(crate) fn indexed_table(
    alloc: Global,
    name: &str,
    kind: TableKind,
    limit: u32,
) -> Result<TableDecl, NoMemory>
    ensures element { IfOk result (λ table. (seen_table table).element ≡ Shape.int) }
    ensures indexes { IfOk result (λ table. (seen_table table).indexes ≡ Shape.int ∷ []) }
    ensures weights { IfOk result (λ table. HasItsWeights (seen_table table)) }
{
    let name = Text::from_str(alloc, name)?;
    let indexes = Tys::from_vec(vec![in alloc; Ty::Int]?);
    Ok(TableDecl {
        name,
        kind,
        limit,
        indexes,
        element: Ty::Int,
        weight: weights_of(kind),
    })
}

// The type of the weights that a kind of table needs.
fn weights_of(kind: TableKind) -> Option<Ty>
    ensures some { ranks kind ≡ true → is_some result ≡ true }
{
    match kind {
        TableKind::Maximum | TableKind::Minimum => Some(Ty::Int),
        TableKind::Sum | TableKind::Set | TableKind::Collection => None,
    }
}

/// The numbers of the rows: sums, or values, each with its weight after it if it has one, and -1000 for a full set.
pub(crate) fn numbers_in(alloc: Global, rows: &Rows) -> Result<Vec<i128>, NoMemory> {
    let mut numbers = Vec::new(alloc);
    for row in rows.as_slice() {
        add_numbers(&mut numbers, &row.value)?;
        if let Some(weight) = row.weight {
            numbers.push(i128::from(weight))?;
        }
    }
    Ok(numbers)
}

fn add_numbers(numbers: &mut Vec<i128>, value: &RowValue) -> Result<(), NoMemory> {
    match value {
        RowValue::One(Value::Int(number)) => numbers.push(i128::from(*number))?,
        RowValue::Sums(sums) => numbers.extend_from_slice(sums.as_slice())?,
        _ => numbers.push(-1000)?,
    }
    Ok(())
}

/// The numbers of the rows, where there are rows.
pub(crate) fn numbers_from(
    alloc: Global,
    rows: Result<Rows, NoMemory>,
) -> Result<Vec<i128>, NoMemory> {
    numbers_in(alloc, &rows?)
}

/// Whether the numbers are the same, where there are both.
pub(crate) fn are_same(
    want: Result<Vec<i128>, NoMemory>,
    found: Result<Vec<i128>, NoMemory>,
) -> Result<bool, NoMemory> {
    let (want, found) = with(want?, found)?;
    Ok(found == want)
}

/// Adds a whole number, with a weight where the table has weights.
pub(crate) fn add_number<A: Aggregator + Drop>(
    to: &mut A,
    number: i64,
    weight: Option<i64>,
) -> Result<(), NoMemory>
    requires fits { Fits (A.declaration to.old) (weighted (int number) weight) }
    requires room { A.count to.old < 2 ^ 63 }
    ensures same { OnOk result (A.declaration to.new ≡ A.declaration to.old) }
    ensures count { OnOk result (A.count to.new ≡ A.count to.old + 1) }
{
    to.add(&Value::Int(number), weight)
}

/// Two values, where there is the second: the first lies in this call alone while the second may be missing.
pub(crate) fn with<T: Drop, U>(first: T, second: Result<U, NoMemory>) -> Result<(T, U), NoMemory>
    ensures both { IfOk result (λ x. (x.0 ≡ first) × (second ≡ Ok x.1)) }
{
    match second {
        Ok(second) => Ok((first, second)),
        Err(error) => Err(error),
    }
}
