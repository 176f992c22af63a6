//! Laws of the definitions, each a function that does nothing and whose contract is the law.
ghost use Rattle.std.specs.Prelude.{◌≡◌, ◌++◌, [], ℕ, List};
ghost use Rattle.sz_types.specs.Tables.{Declaration};
ghost use Rattle.sz_value.specs.Data.{Datum};
ghost use Rattle.sz_value.specs.Order.{compare};
ghost use Rattle.sz_tabs.specs.Data.{EmitDatum, Weighted};
ghost use Rattle.sz_tabs.specs.Sorting.{distinct};
ghost use Rattle.sz_tabs.specs.Rows.{brought_to, least_first, greatest_first, rows_of};
ghost use Rattle.sz_tabs.specs.Laws.{Sorts, IsSetOf, ForgetsOrder, DecidedByRows, JoinedByRows};

/// What is sorted by value, or by weight and then by value, is in order and has just the elements that were there.
pub fn sorting_sorts()
    ensures values { (values : List Datum) → Sorts compare values }
    ensures least { (brought : List Weighted) → Sorts least_first brought }
    ensures greatest { (brought : List Weighted) → Sorts greatest_first brought }
{}

/// The distinct values rise, and they are just the values.
pub fn distinct_values_are_a_set()
    ensures set { (values : List Datum) → IsSetOf values (distinct compare values) }
{}

/// Where nothing was emitted there are no rows.
#[tactic(auto, using(crate::proofs::RowsLemmas::no_rows))]
pub fn nothing_has_no_rows()
    ensures none { (table : Declaration) → rows_of table [] ≡ [] }
{}

/// What two lists of emits bring to a table under an index list is what the one brings and then what the other brings.
#[tactic(auto, using(crate::proofs::RowsLemmas::brought_by_both))]
pub fn emits_join()
    ensures joined { (table : ℕ) (indexes : List Datum) (front later : List EmitDatum)
        → brought_to table indexes (front ++ later) ≡ brought_to table indexes front ++ brought_to table indexes later }
{}

/// The rows are the same in whatever order the emits came.
#[tactic(auto, using(crate::proofs::RowsLemmas::rows_in_any_order))]
pub fn rows_forget_the_order()
    ensures same { ForgetsOrder }
{}

/// Lists with the same rows still have the same rows after the same further emits, and so do lists that are joined with lists of
/// the same rows: an aggregator may forget all but what the rows need.
#[tactic(auto, using(crate::proofs::JoiningLemmas::rows_decide, crate::proofs::JoiningLemmas::rows_join))]
pub fn rows_decide()
    ensures joined { DecidedByRows }
    ensures both { JoinedByRows }
{}
