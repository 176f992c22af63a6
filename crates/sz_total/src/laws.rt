//! Laws of the definitions, each a function that does nothing and whose contract is the law.
ghost use Rattle.std.specs.Prelude.{◌≡◌, ℕ, List, []};
ghost use Rattle.sz_types.specs.Tables.{Declaration};
ghost use Rattle.sz_tabs.specs.Data.{EmitDatum};
ghost use Rattle.sz_total.specs.Tables.{table_rows};
ghost use Rattle.sz_total.specs.Laws.{ShowsItsIndexes, ForgetsOrder};
ghost use Rattle.sz_total.specs.Typed.{FitsAsItsEmits};

/// The index lists with rows rise in value order, and are just those of the emits to the table.
pub fn a_table_shows_its_indexes()
    ensures shown { (table : ℕ) (declaration : Declaration) (emits : List EmitDatum) → ShowsItsIndexes table declaration emits }
{}

/// Where nothing was emitted no table has rows.
pub fn no_emits_no_rows()
    ensures none { (table : ℕ) (declaration : Declaration) → table_rows table declaration [] ≡ [] }
{}

/// The rows of tables are the same in whatever order the emits came.
#[tactic(auto, using(crate::proofs::TablesLemmas::tables_in_any_order))]
pub fn tables_forget_the_order()
    ensures same { ForgetsOrder }
{}

/// What tables show of emits that fit them fits them too: the index lists have the declared types, and the values the element type.
pub fn what_is_shown_fits()
    ensures fits { FitsAsItsEmits }
{}
