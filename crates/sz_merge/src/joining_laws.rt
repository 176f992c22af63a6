//! The laws.
ghost use Rattle.sz_merge.specs.JoiningLaws.{IsCommutative, IsAssociative, ForgetsOrder, HasOneSpelling, JoinsRows, JoinsTables, AddsEmits};
ghost use Rattle.sz_merge.specs.Runs.{JoinsRuns, HasBytesOfOne, HasTextOfOne};

use sz_print::rows_have_the_text_of_their_emits;
use sz_total::{a_table_shows_its_indexes, tables_forget_the_order};

/// Either of two states may be joined to the other, and of three states either two may be joined first. So any number of states
/// are one state together, with the same bytes, in whatever order they are joined.
pub fn joining_forgets_the_order()
    ensures either { IsCommutative }
    ensures grouped { IsAssociative }
    ensures all { ForgetsOrder }
    ensures bytes { HasOneSpelling }
{}

/// The rows of emits and the rows of later emits are, joined, the rows of all of them, and so are whole tables. So the states of any
/// parts of the emits are together the state of all of them, in whatever order these came.
pub fn joining_adds_emits()
    ensures rows { JoinsRows }
    ensures tables { JoinsTables }
    ensures states { AddsEmits }
{
    a_table_shows_its_indexes();
    tables_forget_the_order();
}

/// What is saved of runs of one program is, joined in whatever order, what is saved of one run that brings all that they bring, in
/// whatever order. So it has the bytes of that run, and its text.
pub fn saved_runs_join()
    ensures state { JoinsRuns }
    ensures bytes { HasBytesOfOne }
    ensures text { HasTextOfOne }
{
    joining_adds_emits();
    rows_have_the_text_of_their_emits();
}
