//! Declarations of tables under their names.
ghost use Rattle.sz_types.specs.SeenTables.{seen_table};
ghost use Rattle.sz_tree.specs.View.{table_of};
ghost use Rattle.sz_check_rules.specs.JudgingPrograms.{declare_table, judge_table};
ghost use Rattle.sz_check.specs.Top.{found_one, top_of};
ghost use Rattle.sz_check_names.specs.Outcome.{Judges};

use crate::top::Top;
use sz_check_emits::judge_table_declaration;
use sz_check_names::{Cause, JudgeError, Meaning, Verdict};
use sz_core::Item;
use sz_tree::{Name, Table};
use sz_types::{TableDecl, copy_table};

// The most tables of a program.
const MOST_TABLES: u32 = 64;

// A table under its name, with the next number.
fn declare_table(top: &mut Top, name: &Name, table: TableDecl) -> Verdict<Item>
    ensures value { Judges (λ i. found_one top.new i) result (declare_table (top_of top.old) name.now (seen_table table)) }
{
    if top.tables >= MOST_TABLES {
        return Err(JudgeError::at(Cause::TooMany, name.place()));
    }
    let meaning = Meaning::Table(top.tables, copy_table(top.known.alloc(), &table)?);
    top.known.declare(name, meaning)?;
    top.tables += 1;
    Ok(Item::Table(table))
}

// `name: table kind (limit) [index].. of element weight weight;`
pub fn judge_table(top: &mut Top, name: &Name, tree: &Table) -> Verdict<Item>
    ensures value { Judges (λ i. found_one top.new i) result (judge_table (top_of top.old) name.now (table_of tree.now)) }
{
    let table = judge_table_declaration(&top.known, name, tree)?;
    declare_table(top, name, table)
}
