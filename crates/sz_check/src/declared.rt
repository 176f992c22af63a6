//! Declared variables, with a first value or without.
ghost use Rattle.std.specs.Prelude.{◌≡◌};
ghost use Rattle.std.specs.Option.{option_map};
ghost use Rattle.sz_tree.specs.Statements.{declare};
ghost use Rattle.sz_tree.specs.View.{tree_of, type_of};
ghost use Rattle.sz_check_rules.specs.JudgingStatements.{Around, judge_stm};
ghost use Rattle.sz_check_names.specs.Knowledge.{scene_of};
ghost use Rattle.sz_check.specs.Later.{after_of};
ghost use Rattle.sz_check_names.specs.Outcome.{Judges};

use crate::simple::{judge_declaration, judge_initialised};
use sz_check_names::{Known, Verdict};
use sz_core::CoreStmt;
use sz_tree::{Expr, Name, TypeTree};

// `name: type;`, or `name: type = e;`, wherever it stands.
#[tactic(auto, unfolding(sz_check_rules::specs::JudgingStatements::judge_stm))]
pub fn judge_declared(
    known: &mut Known,
    name: &Name,
    tree: &TypeTree,
    value: &Option<Expr>,
) -> Verdict<CoreStmt>
    ensures value { (a : Around) → Judges (λ s. after_of known.new s) result
        (judge_stm a (scene_of known.old) (declare name.now (type_of tree.now) (option_map tree_of value.now))) }
    ensures outside { known.new.outside ≡ known.old.outside }
{
    match value {
        Some(value) => judge_initialised(known, name, tree, value),
        None => judge_declaration(known, name, tree),
    }
}
