//! Laws of the definitions, each a function that does nothing and whose contract is the law.
ghost use Rattle.std.specs.Prelude.{◌≡◌, ℕ, List, All};
ghost use Rattle.sz_tabs.specs.Data.{EmitDatum};
ghost use Rattle.sz_tabs.specs.Fitting.{IsEmitTo};
ghost use Rattle.sz_instr.specs.declared.code.Code.{Code};
ghost use Rattle.sz_world_rules.specs.World.{Outcome, Done};
ghost use Rattle.sz_world_rules.specs.Slots.{Slot};
ghost use Rattle.sz_instr.specs.Runs.{RunsTo, StaticsRunTo};

/// A run for a record has one outcome, and so have the runs of the statics: the machine leaves nothing open.
pub fn a_run_ends_in_one_way()
    ensures one { (code : Code) (input : List ℕ) (statics : List Slot) (budget : ℕ) (one other : Outcome (List EmitDatum))
        → RunsTo code input statics budget one → RunsTo code input statics budget other → one ≡ other }
    ensures statics { (code : Code) (budget : ℕ) (one other : Outcome (List Slot))
        → StaticsRunTo code budget one → StaticsRunTo code budget other → one ≡ other }
{}

/// What a run for a record emits fits the tables of the code: each emit goes to one of them, and its indexes, its value and its weight
/// fit the declaration.
pub fn a_run_emits_what_fits()
    ensures fit { (code : Code) (input : List ℕ) (statics : List Slot) (budget : ℕ) (emits : List EmitDatum)
        → RunsTo code input statics budget (Done emits) → All (IsEmitTo code.tables) emits }
{}
