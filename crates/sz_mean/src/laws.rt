//! Laws of the definitions, each a function that does nothing and whose contract is the law.
ghost use Rattle.std.specs.Prelude.{◌≡◌, ◌≤◌, ℕ, List, length};
ghost use Rattle.sz_tabs.specs.Data.{EmitDatum};
ghost use Rattle.sz_world_rules.specs.World.{Done};
ghost use Rattle.sz_world_rules.specs.Slots.{Slot};
ghost use Rattle.sz_mean.specs.Marked.{Marked};
ghost use Rattle.sz_mean.specs.Programs.{mean};

/// A record has at most as many emits as its budget has ticks: each takes one.
pub fn each_emit_takes_a_tick()
    ensures few { (program : Marked) (slots : List Slot) (budget : ℕ) (input : List ℕ) (emits : List EmitDatum)
        → mean program slots budget input ≡ Done emits → length emits ≤ budget }
{}
