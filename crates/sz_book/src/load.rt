//! What stands for shards.
ghost use Rattle.std.specs.Prelude.{◌≡◌, ◌++◌, ℕ, List, OnOk, IfErr};
ghost use Rattle.sz_book_rules.specs.Plan.{PlanData};
ghost use Rattle.sz_book_rules.specs.History.{AreApart};

/// A value that stands for a list of shards, such as the emits of them all. Shards are those of a plan, and numbered from 0.
pub trait Load: Sized + Drop {
    /// Which attempts of each shard died: of the number of a shard and that of an attempt, both counted from 0.
    ghost died: { ℕ → ℕ → Type 0 };

    /// Which shards are bad, by their numbers from 0: more of their records fault than may be passed over, and not all their attempts died.
    ghost is_bad: { ℕ → Type 0 };

    /// The plan of a value.
    ghost plan: { Self → PlanData };

    /// The value stands for these shards.
    ghost stands: { Self → List ℕ → Type 0 };

    /// Takes in another value, which stands for other shards of the same plan. `Err` hands it back where there was no memory, and then both are
    /// as before.
    fn absorb(&mut self, part: Self) -> Result<(), Self>
        requires plan { plan self.old ≡ plan part }
        requires apart { (ss : List ℕ) × (ts : List ℕ) × stands self.old ss × stands part ts × AreApart ss ts }
        ensures ok { OnOk result ((plan self.new ≡ plan self.old) × ((ss ts : List ℕ) → stands self.old ss
            → stands part ts → AreApart ss ts → stands self.new (ss ++ ts))) }
        ensures err { IfErr result (λ back. (back ≡ part) × (self.new ≡ self.old)) };
}
