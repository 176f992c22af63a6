//! Laws of the definitions, each a function that does nothing and whose contract is the law.
ghost use Rattle.std.specs.Prelude.{◌≡◌, ◌↔◌, ◌≤◌, ◌*◌, ℕ, List, length, true, Some};
ghost use Rattle.std.specs.List.{Contains};
ghost use Rattle.sz_words.specs.Lists.{kills_in};
ghost use Rattle.sz_words.specs.declared.settings.Kill.{Kill};
ghost use Rattle.sz_attempt.specs.declared.job.Job.{Job};
ghost use Rattle.sz_attempt.specs.Shards.{ShardData};
ghost use Rattle.sz_attempt.specs.Yields.{means};
ghost use Rattle.sz_attempt.specs.Attempts.{dies, living_end, end_of, shard_means, is_lost, DiedAfter, HasDied, IsLost};

/// An attempt ends by a death just where it died as the kill list says; one that didn't die gives the emits of the shard's records that
/// don't fault and the records that do, or the first of too many.
pub fn attempts_end_as_listed()
    ensures died { (job : Job) (shard : ShardData) (k j : ℕ) → end_of job shard k ≡ dies j → DiedAfter job shard k j }
    ensures first { (job : Job) (shard : ShardData) (k i : ℕ) → DiedAfter job shard k i → (j : ℕ) × (end_of job shard k ≡ dies j) × (j ≤ i) }
    ensures lives { (job : Job) (shard : ShardData) (k : ℕ) → ¬ HasDied job shard k → end_of job shard k ≡ living_end job.skip (shard_means job shard) }
{}

/// A shard is lost where all its attempts died.
pub fn shards_are_lost_with_all_attempts()
    ensures lost { (job : Job) (shard : ShardData) → (is_lost job shard ≡ true) ↔ IsLost job shard }
{}

/// The kills that words name are of different attempts: so of an attempt's kills there is one.
pub fn kills_are_of_different_attempts()
    ensures once { (text : List ℕ) (kills : List Kill) (s k i j : ℕ) → kills_in text ≡ Some kills
        → Contains kills (record { shard = s; number = k; after = i }) → Contains kills (record { shard = s; number = k; after = j }) → i ≡ j }
{}

/// Records have at most as many emits as they may take ticks.
pub fn emits_of_records_are_few()
    ensures few { (job : Job) (first : ℕ) (records : List (List ℕ)) → length (means job first records).emits ≤ job.budget * length records }
{}
