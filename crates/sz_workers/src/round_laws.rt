//! Laws of the definitions, each a function that does nothing and whose contract is the law.
ghost use Rattle.std.specs.Prelude.{◌≡◌, ◌≤◌, ◌+◌, ◌++◌, [], ℕ, List, length};
ghost use Rattle.sz_tabs.specs.Data.{EmitDatum};
ghost use Rattle.sz_attempt.specs.declared.job.Job.{Job};
ghost use Rattle.sz_attempt.specs.Shards.{ShardData};
ghost use Rattle.sz_attempt.specs.Yields.{means};
ghost use Rattle.sz_workers.specs.Outcomes.{emitted, outcome_from, then_outcome, of_records, IsOutcome, FollowFrom, all_records};
ghost use Rattle.sz_workers.specs.Cuts.{CutsMakeRounds};

/// The first of the shards that is lost, or up to which more records fault than may be passed over, decides: by its number, or by the first
/// record too many. Where none does, all give their emits.
pub fn the_first_shard_decides()
    ensures first { (job : Job) (passed : ℕ) (shards : List ShardData) → passed ≤ job.skip → IsOutcome job passed shards (outcome_from job passed shards) }
{}

/// What comes of shards in front and of those after them is what comes of them all: so rounds may be run one after the other.
pub fn rounds_follow_each_other()
    ensures joined { (job : Job) (passed : ℕ) (front back : List ShardData)
        → outcome_from job passed (front ++ back) ≡ then_outcome (outcome_from job passed front) (λ n. outcome_from job (passed + n) back) }
{}

/// Where no shard decides, the emits of the shards are those of all records that don't fault, in order, and so many records fault.
pub fn emits_of_shards_are_those_of_all_records()
    ensures whole { (job : Job) (passed first : ℕ) (shards : List ShardData) (emits : List EmitDatum) (n : ℕ) → FollowFrom first shards
        → outcome_from job passed shards ≡ emitted emits n
        → ((means job first (all_records shards)).emits ≡ emits) × (length (means job first (all_records shards)).faults ≡ n) }
{}

/// The shards that records are cut into are those of rounds, one after the other, and have all the records.
pub fn cuts_make_rounds()
    ensures rounds { CutsMakeRounds }
{}

/// Without kills no shard is lost: what comes of shards is what the program means for all their records.
pub fn records_decide_without_kills()
    ensures alike { (job : Job) (passed first : ℕ) (shards : List ShardData) → job.kills ≡ [] → 1 ≤ job.attempts → passed ≤ job.skip
        → FollowFrom first shards
        → outcome_from job passed shards ≡ of_records job.skip passed (means job first (all_records shards)) }
{}
