//! Rounds of shards, run by several threads: the rounds and their plans, what one worker does with the ledger that all share, and all of
//! them together.
#![tactic(auto)]

mod attempts;
mod closing;
mod first_faults;
mod loop_laws;
mod maker;
mod making;
mod part;
mod plan;
mod pool;
mod round;
mod round_end;
mod round_laws;
mod round_run;
mod worker;
mod working;

pub use closing::close_all;
pub use loop_laws::orderly_callers_are_orderly;
pub use maker::{Maker, Missed};
pub use part::{RoundName, RoundPart};
pub use plan::plan_of;
pub use round::{Round, RoundEnd};
pub use round_laws::{
    cuts_make_rounds, emits_of_shards_are_those_of_all_records, records_decide_without_kills,
    rounds_follow_each_other, the_first_shard_decides,
};
pub use round_run::run_round;
pub use worker::work;
pub use working::run_tickets;
