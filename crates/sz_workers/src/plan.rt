//! The plan of a round.
ghost use Rattle.std.specs.Prelude.{◌≡◌, ◌+◌, ◌<◌, ◌≤◌, ◌++◌, ◌^◌, IfOk, OnOk};
ghost use Rattle.sz_workers.specs.Rounds.{IsRound};
ghost use Rattle.sz_workers.specs.RoundTickets.{IsPlanOf, tickets_for, tickets_upto};
ghost use Rattle.sz_words.specs.Lists.{is_among};

use crate::round::Round;
use std::alloc::Global;
use sz_attempt::Job;
use sz_book::{Plan, Tickets};
use sz_list::Items;
use sz_value::NoMemory;

/// The plan of a round: tickets in order of shards, the two of a doubled shard side by side.
pub fn plan_of(alloc: Global, job: &Job, round: &Round) -> Result<Plan, NoMemory>
    requires attempts { (1 ≤ job.now.attempts) × (job.now.attempts ≤ 8) }
    requires round { IsRound round.now }
    ensures value { IfOk result (λ plan. IsPlanOf job.now round.now plan) }
{
    let shards = round.shards.len();
    let tickets = tickets_of(alloc, job.twice.as_slice(), round.first_shard, shards)?;
    Ok(Plan::new(shards as u32, job.attempts, tickets))
}

// The tickets of so many shards, of which the first has this number.
fn tickets_of(alloc: Global, twice: &[u32], first: u64, shards: usize) -> Result<Tickets, NoMemory>
    requires few { shards ≤ 4096 }
    requires numbers { first + shards ≤ 2 ^ 31 + 1 }
    ensures value { IfOk result (λ tickets. tickets ≡ tickets_upto twice.now first shards) }
{
    let mut tickets = Items::new(alloc);
    for shard in 0..shards {
        let doubled = is_doubled(twice, first + shard as u64);
        add_tickets(&mut tickets, shard as u32, doubled)?;
    }
    Ok(tickets)
}

// Adds the ticket of a shard, and a second one where it is doubled.
fn add_tickets(tickets: &mut Tickets, shard: u32, doubled: bool) -> Result<(), NoMemory>
    ensures value { OnOk result (tickets.new ≡ tickets.old ++ tickets_for doubled shard) }
{
    tickets.push(shard)?;
    if doubled {
        tickets.push(shard)?;
    }
    Ok(())
}

// Whether the shard has a second ticket.
fn is_doubled(twice: &[u32], shard: u64) -> bool
    ensures value { result ≡ is_among shard twice.now }
{
    for other in twice {
        if u64::from(*other) == shard {
            return true;
        }
    }
    false
}
