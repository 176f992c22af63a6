//! Small plans.
ghost use Rattle.std.specs.Prelude.{◌≡◌, IfOk};
ghost use Rattle.sz_book_rules.specs.Plan.{IsPlan};

use std::alloc::Global;
use sz_book::{Claim, NoMemory, Plan};
use sz_list::Items;

/// One shard with two tickets and two attempts.
pub fn two_tickets(alloc: Global) -> Result<Plan, NoMemory>
    ensures value { IfOk result (λ plan. IsPlan plan × (plan.shards ≡ 1)) }
{
    let tickets = Items::copied(alloc, &[0u32, 0])?;
    Ok(Plan::new(1, 2, tickets))
}

/// One shard with one ticket and two attempts.
pub fn one_ticket(alloc: Global) -> Result<Plan, NoMemory>
    ensures value { IfOk result (λ plan. IsPlan plan × (plan.shards ≡ 1)) }
{
    let tickets = Items::copied(alloc, &[0u32])?;
    Ok(Plan::new(1, 2, tickets))
}

/// Four shards with one ticket and one attempt each.
pub fn four_shards(alloc: Global) -> Result<Plan, NoMemory>
    ensures value { IfOk result (λ plan. IsPlan plan × (plan.shards ≡ 4)) }
{
    let tickets = Items::copied(alloc, &[0u32, 1, 2, 3])?;
    Ok(Plan::new(4, 1, tickets))
}

/// Four shards with one ticket or two, and two attempts each.
pub fn six_tickets(alloc: Global) -> Result<Plan, NoMemory>
    ensures value { IfOk result (λ plan. IsPlan plan × (plan.shards ≡ 4)) }
{
    let tickets = Items::copied(alloc, &[0u32, 1, 1, 2, 3, 0])?;
    Ok(Plan::new(4, 2, tickets))
}

/// Which of these plans.
#[derive(Clone, Copy)]
pub enum Small {
    TwoTickets,
    OneTicket,
    FourShards,
}

pub fn plan_of(alloc: Global, small: Small) -> Result<Plan, NoMemory> {
    match small {
        Small::TwoTickets => two_tickets(alloc),
        Small::OneTicket => one_ticket(alloc),
        Small::FourShards => four_shards(alloc),
    }
}

/// The claim of the first ticket of shard 0.
pub const FIRST: Claim = Claim {
    ticket: 0,
    shard: 0,
};

/// The claim of the second one, of two tickets of one shard.
pub const SECOND: Claim = Claim {
    ticket: 1,
    shard: 0,
};
