//! The plan of a round.
ghost use Rattle.std.specs.Prelude.{◌≡◌, ◌<◌, ◌^◌, slice_index, IfOk};
ghost use Rattle.sz_book_rules.specs.Plan.{PlanData, IsPlan, count_of};

use crate::NoMemory;
use std::alloc::Global;
use std::marker::Model;
use sz_book_rules::Claim;
use sz_list::Items;

/// The shard of each ticket. Tickets and shards are counted from 0.
///
/// Contracts see a list.
pub type Tickets = Items<u32>;

/// How many shards there are, how many attempts each may have, and the shard of each ticket.
///
/// The type keeps that there are 1 to 8 attempts and fewer than 2^32 tickets, that each ticket is of one of the shards, and that
/// each shard has one ticket or two.
pub struct Plan {
    shards: u32,
    attempts: u32,
    tickets: Tickets,
}

impl Drop for Plan {
    fn drop(self) {
        let Plan {
            shards: _,
            attempts: _,
            tickets: _,
        } = self;
    }
}

impl Model for Plan {
    ghost use Rattle.sz_book_rules.specs.Plan.{PlanData, IsPlan};

    ghost Value = { PlanData };

    ghost view = { λ plan. record { shards = plan.shards; attempts = plan.attempts; tickets = plan.tickets } };

    ghost invariant = { λ plan. IsPlan record { shards = plan.shards; attempts = plan.attempts; tickets = plan.tickets } };
}

impl Plan {
    ghost use Rattle.std.specs.Prelude.{◌↔◌, true};
    ghost use Rattle.sz_book.specs.Books.{IsClaim};

    /// A plan of these numbers. It takes no memory.
    pub fn new(shards: u32, attempts: u32, tickets: Tickets) -> Plan
        requires { IsPlan record { shards = shards; attempts = attempts; tickets = tickets } }
        ensures value { result ≡ record { shards = shards; attempts = attempts; tickets = tickets } }
    {
        Plan {
            shards,
            attempts,
            tickets,
        }
    }

    /// The same plan again.
    pub fn copied(&self, alloc: Global) -> Result<Plan, NoMemory>
        ensures value { IfOk result (λ plan. plan ≡ self.now) }
    {
        let tickets = Items::copied(alloc, self.tickets.as_slice())?;
        Ok(Plan {
            shards: self.shards,
            attempts: self.attempts,
            tickets,
        })
    }

    /// The number of shards.
    pub fn shards(&self) -> u32
        ensures value { result ≡ self.now.shards }
        ensures kept { IsPlan self.now }
    {
        self.shards
    }

    /// How many attempts a shard may have.
    pub fn attempts(&self) -> u32
        ensures value { result ≡ self.now.attempts }
    {
        self.attempts
    }

    /// The number of tickets.
    pub fn ticket_count(&self) -> usize
        ensures value { result ≡ count_of self.now }
        ensures within { result < 2 ^ 32 }
    {
        self.tickets.len()
    }

    /// The shard of a ticket.
    pub fn shard_of(&self, ticket: usize) -> u32
        requires within { ticket < count_of self.now }
        ensures value { result ≡ slice_index self.now.tickets ticket }
    {
        *self.tickets.get(ticket)
    }

    /// Whether the claim is of one of the plan's tickets, with its shard.
    pub fn names(&self, claim: &Claim) -> bool
        ensures claim { (result ≡ true) ↔ IsClaim self.now claim.now }
        ensures within { result ≡ true → claim.now.shard < self.now.shards }
    {
        let index = claim.ticket as usize;
        index < self.tickets.len() && *self.tickets.get(index) == claim.shard
    }
}
