//! What a ledger is asked, and what it answers.
use crate::claim::Claim;
use std::collections::LinkedList;

/// What a caller asks of a ledger, or reports to it.
#[derive(Clone, Copy, Debug)]
pub enum Event {
    /// Asks for a ticket.
    Draw,
    /// Asks for the number of an attempt on the claim's shard.
    Number(Claim),
    /// The attempt with this number died.
    Died(Claim, u32),
    /// The attempt with this number ended with its emits.
    Settle(Claim, u32),
    /// Asks for the lane with this number.
    LaneOut(u32),
    /// Gives back the lane with this number.
    LaneBack(u32),
    /// The shard is bad: more of its records fault than may be passed over, and not all its attempts died.
    Bad(u32),
}

/// What the ledger answers. Attempts are counted from 0.
#[derive(Clone, Copy, Debug, PartialEq, Eq)]
pub enum Reply {
    /// A claim, or none where all tickets are drawn.
    Ticket(Option<Claim>),
    /// A number, or none where all are given.
    Number(Option<u32>),
    /// Taken down.
    Noted,
    /// The shard was not settled before.
    Won,
    /// The shard was settled by the attempt with this number.
    Late(u32),
    /// Whether the lane was home.
    Lane(bool),
}

/// One call of a history. No value of it is made: contracts speak of it.
pub struct Entry {
    /// The number of the caller.
    pub by: u32,
    pub event: Event,
    /// The shards that came with a lane.
    pub shards: LinkedList<u32>,
    pub reply: Reply,
}
