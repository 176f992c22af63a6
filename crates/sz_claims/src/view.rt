//! What a pass knows. No value of these types is made.
use std::collections::LinkedList;
use sz_book::{Entry, Plan};

/// A pass that was joined, and the calls that it had made.
pub struct Account {
    pub number: u32,
    pub calls: LinkedList<Entry>,
}

/// What a pass knows of the history.
pub struct View {
    /// How many passes it stands for. A spent view has 0.
    pub weight: u32,
    pub number: u32,
    /// At the first pass: how many passes were made.
    pub made: u32,
    pub plan: Plan,
    /// How many lanes there are.
    pub lanes: u32,
    /// A beginning of the history.
    pub seen: LinkedList<Entry>,
    /// What a pass that was just joined had seen.
    pub told: LinkedList<Entry>,
    /// Its own calls.
    pub mine: LinkedList<Entry>,
    /// At the first pass: those that were joined.
    pub joined: LinkedList<Account>,
    /// 0, or 1 more than the number of the lane that it holds.
    pub lane: u32,
    /// The shards of that lane when it was lent.
    pub lent: LinkedList<u32>,
}
