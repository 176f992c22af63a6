//! A ledger that keeps the history that led to its state.
ghost use Rattle.std.specs.Prelude.{◌≡◌, ◌≢◌, ◌↔◌, ◌+◌, ◌<◌, ◌≤◌, ℕ, List, true, [], ◌∷◌, ◌++◌, drop, length, slice_index, vec_len, vec_capacity, IfOk, IfSome, IfNone};
ghost use Rattle.sz_book_rules.specs.Machine.{opening, Fits, list_of};
ghost use Rattle.sz_book_rules.specs.History.{IsTrueReport};

use crate::NoMemory;
use crate::change::Change;
use crate::load::Load;
use crate::machine::Core;
use crate::plan::Plan;
use crate::reserved::Reserved;
use std::alloc::Global;
use std::marker::{Model, PhantomData};
use sz_book_rules::{Event, Reply};

/// The ledger of a round with its history: each call that changed more than which lanes are out.
///
/// Contracts see its plan, the number of its lanes, the state of the machine and the history. The type keeps that the history replays
/// to the state, that each noted death is of an attempt that died, and that the least shard marked bad is bad, by the meanings of `T`.
pub struct Held<T: Load> {
    core: Core,
    changes: Vec<Change>,
    /// The shards that came with the changes, after one another.
    brought: Reserved,
    meanings: PhantomData<T>,
}

impl<T: Load> Drop for Held<T> {
    fn drop(self) {
        let Held {
            core: _,
            changes: _,
            brought: _,
            meanings: _,
        } = self;
    }
}

impl<T: Load> Model for Held<T> {
    ghost use Rattle.std.specs.Prelude.{vec_capacity};
    ghost use Rattle.sz_book.specs.Held.{HeldData, held_data, KeepsHistory};

    ghost Value = { HeldData };

    ghost view = { λ held. held_data held.core held.changes.items held.brought };

    ghost invariant = { λ held. KeepsHistory T.died T.is_bad held.core held.changes.items held.brought (vec_capacity held.changes) };
}

// Puts a change after the others, with the shards that came with it.
fn note(
    changes: &mut Vec<Change>,
    brought: &mut Reserved,
    event: &Event,
    reply: Reply,
    shards: &[u32],
)
    requires room { vec_len changes.old < vec_capacity changes.old }
    requires space { length brought.old.shards + length shards.now ≤ brought.old.room }
    ensures changes { changes.new.items ≡ changes.old.items ++ (record { event = event.now; reply = reply; shards = length shards.now }) ∷ [] }
    ensures brought { brought.new ≡ record { room = brought.old.room; shards = brought.old.shards ++ shards.now } }
    ensures capacity { vec_capacity changes.new ≡ vec_capacity changes.old }
{
    changes.push_reserved(Change {
        event: *event,
        reply,
        shards: shards.len(),
    });
    brought.add(shards);
}

impl<T: Load> Held<T> {
    ghost use Rattle.sz_book.specs.Books.{Shows};
    ghost use Rattle.sz_book.specs.Held.{Applies, Replays};

    /// A ledger at the opening of a round: nothing was drawn or given yet, and all lanes are home and empty. All memory is taken here.
    pub fn new(alloc: Global, plan: &Plan, lanes: u32) -> Result<Held<T>, NoMemory>
        ensures value { IfOk result (λ held. held ≡ record { plan = plan.now; lanes = lanes; state = opening plan.now lanes; history = [] }) }
    {
        let shards = plan.shards() as usize;
        let most = plan.ticket_count() + shards * (2 * plan.attempts() as usize + 3);
        let core = Core::new(alloc, plan, lanes)?;
        let changes = Vec::with_capacity(alloc, most)?;
        let brought = Reserved::new(alloc, shards)?;
        Ok(Held {
            core,
            changes,
            brought,
            meanings: PhantomData,
        })
    }

    /// Whether the event fits the state, with the shards that come with a lane. None come with any other event.
    pub fn fits(&self, event: &Event, shards: &[u32]) -> bool
        ensures fits { (result ≡ true) ↔ Fits self.now.plan self.now.state 0 event.now shards.now }
        ensures kept { Replays T.died T.is_bad self.now }
    {
        self.core.fits_with(event, shards)
    }

    /// How many shards the lane has, where these begin with them. None where they don't.
    pub fn count_in(&self, lane: u32, shards: &[u32]) -> Option<usize>
        ensures some { IfSome result (λ n. (n ≤ length shards.now) × (shards.now ≡ list_of self.now.state lane ++ drop n shards.now)) }
        ensures none { IfNone result ((more : List ℕ) → shards.now ≢ list_of self.now.state lane ++ more) }
    {
        self.core.count_in(lane, shards)
    }

    /// Takes in one event, with the shards that come with a lane, and answers it. It takes no memory.
    pub fn apply(&mut self, event: &Event, shards: &[u32]) -> Reply
        requires fits { Fits self.old.plan self.old.state 0 event.now shards.now }
        requires report { IsTrueReport T.died T.is_bad event.now }
        ensures applied { Applies self.old event.now shards.now result self.new }
    {
        let is_change = self.core.is_change(event, shards);
        let reply = self.core.take(event, shards);
        if is_change {
            note(&mut self.changes, &mut self.brought, event, reply, shards);
        }
        reply
    }

    /// Fills the rows with the winners and the deaths, as far as the rows go, and gives the least bad shard. A winner is told as 1 more
    /// than its number.
    pub fn show(&self, winners: &mut Vec<u64>, deaths: &mut Vec<u64>) -> Option<u32>
        ensures rows { (length winners.new.items ≡ length winners.old.items) × (length deaths.new.items ≡ length deaths.old.items) }
        ensures shows { Shows self.now.state winners.new.items deaths.new.items result }
        ensures kept { Replays T.died T.is_bad self.now }
    {
        copy_row(self.core.winners(), winners);
        copy_row(self.core.deaths(), deaths);
        self.core.least_bad()
    }
}

// The number at a place, or 0 after the row.
fn number_at(row: &[u32], index: usize) -> u64
    ensures value { result ≡ slice_index row.now index }
{
    match row.get(index) {
        Some(number) => u64::from(*number),
        None => 0,
    }
}

// Writes a row over another, as far as that one goes.
fn copy_row(row: &[u32], into: &mut Vec<u64>)
    ensures length { length into.new.items ≡ length into.old.items }
    ensures value { (s : ℕ) → s < length into.new.items → slice_index into.new.items s ≡ slice_index row.now s }
{
    for i in 0..into.len() {
        into[i] = number_at(row, i);
    }
}
