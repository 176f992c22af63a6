//! The ledger of a round that threads share by a lock.
ghost use Rattle.std.specs.Prelude.{◌≡◌, ◌+◌, ◌<◌, ◌^◌, length, replicate, IfOk, IfSome, IfNone};
ghost use Rattle.sz_book_rules.specs.History.{IsTrueReport};
ghost use Rattle.sz_book.specs.Books.{ShelfData, IsClaim, IsPlain, HaveNoShards, IsLeft};

use crate::NoMemory;
use crate::closed::Closed;
use crate::lane::Lane;
use crate::load::Load;
use crate::plan::Plan;
use crate::receipt::{Receipt, Settled};
use crate::shelf::Shelf;
use std::alloc::Global;
use std::marker::Model;
use std::sync::{Mutex, Wait};
use sz_book_rules::{Claim, Event, Reply};

/// The ledger of a round after one lock. Each call tests under the lock whether its event fits the state. If it does, it is taken in
/// and answered; if it doesn't, nothing changes.
///
/// Contracts see its plan. What the lock keeps is told by no call but the last one; what a call answers is compared with the plan.
pub struct Book<T: Load> {
    plan: Plan,
    shelf: Mutex<Shelf<T>>,
    // What `close` fills.
    settled: Vec<u64>,
    deaths: Vec<u64>,
}

impl<T: Load> Drop for Book<T> {
    fn drop(self) {
        let Book {
            plan: _,
            shelf: _,
            settled: _,
            deaths: _,
        } = self;
    }
}

impl<T: Load> Model for Book<T> {
    ghost use Rattle.std.specs.Prelude.{◌≡◌, length};
    ghost use Rattle.sz_book.specs.Books.{BookData};

    ghost Value = { BookData };

    ghost view = { λ book. record { plan = book.plan } };

    ghost invariant = { λ book. (length book.settled.items ≡ book.plan.shards) × (length book.deaths.items ≡ book.plan.shards) };
}

/// What a caller of a book holds. The first one can be split as often as there are passes to be made.
///
/// Contracts see how many passes may still be split off.
pub struct BookPass {
    left: u32,
}

impl Drop for BookPass {
    fn drop(self) {
        let BookPass { left: _ } = self;
    }
}

impl Model for BookPass {
    ghost use Rattle.sz_book.specs.Books.{BookPassData};

    ghost Value = { BookPassData };

    ghost view = { λ pass. record { left = pass.left } };
}

// A row of zeros, one for each shard.
fn blank(alloc: Global, count: u32) -> Result<Vec<u64>, NoMemory>
    ensures value { IfOk result (λ row. row.items ≡ replicate count 0) }
{
    vec![in alloc; 0u64; count as usize]
}

// The claim of a reply, if the plan has it.
fn claim_in(plan: &Plan, reply: Option<Reply>) -> Option<Claim>
    ensures claim { IfSome result (λ claim. IsClaim plan.now claim) }
{
    let Some(Reply::Ticket(Some(claim))) = reply else {
        return None;
    };
    if plan.names(&claim) {
        Some(claim)
    } else {
        None
    }
}

// The number of a reply, if it is one of the plan's.
fn number_in(plan: &Plan, reply: Option<Reply>) -> Option<u32>
    ensures number { IfSome result (λ number. number < plan.now.attempts) }
{
    let Some(Reply::Number(Some(number))) = reply else {
        return None;
    };
    if number < plan.attempts() {
        Some(number)
    } else {
        None
    }
}

impl<T: Load> Book<T> {
    ghost use Rattle.sz_book.specs.Answers.{IsWon};

    /// A book of this plan and these lanes, with its first pass. As many passes as `passes` can be made of it, the first one counted.
    /// All memory of the book is taken here.
    pub fn make(
        alloc: Global,
        plan: Plan,
        lanes: Vec<Lane<T>>,
        passes: u32,
    ) -> Result<(Book<T>, BookPass), NoMemory>
        requires passes { 0 < passes }
        requires few { length lanes.items < 2 ^ 32 }
        requires empty { HaveNoShards lanes.items }
        ensures value { IfOk result (λ r. (r.0.plan ≡ plan) × (r.1.left + 1 ≡ passes)) }
    {
        let settled = blank(alloc, plan.shards())?;
        let deaths = blank(alloc, plan.shards())?;
        let shelf = Shelf::new(alloc, &plan, lanes)?;
        let book = Book {
            plan,
            shelf: Mutex::new(shelf),
            settled,
            deaths,
        };
        Ok((book, BookPass { left: passes - 1 }))
    }

    /// Another pass, made of the first one. None where all passes were made.
    pub fn split<W: Wait>(&self, _rt: &W, pass: &mut BookPass) -> Option<BookPass>
        ensures none { IfNone result ((pass.old.left ≡ 0) × (pass.new ≡ pass.old)) }
        ensures some { IfSome result (λ other. (pass.new.left + 1 ≡ pass.old.left) × (other.left ≡ 0)) }
    {
        if pass.left == 0 {
            return None;
        }
        pass.left -= 1;
        Some(BookPass { left: 0 })
    }

    /// The first pass takes in another.
    pub fn join<W: Wait>(&self, _rt: &W, pass: &mut BookPass, other: BookPass)
        ensures kept { pass.new ≡ pass.old }
    {
        drop(other);
    }

    // Takes in an event that is of no lane, if it fits.
    fn ask<W: Wait>(&self, rt: &W, event: &Event) -> Option<Reply>
        requires plain { IsPlain event.now }
        requires report { IsTrueReport T.died T.is_bad event.now }
    {
        self.shelf.lock(rt).ask(event)
    }

    /// The next ticket. None where all are drawn.
    pub fn draw<W: Wait>(&self, rt: &W, pass: &mut BookPass) -> Option<Claim>
        ensures claim { IfSome result (λ claim. IsClaim self.now.plan claim) }
        ensures kept { pass.new ≡ pass.old }
    {
        claim_in(&self.plan, self.ask(rt, &Event::Draw))
    }

    /// The number of the next attempt on the claim's shard, counted from 0. None where all are given, or the claim was not drawn.
    pub fn number<W: Wait>(&self, rt: &W, pass: &mut BookPass, claim: &Claim) -> Option<u32>
        ensures number { IfSome result (λ number. number < self.now.plan.attempts) }
        ensures kept { pass.new ≡ pass.old }
    {
        number_in(&self.plan, self.ask(rt, &Event::Number(*claim)))
    }

    /// Reports that an attempt died.
    pub fn died<W: Wait>(&self, rt: &W, pass: &mut BookPass, claim: &Claim, number: u32)
        requires died { T.died claim.now.shard number }
        ensures kept { pass.new ≡ pass.old }
    {
        self.ask(rt, &Event::Died(*claim, number));
    }

    /// Settles the claim's shard by an attempt that ended with its emits. `Late` names the attempt that settled it before, or this one
    /// where the claim was not drawn or the number was not given for its shard.
    pub fn settle<W: Wait>(
        &self,
        rt: &W,
        pass: &mut BookPass,
        claim: &Claim,
        number: u32,
    ) -> Settled
        ensures won { IsWon result (λ receipt. receipt ≡ record { plan = self.now.plan; shard = claim.now.shard }) }
        ensures claim { IsWon result (λ _. IsClaim self.now.plan claim.now) }
        ensures kept { pass.new ≡ pass.old }
    {
        if !self.plan.names(claim) {
            return Settled::Late(number);
        }
        match self.ask(rt, &Event::Settle(*claim, number)) {
            Some(Reply::Won) => Settled::Won(Receipt::won(&self.plan, claim)),
            Some(Reply::Late(winner)) => Settled::Late(winner),
            _ => Settled::Late(number),
        }
    }

    /// Lends a lane, where it is home. None where it is out, or there is no such lane.
    pub fn lend<W: Wait>(&self, rt: &W, pass: &mut BookPass, lane_no: u32) -> Option<Lane<T>>
        ensures kept { pass.new ≡ pass.old }
    {
        self.shelf.lock(rt).lend(lane_no)
    }

    /// Gives back a lane. It is dropped where it isn't out, or where it doesn't have the shards that it was lent with, and after them
    /// further ones that are distinct, won and in no lane.
    pub fn give<W: Wait>(&self, rt: &W, pass: &mut BookPass, lane_no: u32, lane: Lane<T>)
        ensures kept { pass.new ≡ pass.old }
    {
        self.shelf.lock(rt).give(lane_no, lane);
    }

    /// Reports that a shard is bad: more of its records fault than may be passed over, and not all its attempts died. Shards are numbered
    /// from 0.
    pub fn bad<W: Wait>(&self, rt: &W, pass: &mut BookPass, shard: u32)
        requires bad { T.is_bad shard }
        ensures kept { pass.new ≡ pass.old }
    {
        self.ask(rt, &Event::Bad(shard));
    }

    /// What the book has at its end: the lanes that are home, and the rows of the state.
    pub fn close<W: Wait>(self, _rt: &W, _pass: BookPass) -> Closed<T>
        ensures rows { (length result.settled ≡ self.plan.shards) × (length result.deaths ≡ self.plan.shards) }
        ensures left { (shelf : ShelfData) × IsLeft T.died T.is_bad shelf result.lanes.items result.settled result.deaths result.least_bad }
    {
        let Book {
            plan: _,
            shelf,
            settled,
            deaths,
        } = self;
        shelf.into_inner().close(settled, deaths)
    }
}
