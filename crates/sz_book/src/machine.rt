//! The ledger as a value of one thread.
ghost use Rattle.std.specs.Prelude.{◌≡◌, ◌≢◌, ◌==◌, ◌↔◌, ◌<◌, ◌≤◌, ◌^◌, ◌++◌, ℕ, List, true, not, nat_lt, [], drop, length, replicate, slice_index, IfOk, IfSome, IfNone, OnErr};
ghost use Rattle.std.specs.Int.{bit_at};
ghost use Rattle.sz_book_rules.specs.Machine.{opening, IsDrawn, IsTried, IsReturned, AreUnplaced, Fits, list_of, placed};
ghost use Rattle.sz_book.specs.Cores.{Takes, TakesWith, GoesOn, IsAllowed, IsSound, is_unplaced_after, least_or_none, brought, marked_from};
ghost use Rattle.sz_book.specs.Held.{is_change};
ghost use Rattle.sz_book_rules.specs.declared.event.Event.TheVariants as events;
ghost use Rattle.sz_book_rules.specs.declared.event.Reply.TheVariants as replies;

use crate::NoMemory;
use crate::lane::Shards;
use crate::plan::Plan;
use crate::reserved::Reserved;
use std::alloc::Global;
use std::marker::Model;
use sz_book_rules::{Claim, Event, Reply};
use sz_list::Items;

/// Numbers, one for each shard or lane.
type Row = Items<u32>;

/// The ledger of a round as a value, for one caller. A lane that comes back takes all shards that are in none.
///
/// Contracts see its plan, the number of its lanes and the state of the machine.
pub struct Core {
    plan: Plan,
    drawn: u32,
    /// For each shard, how many numbers were given.
    given: Row,
    /// For each shard, the attempts whose deaths were noted: bit k is attempt k, counted from 0.
    deaths: Row,
    /// For each shard 0, or 1 more than the winner.
    winners: Row,
    /// For each shard, 1 where it was won and is in no lane.
    unplaced: Row,
    least_bad: Option<u32>,
    /// For each lane, 1 where it is out.
    outs: Row,
    /// For each lane, its shards, with room for all.
    lists: Vec<Reserved>,
    alloc: Global,
}

impl Drop for Core {
    fn drop(self) {
        let Core {
            plan: _,
            drawn: _,
            given: _,
            deaths: _,
            winners: _,
            unplaced: _,
            least_bad: _,
            outs: _,
            lists: _,
            alloc: _,
        } = self;
    }
}

impl Model for Core {
    ghost use Rattle.std.specs.Prelude.{length, map};
    ghost use Rattle.sz_book.specs.Cores.{CoreData, core_data, IsKept};

    ghost Value = { CoreData };

    ghost view = { λ core. core_data core.plan core.drawn core.given core.deaths core.winners core.unplaced
        core.least_bad core.outs (map (λ list. list.shards) core.lists.items) };

    ghost invariant = { λ core. IsKept core.plan (core_data core.plan core.drawn core.given core.deaths core.winners
        core.unplaced core.least_bad core.outs (map (λ list. list.shards) core.lists.items)).state core.lists.items };
}

// So many zeros.
fn zeros(alloc: Global, count: u32) -> Result<Row, NoMemory>
    ensures value { IfOk result (λ row. row ≡ replicate count 0) }
{
    let row = vec![in alloc; 0u32; count as usize]?;
    Ok(Items::from_vec(row))
}

// So many empty lists, each with room for so many shards.
fn empty_lists(alloc: Global, count: u32, room: u32) -> Result<Vec<Reserved>, NoMemory>
    ensures value { IfOk result (λ lists. lists.items ≡ replicate count (record { room = room; shards = [] })) }
{
    let mut lists = Vec::new(alloc);
    for _ in 0..count {
        let list = Reserved::new(alloc, room as usize)?;
        lists.push(list)?;
    }
    Ok(lists)
}

#[tactic(auto, using(std::proofs::lemmas::Nat::one_shl))]
fn bit(number: u32) -> u32
    requires { number < 32 }
    ensures value { result ≡ 2 ^ number }
{
    1 << number
}

#[tactic(auto, using(std::proofs::lemmas::Nat::Bits::shr_and_one))]
fn has_bit(mask: u32, number: u32) -> bool
    requires { number < 32 }
    ensures value { result ≡ not (bit_at mask number == 0) }
{
    (mask >> number) & 1 != 0
}

// The length of the list, where the shards begin with it.
fn length_of_front(list: &[u32], shards: &[u32]) -> Option<usize>
    ensures some { IfSome result (λ n. (n ≤ length shards.now) × (shards.now ≡ list.now ++ drop n shards.now)) }
    ensures none { IfNone result ((more : List ℕ) → shards.now ≢ list.now ++ more) }
{
    if shards.starts_with(list) {
        Some(list.len())
    } else {
        None
    }
}

// Whether these shards are distinct, and each is won and in no lane.
fn are_unplaced(marks: &[u32], shards: &[u32]) -> bool
    ensures value { (result ≡ true) ↔ AreUnplaced 0 marks.now shards.now }
{
    for i in 0..shards.len() {
        if !is_next(marks, &shards[..i], shards[i]) {
            return false;
        }
    }
    true
}

// Whether one more shard is won, in no lane, and none of those in front of it.
fn is_next(marks: &[u32], front: &[u32], shard: u32) -> bool
    ensures value { result ≡ is_unplaced_after marks.now front.now shard }
{
    is_marked(marks, shard) && !front.contains(&shard)
}

fn is_marked(marks: &[u32], shard: u32) -> bool
    ensures value { result ≡ (slice_index marks.now shard == 1) }
{
    match marks.get(shard as usize) {
        Some(mark) => *mark == 1,
        None => false,
    }
}

// The places of the marks that are not 0, in order.
#[tactic(auto, using(crate::proofs::CoreLemmas::marked_at))]
fn marked(alloc: Global, marks: &[u32]) -> Result<Shards, NoMemory>
    requires { length marks.now < 2 ^ 32 }
    ensures value { IfOk result (λ shards. shards ≡ marked_from 0 marks.now) }
{
    let mut shards = Items::new(alloc);
    for shard in 0..marks.len() {
        if marks[shard] != 0 {
            shards.push(shard as u32)?;
        }
    }
    Ok(shards)
}

// These shards are in a lane now.
fn place(marks: &mut Row, shards: &[u32])
    requires { AreUnplaced 0 marks.old shards.now }
    ensures value { marks.new ≡ placed marks.old shards.now }
{
    for shard in shards {
        marks.set(*shard as usize, 0);
    }
}

impl Core {
    /// A core at the opening of a round: nothing was drawn or given yet, and all lanes are home and empty.
    pub fn new(alloc: Global, plan: &Plan, lanes: u32) -> Result<Core, NoMemory>
        ensures value { IfOk result (λ core. core ≡ record { plan = plan.now; lanes = lanes; state = opening plan.now lanes }) }
    {
        let shards = plan.shards();
        Ok(Core {
            plan: plan.copied(alloc)?,
            drawn: 0,
            given: zeros(alloc, shards)?,
            deaths: zeros(alloc, shards)?,
            winners: zeros(alloc, shards)?,
            unplaced: zeros(alloc, shards)?,
            least_bad: None,
            outs: zeros(alloc, lanes)?,
            lists: empty_lists(alloc, lanes, shards)?,
            alloc,
        })
    }

    // Whether the claim was drawn.
    fn has_drawn(&self, claim: &Claim) -> bool
        ensures drawn { (result ≡ true) ↔ IsDrawn self.now.plan self.now.state claim.now }
    {
        claim.ticket < self.drawn && self.plan.shard_of(claim.ticket as usize) == claim.shard
    }

    // Whether the claim was drawn, and the number was given for its shard.
    fn has_tried(&self, claim: &Claim, number: u32) -> bool
        ensures tried { (result ≡ true) ↔ IsTried self.now.plan self.now.state claim.now number }
    {
        self.has_drawn(claim) && number < *self.given.get(claim.shard as usize)
    }

    // Whether the lane is one of the core's and is out.
    fn is_out(&self, lane: u32) -> bool
        ensures out { (result ≡ true) ↔ IsAllowed self.now.plan self.now.state (events.LaneBack lane) }
    {
        (lane as usize) < self.outs.len() && *self.outs.get(lane as usize) == 1
    }

    /// Whether the core can take in this event.
    pub fn fits(&self, event: &Event) -> bool
        ensures fits { (result ≡ true) ↔ IsAllowed self.now.plan self.now.state event.now }
    {
        match event {
            Event::Draw => true,
            Event::Number(claim) => self.has_drawn(claim),
            Event::Died(claim, number) => self.has_tried(claim, *number),
            Event::Settle(claim, number) => self.has_tried(claim, *number),
            Event::LaneOut(lane) => (*lane as usize) < self.outs.len(),
            Event::LaneBack(lane) => self.is_out(*lane),
            Event::Bad(shard) => *shard < self.plan.shards(),
        }
    }

    /// Whether the core can take in this event with these shards, which come with a lane. None come with any other event.
    pub fn fits_with(&self, event: &Event, shards: &[u32]) -> bool
        ensures fits { (result ≡ true) ↔ Fits self.now.plan self.now.state 0 event.now shards.now }
    {
        match event {
            Event::LaneBack(lane) => self.is_out(*lane)
                && are_unplaced(self.unplaced.as_slice(), shards),
            _ => shards.is_empty() && self.fits(event),
        }
    }

    /// For each shard 0, or 1 more than the number of its winner.
    pub fn winners(&self) -> &[u32]
        ensures value { result.now ≡ self.now.state.winners }
    {
        self.winners.as_slice()
    }

    /// For each shard the attempts whose deaths were noted: bit k is attempt k, counted from 0.
    pub fn deaths(&self) -> &[u32]
        ensures value { result.now ≡ self.now.state.deaths }
    {
        self.deaths.as_slice()
    }

    /// The least shard that was marked bad.
    pub fn least_bad(&self) -> Option<u32>
        ensures value { least_or_none result ≡ self.now.state.least_bad }
    {
        self.least_bad
    }

    /// How many shards the lane has, where these begin with them.
    pub fn count_in(&self, lane: u32, shards: &[u32]) -> Option<usize>
        ensures some { IfSome result (λ n. (n ≤ length shards.now) × (shards.now ≡ list_of self.now.state lane ++ drop n shards.now)) }
        ensures none { IfNone result ((more : List ℕ) → shards.now ≢ list_of self.now.state lane ++ more) }
    {
        match self.lists.get(lane as usize) {
            Some(list) => length_of_front(list.as_slice(), shards),
            None => Some(0),
        }
    }

    // Whether the shard is below all that were marked bad.
    fn is_least(&self, shard: u32) -> bool
        ensures value { result ≡ nat_lt shard self.now.state.least_bad }
    {
        match self.least_bad {
            Some(bad) => shard < bad,
            None => true,
        }
    }

    /// Whether an event that fits changes more than which lanes are out.
    pub fn is_change(&self, event: &Event, shards: &[u32]) -> bool
        requires fits { Fits self.now.plan self.now.state 0 event.now shards.now }
        ensures value { result ≡ is_change self.now.plan self.now.state event.now shards.now }
        ensures sound { IsSound self.now.plan self.now.state }
    {
        match event {
            Event::Draw => (self.drawn as usize) < self.plan.ticket_count(),
            Event::Number(claim) => *self.given.get(claim.shard as usize) < self.plan.attempts(),
            Event::Died(claim, number) => {
                !has_bit(*self.deaths.get(claim.shard as usize), *number)
            }
            Event::Settle(claim, _) => *self.winners.get(claim.shard as usize) == 0,
            Event::LaneOut(_) => false,
            Event::LaneBack(_) => !shards.is_empty(),
            Event::Bad(shard) => self.is_least(*shard),
        }
    }

    // The next ticket, if there is one.
    fn draw(&mut self) -> Option<Claim>
        ensures { TakesWith self.old events.Draw [] (replies.Ticket result) self.new }
    {
        let ticket = self.drawn;
        if ticket as usize >= self.plan.ticket_count() {
            return None;
        }
        self.drawn += 1;
        let shard = self.plan.shard_of(ticket as usize);
        Some(Claim { ticket, shard })
    }

    // The next number of the claim's shard, if there is one.
    fn number(&mut self, claim: &Claim) -> Option<u32>
        requires { IsDrawn self.old.plan self.old.state claim.now }
        ensures { TakesWith self.old (events.Number claim.now) [] (replies.Number result) self.new }
    {
        let shard = claim.shard as usize;
        let number = *self.given.get(shard);
        if number >= self.plan.attempts() {
            return None;
        }
        self.given.set(shard, number + 1);
        Some(number)
    }

    // Takes down a death.
    fn died(&mut self, claim: &Claim, number: u32)
        requires { IsTried self.old.plan self.old.state claim.now number }
        ensures { TakesWith self.old (events.Died claim.now number) [] replies.Noted self.new }
    {
        let shard = claim.shard as usize;
        let deaths = *self.deaths.get(shard);
        self.deaths.set(shard, deaths | bit(number));
    }

    // The first settlement of a shard wins it.
    fn settle(&mut self, claim: &Claim, number: u32) -> Reply
        requires { IsTried self.old.plan self.old.state claim.now number }
        ensures { TakesWith self.old (events.Settle claim.now number) [] result self.new }
    {
        let shard = claim.shard as usize;
        let winner = *self.winners.get(shard);
        if winner != 0 {
            return Reply::Late(winner - 1);
        }
        self.winners.set(shard, number + 1);
        self.unplaced.set(shard, 1);
        Reply::Won
    }

    // Whether the lane was home: then it is out.
    fn lend(&mut self, lane: u32) -> bool
        requires { lane < length self.old.state.outs }
        ensures { TakesWith self.old (events.LaneOut lane) [] (replies.Lane result) self.new }
    {
        let home = *self.outs.get(lane as usize) == 0;
        if home {
            self.outs.set(lane as usize, 1);
        }
        home
    }

    // The lane comes home with these shards.
    fn give(&mut self, lane: u32, shards: &[u32])
        requires { IsReturned self.old.state 0 lane shards.now }
        ensures { TakesWith self.old (events.LaneBack lane) shards.now replies.Noted self.new }
    {
        self.lists[lane as usize].add(shards);
        place(&mut self.unplaced, shards);
        self.outs.set(lane as usize, 0);
    }

    // Takes down a bad shard.
    fn bad(&mut self, shard: u32)
        requires { shard < self.old.plan.shards }
        ensures { TakesWith self.old (events.Bad shard) [] replies.Noted self.new }
    {
        let least = match self.least_bad {
            Some(bad) => bad.min(shard),
            None => shard,
        };
        self.least_bad = Some(least);
    }

    /// Takes in one event with the shards that come with a lane, and answers it. It takes no memory.
    pub fn take(&mut self, event: &Event, shards: &[u32]) -> Reply
        requires fits { Fits self.old.plan self.old.state 0 event.now shards.now }
        ensures step { TakesWith self.old event.now shards.now result self.new }
    {
        match event {
            Event::Draw => Reply::Ticket(self.draw()),
            Event::Number(claim) => Reply::Number(self.number(claim)),
            Event::Died(claim, number) => {
                self.died(claim, *number);
                Reply::Noted
            }
            Event::Settle(claim, number) => self.settle(claim, *number),
            Event::LaneOut(lane) => Reply::Lane(self.lend(*lane)),
            Event::LaneBack(lane) => {
                self.give(*lane, shards);
                Reply::Noted
            }
            Event::Bad(shard) => {
                self.bad(*shard);
                Reply::Noted
            }
        }
    }

    // All shards that are in no lane, where a lane comes back.
    fn brought(&self, event: &Event) -> Result<Shards, NoMemory>
        ensures value { IfOk result (λ shards. shards ≡ brought self.now.state event.now) }
        ensures sound { IsSound self.now.plan self.now.state }
    {
        match event {
            Event::LaneBack(_) => marked(self.alloc, self.unplaced.as_slice()),
            _ => Ok(Items::new(self.alloc)),
        }
    }

    /// Takes in one event, and answers it. Only a lane that comes back takes memory.
    #[tactic(auto, using(crate::proofs::CoreLemmas::goes_on, crate::proofs::CoreLemmas::brought_fits))]
    pub fn step(&mut self, event: &Event) -> Result<Reply, NoMemory>
        requires fits { IsAllowed self.old.plan self.old.state event.now }
        ensures step { IfOk result (λ reply. Takes self.old event.now reply self.new) }
        ensures history { IfOk result (λ reply. GoesOn self.old event.now reply self.new) }
        ensures err { OnErr result (self.new ≡ self.old) }
    {
        let shards = self.brought(event)?;
        let reply = self.take(event, shards.as_slice());
        Ok(reply)
    }
}
