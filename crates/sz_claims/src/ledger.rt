//! The ledger, and its passes.
ghost use Rattle.std.specs.Prelude.{◌≡◌, ◌+◌, ◌*◌, ◌^◌, ◌<◌, ◌||◌, ℕ, false, [], ◌∷◌, length, map, IfOk};
ghost use Rattle.sz_book_rules.specs.Machine.{draw_reply, number_reply};
ghost use Rattle.sz_book_rules.specs.History.{HasDrawn, HasNumber};
ghost use Rattle.sz_claims.specs.Rule.{view_of, CallsAt, any_of, found_no_ticket, found_no_number, bit, number_at, deaths_at, settled_at};
ghost use Rattle.sz_claims.specs.Moves.{replies};

use crate::lanes::{bring_home, slots_of, take_lanes, take_out};
use crate::rule::{Law, Looks, Parts, Setup};
use crate::steps::{Change, Place, Shared, step};
use crate::view::View;
use crate::words::{blank, blank_rows, copy_words, first_words, least, zeros};
use atomic_table::Table;
use std::alloc::Global;
use std::marker::Model;
use sz_book::{Claim, Closed, Event, Lane, Load, NoMemory, Plan, Receipt, Reply, Settled, Words};

/// The ledger that threads share. A call makes at most one step on one word, but for `join`, which makes two. Beside its step `lend`
/// empties the lane's slot, where the lane is home, and `give` fills it. None waits.
#[derive(Drop)]
pub struct Ledger<T: Load> {
    table: Table<Option<Lane<T>>, View, Setup, Law<T>, Global>,
    setup: Setup,
    // What `close` fills.
    lanes: Vec<Lane<T>>,
    settled: Vec<u64>,
    deaths: Vec<u64>,
    alloc: Global,
}

impl<T: Load> Model for Ledger<T> {
    ghost use Rattle.std.specs.Vec.{vec_len, vec_capacity};
    ghost use Rattle.sz_claims.specs.Known.{LedgerData, IsMade};

    ghost Value = { LedgerData };

    ghost view = { λ l. record { id = l.table.shared.table_id; plan = l.setup.plan; lanes = l.setup.lanes } };

    ghost invariant = { λ l. IsMade l.setup l.table.shared.key l.table.shared.table_id l.settled.items l.deaths.items (vec_len l.lanes) (vec_capacity l.lanes) };
}

/// What a caller of the ledger holds: which ledger, what of its history was seen, and the caller's own calls. At run time it keeps
/// whether a draw found no ticket, and for each ticket whether no number was found.
#[derive(Drop)]
pub struct Pass<T: Load> {
    seat: Place<T>,
    no_ticket: bool,
    no_number: Vec<bool>,
    limit: u32,
    room: Vec<Vec<bool>>,
}

impl<T: Load> Model for Pass<T> {
    ghost use Rattle.std.specs.Prelude.{◌≡◌, map};
    ghost use Rattle.sz_claims.specs.Known.{PassData, pass_data, IsSound};
    ghost use Rattle.sz_claims.specs.Rule.{view_of, slots_out};

    ghost Value = { PassData };

    ghost view = { λ p. pass_data p.seat.table_id p.limit (view_of p.seat.me) };

    ghost invariant = { λ p. IsSound (view_of p.seat.me) (slots_out p.seat.me) p.no_ticket p.no_number.items p.limit (map (λ r. r.items) p.room.items) };
}

impl<T: Load> Pass<T> {
    ghost use Rattle.sz_book_rules.specs.History.{IsLegal, calls_by};

    /// What a pass has seen is a legal history, in which its own calls are just those that it made. The call does nothing.
    pub fn saw_a_legal_history(&self)
        ensures legal { IsLegal self.now.ledger.plan self.now.ledger.lanes self.now.seen }
        ensures own { calls_by self.now.number self.now.seen ≡ self.now.mine }
    {
        let _ = &self.seat;
    }
}

impl<T: Load> Ledger<T> {
    ghost use Rattle.std.specs.Prelude.{◌≡◌};
    ghost use Rattle.sz_book_rules.specs.History.{HasDrawn, HasNumber};
    ghost use Rattle.std.specs.Prelude.{◌+◌, ◌<◌, List, length, IfOk, IfSome, IfNone};
    ghost use Rattle.sz_book_rules.specs.declared.event.Entry.{Entry};
    ghost use Rattle.sz_book.specs.Answers.{told_reply, IsWon};
    ghost use Rattle.sz_claims.specs.Known.{Calls, CallsWith, IsLent, MayGive, further_in, AreEmpty, IsSplit, IsJoined, IsEnd, IsClosed, first_pass, ends_in};

    /// A ledger of this plan and these lanes, with its first pass. As many passes as `passes` can be made of it, the first one
    /// counted. All memory of the ledger is taken here.
    pub fn make(
        alloc: Global,
        plan: Plan,
        lanes: Vec<Lane<T>>,
        passes: u32,
    ) -> Result<(Ledger<T>, Pass<T>), NoMemory>
        requires passes { 0 < passes }
        requires few { length lanes.items < 2 ^ 32 }
        requires empty { AreEmpty plan lanes.items }
        ensures value { IfOk result (λ r. (r.0.plan ≡ plan) × (r.0.lanes ≡ length lanes.items) × (r.1 ≡ first_pass r.0 passes)) }
    {
        let no_number = blank(alloc, plan.ticket_count())?;
        let room = blank_rows(alloc, plan.ticket_count(), passes - 1)?;
        let settled = zeros(alloc, plan.shards())?;
        let deaths = zeros(alloc, plan.shards())?;
        let count = lanes.len() as u32;
        let spare = Vec::with_capacity(alloc, lanes.len())?;
        let words = first_words(alloc, plan.shards(), count)?;
        let slots = slots_of(alloc, lanes)?;
        let setup = Setup { plan, lanes: count };
        let Ok((table, seat)) = Table::new(alloc, words.as_slice(), slots, &setup) else {
            return Err(NoMemory);
        };
        let pass = Pass {
            seat,
            no_ticket: false,
            no_number,
            limit: passes,
            room,
        };
        let ledger = Ledger {
            table,
            setup,
            lanes: spare,
            settled,
            deaths,
            alloc,
        };
        Ok((ledger, pass))
    }

    /// The plan of the ledger.
    pub fn plan(&self) -> &Plan
        ensures value { result.now ≡ self.now.plan }
    {
        &self.setup.plan
    }

    /// What the ledger has at its end. Each pass was joined to the first one.
    pub fn close(self, pass: Pass<T>) -> Closed<T>
        requires of { pass.ledger ≡ self }
        requires first { pass.number ≡ 0 }
        requires all { length pass.joined + 1 ≡ pass.made }
        requires home { pass.lane ≡ 0 }
        ensures value { (log : List Entry) × IsEnd T.died T.is_bad pass log × IsClosed pass.ledger.plan (ends_in pass log) result.lanes.items result.settled result.deaths result.least_bad }
    {
        let Ledger {
            table,
            setup,
            mut lanes,
            mut settled,
            mut deaths,
            alloc: _,
        } = self;
        let Pass {
            seat,
            no_ticket: _,
            no_number: _,
            limit: _,
            room: _,
        } = pass;
        let mut closed = table.close_with(seat);
        copy_words(&closed, 3, &mut settled);
        copy_words(&closed, 2, &mut deaths);
        let least_bad = least(closed.word(3 * setup.plan.shards() as usize + 1));
        take_lanes(&mut closed, &mut lanes);
        closed.free();
        Closed {
            lanes,
            settled: Words::from_vec(settled),
            deaths: Words::from_vec(deaths),
            least_bad,
        }
    }

    /// Another pass, made of the first one. None where all passes were made.
    pub fn split(&self, pass: &mut Pass<T>) -> Option<Pass<T>>
        requires of { pass.old.ledger ≡ self.now }
        requires first { pass.old.number ≡ 0 }
        ensures none { IfNone result ((pass.old.made ≡ pass.old.limit) × (pass.new ≡ pass.old)) }
        ensures some { IfSome result (λ other. IsSplit pass.old pass.new other) }
    {
        let Some(no_number) = pass.room.pop() else {
            return None;
        };
        let seat = self.table.shared.split_seat::<Parts>(&mut pass.seat);
        Some(Pass {
            seat,
            no_ticket: false,
            no_number,
            limit: 0,
            room: Vec::new(self.alloc),
        })
    }

    /// The first pass takes in another, and then has seen what that one has.
    pub fn join(&self, pass: &mut Pass<T>, other: Pass<T>)
        requires of { pass.old.ledger ≡ self.now }
        requires first { pass.old.number ≡ 0 }
        requires other { other.ledger ≡ self.now }
        requires home { other.lane ≡ 0 }
        ensures { IsJoined pass.old other pass.new }
    {
        let Pass {
            seat,
            no_ticket: _,
            no_number: _,
            limit: _,
            room: _,
        } = other;
        self.table.shared.join_seat::<Parts>(&mut pass.seat, seat);
        self.table.shared.load::<Looks>(&mut pass.seat, 0);
    }

    /// The next ticket. None where all are drawn.
    pub fn draw(&self, pass: &mut Pass<T>) -> Option<Claim>
        requires of { pass.old.ledger ≡ self.now }
        ensures call { Calls pass.old Event.Draw (Reply.Ticket result) pass.new }
    {
        let found = draw_found(&self.table.shared, &mut pass.seat, pass.no_ticket);
        let claim = ticket_found(&self.setup.plan, found);
        let vain = or(pass.no_ticket, claim.is_none());
        pass.no_ticket = vain;
        claim
    }

    /// The number of the next attempt on the claim's shard, counted from 0. None where all are given.
    pub fn number(&self, pass: &mut Pass<T>, claim: &Claim) -> Option<u32>
        requires of { pass.old.ledger ≡ self.now }
        requires drew { HasDrawn claim.now pass.old.mine }
        ensures call { Calls pass.old (Event.Number claim.now) (Reply.Number result) pass.new }
    {
        let ticket = claim.ticket as usize;
        let before = pass.no_number[ticket];
        let found = number_found(&self.table.shared, &mut pass.seat, claim, before);
        let number = attempt_found(&self.setup.plan, found);
        let vain = or(before, number.is_none());
        pass.no_number[ticket] = vain;
        number
    }

    /// Reports that an attempt died.
    pub fn died(&self, pass: &mut Pass<T>, claim: &Claim, number: u32)
        requires of { pass.old.ledger ≡ self.now }
        requires drew { HasDrawn claim.now pass.old.mine }
        requires given { HasNumber claim.now number pass.old.mine }
        requires died { T.died claim.now.shard number }
        ensures call { Calls pass.old (Event.Died claim.now number) Reply.Noted pass.new }
    {
        death(&self.table.shared, &mut pass.seat, claim, number);
    }

    /// Reports that a shard is bad: more of its records fault than may be passed over, and not all its attempts died. Shards are numbered
    /// from 0.
    pub fn bad(&self, pass: &mut Pass<T>, shard: u32)
        requires of { pass.old.ledger ≡ self.now }
        requires within { shard < self.now.plan.shards }
        requires bad { T.is_bad shard }
        ensures call { Calls pass.old (Event.Bad shard) Reply.Noted pass.new }
    {
        let word = 3 * self.setup.plan.shards() as usize + 1;
        let event = Event::Bad(shard);
        let change = Change::Lower(shard as u64);
        step(&self.table.shared, &mut pass.seat, word, change, &event);
    }

    /// Settles the claim's shard by an attempt that ended with its emits. `Late` names the attempt that settled it before.
    pub fn settle(&self, pass: &mut Pass<T>, claim: &Claim, number: u32) -> Settled
        requires of { pass.old.ledger ≡ self.now }
        requires drew { HasDrawn claim.now pass.old.mine }
        requires given { HasNumber claim.now number pass.old.mine }
        ensures call { Calls pass.old (Event.Settle claim.now number) (told_reply result) pass.new }
        ensures won { IsWon result (λ receipt. receipt ≡ record { plan = self.now.plan; shard = claim.now.shard }) }
    {
        let found = settle_found(&self.table.shared, &mut pass.seat, claim, number);
        if found == 0 {
            Settled::Won(Receipt::won(&self.setup.plan, claim))
        } else {
            Settled::Late((found - 1) as u32)
        }
    }

    /// Lends a lane, where it is home. None where it is out.
    pub fn lend(&self, pass: &mut Pass<T>, lane_no: u32) -> Option<Lane<T>>
        requires of { pass.old.ledger ≡ self.now }
        requires idle { pass.old.lane ≡ 0 }
        requires within { lane_no < self.now.lanes }
        ensures none { IfNone result (Calls pass.old (Event.LaneOut lane_no) (Reply.Lane false) pass.new) }
        ensures some { IfSome result (λ lane. IsLent pass.old lane_no lane pass.new) }
    {
        let turn = 3 * self.setup.plan.shards() as usize + 2 + lane_no as usize;
        take_out(&self.table.shared, &mut pass.seat, turn, lane_no)
    }

    /// Gives back the lane that the pass holds. Its further shards are those that the pass won and put into it.
    pub fn give(&self, pass: &mut Pass<T>, lane_no: u32, lane: Lane<T>)
        requires of { pass.old.ledger ≡ self.now }
        requires may { MayGive pass.old lane_no lane }
        ensures call { CallsWith pass.old (Event.LaneBack lane_no) (further_in pass.old lane) Reply.Noted 0 [] pass.new }
    {
        let turn = 3 * self.setup.plan.shards() as usize + 2 + lane_no as usize;
        bring_home(&self.table.shared, &mut pass.seat, turn, lane_no, lane);
    }
}

// The claim for the number that a draw found.
fn ticket_found(plan: &Plan, found: u64) -> Option<Claim>
    ensures value { Reply.Ticket result ≡ draw_reply plan.now found }
{
    if found < plan.ticket_count() as u64 {
        let shard = plan.shard_of(found as usize);
        Some(Claim {
            ticket: found as u32,
            shard,
        })
    } else {
        None
    }
}

// The number for the one that was found.
fn attempt_found(plan: &Plan, found: u64) -> Option<u32>
    ensures value { Reply.Number result ≡ number_reply plan.now found }
{
    if found < plan.attempts() as u64 {
        Some(found as u32)
    } else {
        None
    }
}

fn or(a: bool, b: bool) -> bool
    ensures { result ≡ (a || b) }
{
    a || b
}

// A draw.
fn draw_found<T: Load>(shared: &Shared<T>, seat: &mut Place<T>, no_ticket: bool) -> u64
    requires table { (seat.old.table_id ≡ shared.now.table_id) × (0 < shared.now.table_id.words) }
    requires live { 0 < (view_of seat.old.me).weight }
    requires no_ticket { any_of found_no_ticket (view_of seat.old.me).mine ≡ bit no_ticket }
    ensures same { seat.new.table_id ≡ seat.old.table_id }
    ensures call { CallsAt seat.old.me Event.Draw (replies shared.now.key.plan Event.Draw result) seat.new.me }
{
    let event = Event::Draw;
    if no_ticket {
        step(shared, seat, 0, Change::Keep, &event)
    } else {
        step(shared, seat, 0, Change::Next, &event)
    }
}

// A number for a claim.
fn number_found<T: Load>(
    shared: &Shared<T>,
    seat: &mut Place<T>,
    claim: &Claim,
    before: bool,
) -> u64
    requires table { (seat.old.table_id ≡ shared.now.table_id) × (number_at claim.now.shard < shared.now.table_id.words) }
    requires live { 0 < (view_of seat.old.me).weight }
    requires drew { HasDrawn claim.now (view_of seat.old.me).mine }
    requires before { any_of (found_no_number claim.now.ticket) (view_of seat.old.me).mine ≡ bit before }
    ensures same { seat.new.table_id ≡ seat.old.table_id }
    ensures call { CallsAt seat.old.me (Event.Number claim.now) (replies shared.now.key.plan (Event.Number claim.now) result) seat.new.me }
{
    let event = Event::Number(*claim);
    let word = 3 * claim.shard as usize + 1;
    if before {
        step(shared, seat, word, Change::Keep, &event)
    } else {
        step(shared, seat, word, Change::Next, &event)
    }
}

// A death.
fn death<T: Load>(shared: &Shared<T>, seat: &mut Place<T>, claim: &Claim, number: u32)
    requires table { (seat.old.table_id ≡ shared.now.table_id) × (deaths_at claim.now.shard < shared.now.table_id.words) }
    requires live { 0 < (view_of seat.old.me).weight }
    requires drew { HasDrawn claim.now (view_of seat.old.me).mine }
    requires given { HasNumber claim.now number (view_of seat.old.me).mine }
    requires small { number < 8 }
    requires died { T.died claim.now.shard number }
    ensures same { seat.new.table_id ≡ seat.old.table_id }
    ensures call { CallsAt seat.old.me (Event.Died claim.now number) Reply.Noted seat.new.me }
{
    let event = Event::Died(*claim, number);
    let word = 3 * claim.shard as usize + 2;
    step(shared, seat, word, Change::Mark(1 << number), &event);
}

// A settlement, with the word found.
fn settle_found<T: Load>(shared: &Shared<T>, seat: &mut Place<T>, claim: &Claim, number: u32) -> u64
    requires table { (seat.old.table_id ≡ shared.now.table_id) × (settled_at claim.now.shard < shared.now.table_id.words) }
    requires live { 0 < (view_of seat.old.me).weight }
    requires drew { HasDrawn claim.now (view_of seat.old.me).mine }
    requires given { HasNumber claim.now number (view_of seat.old.me).mine }
    ensures same { seat.new.table_id ≡ seat.old.table_id }
    ensures call { CallsAt seat.old.me (Event.Settle claim.now number) (replies shared.now.key.plan (Event.Settle claim.now number) result) seat.new.me }
{
    let event = Event::Settle(*claim, number);
    let word = 3 * claim.shard as usize + 3;
    step(shared, seat, word, Change::Put(number as u64 + 1), &event)
}
