//! Random schedules of two passes, on the shared ledger and on the ledger of one thread, which answer alike.
ghost use Rattle.std.specs.Prelude.{◌≡◌, [], IfOk};
ghost use Rattle.sz_book_rules.specs.Plan.{IsPlan};
ghost use Rattle.sz_book_rules.specs.History.{HasDrawn, HasNumber};
ghost use Rattle.sz_ledger_tests.specs.Keeping.{KeepsPlace};
ghost use Rattle.sz_ledger_tests.specs.Ready.{IsReady};

use crate::book_rows::takes;
use crate::placing::place;
use crate::plans::{four_shards, six_tickets, two_tickets};
use crate::progress::At;
use crate::tally::{Tally, empty_lanes, times_in};
use std::alloc::Global;
use std::process::Abort;
use std::test::Fail;
use sz_book::{Claim, Closed, Core, Event, NoMemory, Plan, Reply, Settled};
use sz_claims::{Ledger, Pass};

// What was asked of the shared ledger, what it answered, and what the pass is at then.
#[derive(Clone, Copy)]
struct Heard {
    event: Event,
    reply: Reply,
    // The lane that was lent and given back for what was won.
    lane: Option<u32>,
    at: At,
}

// Whether a lane goes out of the ledger of one thread, and comes back.
fn goes_round(core: &mut Core, lane: u32) -> Result<bool, NoMemory> {
    if !takes(core, &Event::LaneOut(lane), &Reply::Lane(true))? {
        return Ok(false);
    }
    takes(core, &Event::LaneBack(lane), &Reply::Noted)
}

// Whether the ledger of one thread follows the shared one.
fn follows(core: &mut Core, heard: &Heard) -> Result<bool, NoMemory> {
    if !takes(core, &heard.event, &heard.reply)? {
        return Ok(false);
    }
    match heard.lane {
        Some(lane) => goes_round(core, lane),
        None => Ok(true),
    }
}

fn draws(ledger: &Ledger<Tally>, pass: &mut Pass<Tally>) -> Heard
    requires of { pass.old.ledger ≡ ledger.now }
    ensures ready { IsReady result.at pass.new }
    ensures kept { KeepsPlace pass.old pass.new }
{
    match ledger.draw(pass) {
        Some(claim) => Heard {
            event: Event::Draw,
            reply: Reply::Ticket(Some(claim)),
            lane: None,
            at: At::Ticket(claim),
        },
        None => Heard {
            event: Event::Draw,
            reply: Reply::Ticket(None),
            lane: None,
            at: At::Rest,
        },
    }
}

fn numbers(ledger: &Ledger<Tally>, pass: &mut Pass<Tally>, claim: Claim) -> Heard
    requires of { pass.old.ledger ≡ ledger.now }
    requires drew { HasDrawn claim pass.old.mine }
    ensures ready { IsReady result.at pass.new }
    ensures kept { KeepsPlace pass.old pass.new }
{
    let event = Event::Number(claim);
    match ledger.number(pass, &claim) {
        Some(number) => Heard {
            event,
            reply: Reply::Number(Some(number)),
            lane: None,
            at: At::Attempt(claim, number),
        },
        None => Heard {
            event,
            reply: Reply::Number(None),
            lane: None,
            at: At::Rest,
        },
    }
}

fn dies(ledger: &Ledger<Tally>, pass: &mut Pass<Tally>, claim: Claim, number: u32) -> Heard
    requires of { pass.old.ledger ≡ ledger.now }
    requires drew { HasDrawn claim pass.old.mine }
    requires given { HasNumber claim number pass.old.mine }
    ensures ready { IsReady result.at pass.new }
    ensures kept { KeepsPlace pass.old pass.new }
{
    ledger.died(pass, &claim, number);
    Heard {
        event: Event::Died(claim, number),
        reply: Reply::Noted,
        lane: None,
        at: At::Ticket(claim),
    }
}

fn marks_bad(ledger: &Ledger<Tally>, pass: &mut Pass<Tally>, plan: &Plan, shard: u32) -> Heard
    requires of { (pass.old.ledger ≡ ledger.now) × (ledger.now.plan ≡ plan.now) }
    ensures ready { IsReady result.at pass.new }
    ensures kept { KeepsPlace pass.old pass.new }
{
    if shard < plan.shards() {
        ledger.bad(pass, shard);
    }
    Heard {
        event: Event::Bad(shard),
        reply: Reply::Noted,
        lane: None,
        at: At::Rest,
    }
}

// Settles a shard, and puts what was won into a lane.
fn settles(
    alloc: Global,
    ledger: &Ledger<Tally>,
    pass: &mut Pass<Tally>,
    plan: &Plan,
    claim: Claim,
    number: u32,
) -> Result<Heard, NoMemory>
    requires of { (pass.old.ledger ≡ ledger.now) × (ledger.now.lanes ≡ 2) × (pass.old.lane ≡ 0) }
    requires plan { IsPlan plan.now × (ledger.now.plan ≡ plan.now) }
    requires drew { HasDrawn claim pass.old.mine }
    requires given { HasNumber claim number pass.old.mine }
    ensures ready { IfOk result (λ heard. IsReady heard.at pass.new) }
    ensures kept { KeepsPlace pass.old pass.new }
{
    let event = Event::Settle(claim, number);
    match ledger.settle(pass, &claim, number) {
        Settled::Late(winner) => Ok(Heard {
            event,
            reply: Reply::Late(winner),
            lane: None,
            at: At::Rest,
        }),
        Settled::Won(receipt) => {
            let lane = claim.ticket % 2;
            place(alloc, ledger, pass, plan, receipt, lane)?;
            Ok(Heard {
                event,
                reply: Reply::Won,
                lane: Some(lane),
                at: At::Rest,
            })
        }
    }
}

// The next call of a pass.
fn call(
    alloc: Global,
    ledger: &Ledger<Tally>,
    pass: &mut Pass<Tally>,
    plan: &Plan,
    at: At,
    chance: u64,
) -> Result<Heard, NoMemory>
    requires of { (pass.old.ledger ≡ ledger.now) × (ledger.now.lanes ≡ 2) × (pass.old.lane ≡ 0) }
    requires plan { IsPlan plan.now × (ledger.now.plan ≡ plan.now) }
    requires ready { IsReady at pass.old }
    ensures ready { IfOk result (λ heard. IsReady heard.at pass.new) }
    ensures kept { KeepsPlace pass.old pass.new }
{
    match at {
        At::Rest => Ok(draws(ledger, pass)),
        At::Ticket(claim) => Ok(numbers(ledger, pass, claim)),
        At::Attempt(claim, number) => {
            if chance % 4 == 0 {
                Ok(dies(ledger, pass, claim, number))
            } else if chance % 4 == 1 {
                Ok(marks_bad(ledger, pass, plan, claim.shard))
            } else {
                settles(alloc, ledger, pass, plan, claim, number)
            }
        }
    }
}

// The next call of a pass, on both ledgers. Whether both answered alike.
fn turn(
    alloc: Global,
    ledger: &Ledger<Tally>,
    core: &mut Core,
    pass: &mut Pass<Tally>,
    plan: &Plan,
    at: &mut At,
    chance: u64,
) -> Result<bool, NoMemory>
    requires of { (pass.old.ledger ≡ ledger.now) × (ledger.now.lanes ≡ 2) × (pass.old.lane ≡ 0) }
    requires plan { IsPlan plan.now × (ledger.now.plan ≡ plan.now) }
    requires ready { IsReady at.old pass.old }
    ensures ready { IfOk result (λ alike. IsReady at.new pass.new) }
    ensures kept { KeepsPlace pass.old pass.new }
{
    let heard = call(alloc, ledger, pass, plan, *at, chance)?;
    *at = heard.at;
    let alike = follows(core, &heard)?;
    Ok(alike)
}

// Sixty calls of two passes in an order by chance. Whether all were answered alike.
fn calls(
    alloc: Global,
    ledger: &Ledger<Tally>,
    core: &mut Core,
    a: &mut Pass<Tally>,
    b: &mut Pass<Tally>,
    plan: &Plan,
    seed: u64,
) -> Result<bool, NoMemory>
    requires of { (a.old.ledger ≡ ledger.now) × (b.old.ledger ≡ ledger.now) × (ledger.now.lanes ≡ 2) × (a.old.lane ≡ 0) × (b.old.lane ≡ 0) }
    requires plan { IsPlan plan.now × (ledger.now.plan ≡ plan.now) }
    ensures kept { KeepsPlace a.old a.new × KeepsPlace b.old b.new }
{
    let mut at_a = At::Rest;
    let mut at_b = At::Rest;
    let mut chance = seed;
    for _ in 0..60 {
        chance = chance
            .wrapping_mul(6364136223846793005)
            .wrapping_add(1442695040888963407);
        let drawn = chance >> 33;
        let alike = if drawn % 2 == 0 {
            turn(alloc, ledger, core, a, plan, &mut at_a, drawn / 2)?
        } else {
            turn(alloc, ledger, core, b, plan, &mut at_b, drawn / 2)?
        };
        if !alike {
            return Ok(false);
        }
    }
    Ok(true)
}

// Whether each shard that is settled stands in one lane, and no other in any.
fn each_stands_once(closed: &Closed<Tally>, shards: u32) -> bool {
    let mut all = true;
    for shard in 0..shards {
        let settled = closed
            .settled
            .as_slice()
            .get(shard as usize)
            .copied()
            .unwrap_or(0);
        let times = times_in(closed.lanes.as_slice(), shard);
        all = all && times == (if settled == 0 { 0 } else { 1 });
    }
    all
}

// One of three plans.
fn plan_of(alloc: Global, seed: u64) -> Result<Plan, NoMemory>
    ensures value { IfOk result (λ plan. IsPlan plan) }
{
    if seed % 3 == 0 {
        two_tickets(alloc)
    } else if seed % 3 == 1 {
        four_shards(alloc)
    } else {
        six_tickets(alloc)
    }
}

// One schedule, from the first call to the close. Whether both ledgers answered alike, and each shard that is settled stands in one
// lane in the end.
fn is_followed_to_the_end(
    alloc: Global,
    ledger: Ledger<Tally>,
    core: &mut Core,
    mut a: Pass<Tally>,
    mut b: Pass<Tally>,
    plan: &Plan,
    seed: u64,
) -> bool
    requires of { (a.ledger ≡ ledger) × (b.ledger ≡ ledger) × (ledger.lanes ≡ 2) × (a.lane ≡ 0) × (b.lane ≡ 0) }
    requires first { (a.number ≡ 0) × (a.made ≡ 2) × (a.joined ≡ []) }
    requires plan { IsPlan plan.now × (ledger.plan ≡ plan.now) }
{
    let alike = calls(alloc, &ledger, core, &mut a, &mut b, plan, seed).unwrap_or(false);
    ledger.join(&mut a, b);
    let closed = ledger.close(a);
    alike && each_stands_once(&closed, plan.shards())
}

// The ledger of one thread follows a shared one of this plan, or not.
fn is_followed_by(alloc: Global, core: &mut Core, plan: &Plan, seed: u64) -> Result<bool, NoMemory>
    requires plan { IsPlan plan.now }
{
    let copy = plan.copied(alloc)?;
    let lanes = empty_lanes(alloc, plan, 2)?;
    let (ledger, mut a) = Ledger::make(alloc, copy, lanes, 2)?;
    let Some(b) = ledger.split(&mut a) else {
        return Ok(false);
    };
    Ok(is_followed_to_the_end(alloc, ledger, core, a, b, plan, seed))
}

fn is_followed(alloc: Global, seed: u64) -> Result<bool, NoMemory> {
    let plan = plan_of(alloc, seed)?;
    let mut core = Core::new(alloc, &plan, 2)?;
    is_followed_by(alloc, &mut core, &plan, seed)
}

#[test]
fn two_hundred_schedules_are_followed_by_one_thread(rt: HostRuntime) -> Result<(), Fail> {
    for seed in 0..200u64 {
        assert!(rt; is_followed(rt.alloc(), seed)?, "schedule {seed}");
    }
    Ok(())
}
