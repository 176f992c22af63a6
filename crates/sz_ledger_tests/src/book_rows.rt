//! Calls of a book by two passes on one thread, which the ledger of one thread takes in too, with answers worked by hand. A call is
//! told as its event, an answer as its reply.
use crate::held_rows::first_difference;
use crate::plans::Small::{FourShards, OneTicket, TwoTickets};
use crate::plans::{FIRST, SECOND, Small, plan_of};
use crate::tally::{Tally, one_lane};
use std::alloc::Global;
use std::process::Abort;
use std::sync::Wait;
use sz_book::{Book, BookPass, Closed, Core, Event, Lane, NoMemory, Reply, Settled};

// Whether the first pass calls, the event and the reply.
type Call = (bool, Event, Reply);

// What is left: the word of shard 0, its deaths, the least bad shard, and how many lanes are home.
type End = (u64, u64, Option<u32>, usize);

// The calls, whether their events fit, of which each is taken in by the ledger of one thread then, and what is left of the book.
type Run = (Small, &'static [Call], bool, End);

const OF_TWO_ONE_WINS: &[Call] = &[
    (true, Event::Draw, Reply::Ticket(Some(FIRST))),
    (false, Event::Draw, Reply::Ticket(Some(SECOND))),
    (true, Event::Draw, Reply::Ticket(None)),
    (true, Event::Number(FIRST), Reply::Number(Some(0))),
    (false, Event::Number(SECOND), Reply::Number(Some(1))),
    (false, Event::Settle(SECOND, 1), Reply::Won),
    (true, Event::Settle(FIRST, 0), Reply::Late(1)),
    (false, Event::Number(SECOND), Reply::Number(None)),
];

// A shard is lost by two deaths.
const TWO_DEATHS_LOSE: &[Call] = &[
    (true, Event::Draw, Reply::Ticket(Some(FIRST))),
    (true, Event::Number(FIRST), Reply::Number(Some(0))),
    (true, Event::Died(FIRST, 0), Reply::Noted),
    (true, Event::Number(FIRST), Reply::Number(Some(1))),
    (true, Event::Died(FIRST, 1), Reply::Noted),
    (true, Event::Number(FIRST), Reply::Number(None)),
    (true, Event::Bad(0), Reply::Noted),
];

// Of bad shards the least one stays.
const THE_LEAST_STAYS: &[Call] = &[
    (true, Event::Bad(3), Reply::Noted),
    (true, Event::Bad(1), Reply::Noted),
    (true, Event::Bad(2), Reply::Noted),
];

const A_LANE_TWICE: &[Call] = &[
    (true, Event::LaneOut(0), Reply::Lane(true)),
    (true, Event::LaneBack(0), Reply::Noted),
    (true, Event::LaneOut(0), Reply::Lane(true)),
];

const A_LANE_TO_ONE: &[Call] = &[
    (true, Event::LaneOut(0), Reply::Lane(true)),
    (false, Event::LaneOut(0), Reply::Lane(false)),
    (true, Event::LaneBack(0), Reply::Noted),
];

const A_LANE_TO_EACH: &[Call] = &[
    (true, Event::LaneOut(0), Reply::Lane(true)),
    (false, Event::LaneOut(0), Reply::Lane(false)),
    (true, Event::LaneBack(0), Reply::Noted),
    (false, Event::LaneOut(0), Reply::Lane(true)),
];

// What nobody drew or was lent.
const WHAT_DOES_NOT_FIT: &[Call] = &[
    (true, Event::Number(FIRST), Reply::Number(None)),
    (true, Event::Settle(FIRST, 0), Reply::Late(0)),
    (true, Event::Settle(FIRST, 1), Reply::Late(1)),
    (true, Event::Died(FIRST, 0), Reply::Noted),
    (true, Event::Bad(1), Reply::Noted),
    (true, Event::LaneOut(1), Reply::Lane(false)),
    (true, Event::LaneBack(0), Reply::Noted),
];

const RUNS: &[Run] = &[
    (TwoTickets, OF_TWO_ONE_WINS, true, (2, 0, None, 1)),
    (OneTicket, TWO_DEATHS_LOSE, true, (0, 3, Some(0), 1)),
    (TwoTickets, TWO_DEATHS_LOSE, true, (0, 3, Some(0), 1)),
    (FourShards, THE_LEAST_STAYS, true, (0, 0, Some(1), 1)),
    (OneTicket, A_LANE_TWICE, true, (0, 0, None, 0)),
    (OneTicket, A_LANE_TO_ONE, true, (0, 0, None, 1)),
    (TwoTickets, A_LANE_TO_EACH, true, (0, 0, None, 0)),
    (OneTicket, WHAT_DOES_NOT_FIT, false, (0, 0, None, 1)),
    (TwoTickets, WHAT_DOES_NOT_FIT, false, (0, 0, None, 1)),
];

// The runs after a call, so that no proof sees them.
fn runs() -> &'static [Run] {
    RUNS
}

fn told(settled: Settled) -> Reply {
    match settled {
        Settled::Won(_) => Reply::Won,
        Settled::Late(number) => Reply::Late(number),
    }
}

// The lane that is lent waits outside until it is given back.
fn lend<W: Wait>(
    rt: &W,
    book: &Book<Tally>,
    pass: &mut BookPass,
    out: &mut Option<Lane<Tally>>,
    lane_no: u32,
) -> bool {
    match book.lend(rt, pass, lane_no) {
        Some(lane) => {
            *out = Some(lane);
            true
        }
        None => false,
    }
}

fn answer<W: Wait>(
    rt: &W,
    book: &Book<Tally>,
    pass: &mut BookPass,
    out: &mut Option<Lane<Tally>>,
    event: &Event,
) -> Reply {
    match event {
        Event::Draw => Reply::Ticket(book.draw(rt, pass)),
        Event::Number(claim) => Reply::Number(book.number(rt, pass, claim)),
        Event::Died(claim, number) => {
            book.died(rt, pass, claim, *number);
            Reply::Noted
        }
        Event::Settle(claim, number) => told(book.settle(rt, pass, claim, *number)),
        Event::LaneOut(lane_no) => Reply::Lane(lend(rt, book, pass, out, *lane_no)),
        Event::LaneBack(lane_no) => {
            if let Some(lane) = out.take() {
                book.give(rt, pass, *lane_no, lane);
            }
            Reply::Noted
        }
        Event::Bad(shard) => {
            book.bad(rt, pass, *shard);
            Reply::Noted
        }
    }
}

// How many calls are answered as they should be, from the first on.
fn right_calls<W: Wait>(
    rt: &W,
    book: &Book<Tally>,
    a: &mut BookPass,
    b: &mut BookPass,
    calls: &[Call],
) -> usize {
    let mut out = None;
    for (number, (is_first, event, reply)) in calls.iter().enumerate() {
        let pass = if *is_first { &mut *a } else { &mut *b };
        if answer(rt, book, pass, &mut out, event) != *reply {
            return number;
        }
    }
    calls.len()
}

fn end_of(closed: &Closed<Tally>) -> End {
    let settled = closed.settled.as_slice().first().copied().unwrap_or(9);
    let deaths = closed.deaths.as_slice().first().copied().unwrap_or(9);
    (settled, deaths, closed.least_bad, closed.lanes.len())
}

// A book of one lane, with its first pass.
fn made(alloc: Global, small: Small) -> Result<(Book<Tally>, BookPass), NoMemory> {
    let plan = plan_of(alloc, small)?;
    let lanes = one_lane(alloc, &plan)?;
    Book::make(alloc, plan, lanes, 2)
}

// How many calls of a book were right, and what is left of it.
fn of_book<W: Wait>(
    rt: &W,
    alloc: Global,
    small: Small,
    calls: &[Call],
) -> Result<(usize, End), NoMemory> {
    let (book, mut a) = made(alloc, small)?;
    let mut right = 0;
    if let Some(mut b) = book.split(rt, &mut a) {
        right = right_calls(rt, &book, &mut a, &mut b, calls);
        book.join(rt, &mut a, b);
    }
    let closed = book.close(rt, a);
    let end = end_of(&closed);
    drop(closed);
    Ok((right, end))
}

/// Whether the ledger of one thread takes an event in, and answers so.
pub fn takes(core: &mut Core, event: &Event, reply: &Reply) -> Result<bool, NoMemory> {
    if !core.fits(event) {
        return Ok(false);
    }
    let found = core.step(event)?;
    Ok(found == *reply)
}

// How many of the events the ledger of one thread takes in, and answers as it should.
fn taken(core: &mut Core, calls: &[Call]) -> Result<usize, NoMemory> {
    let mut count = 0usize;
    for (_, event, reply) in calls {
        if takes(core, event, reply)? {
            count = count.wrapping_add(1);
        }
    }
    Ok(count)
}

// The same of a ledger with one lane.
fn of_core(alloc: Global, small: Small, calls: &[Call]) -> Result<usize, NoMemory> {
    let plan = plan_of(alloc, small)?;
    let mut core = Core::new(alloc, &plan, 1)?;
    taken(&mut core, calls)
}

// Whether as many passes are made as there may be.
fn splits<W: Wait>(rt: &W, alloc: Global, passes: u32) -> Result<bool, NoMemory> {
    let plan = plan_of(alloc, OneTicket)?;
    let (book, mut a) = Book::<Tally>::make(alloc, plan, Vec::new(alloc), passes.max(1))?;
    Ok(book.split(rt, &mut a).is_some())
}

#[test]
fn ledgers_answer_as_the_machine_does(rt: HostRuntime) {
    let alloc = rt.alloc();
    for (run, (small, calls, fit, end)) in runs().iter().enumerate() {
        let found = of_book(&rt, alloc, *small, calls);
        assert_eq!(rt; found, Ok((calls.len(), *end)), "in run {run}");
        let wanted = if *fit { calls.len() } else { 0 };
        assert_eq!(rt; of_core(alloc, *small, calls), Ok(wanted), "in run {run}");
    }
    assert_eq!(rt; first_difference(alloc), Ok(None), "of a held ledger");
    let found = [splits(&rt, alloc, 1), splits(&rt, alloc, 2)];
    assert_eq!(rt; found, [Ok(false), Ok(true)], "of passes");
}
