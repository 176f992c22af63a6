//! A ledger with its history takes in each kind of event, and refuses those that don't fit, with answers worked by hand.
use crate::plans::{FIRST, SECOND, two_tickets};
use crate::tally::Tally;
use std::alloc::Global;
use sz_book::{Claim, Event, Held, NoMemory, Reply};

// An event, the shards that come with it, and its reply, or none where it doesn't fit.
type Row = (Event, &'static [u32], Option<Reply>);

const OTHER: Claim = Claim {
    ticket: 0,
    shard: 1,
};

// One shard with two tickets, two attempts and one lane.
const ROWS: &[Row] = &[
    (Event::Number(FIRST), &[], None),
    (Event::Draw, &[0], None),
    (Event::Draw, &[], Some(Reply::Ticket(Some(FIRST)))),
    (Event::Number(SECOND), &[], None),
    (Event::Number(OTHER), &[], None),
    (Event::LaneBack(0), &[], None),
    (Event::LaneOut(1), &[], None),
    (Event::LaneOut(0), &[], Some(Reply::Lane(true))),
    (Event::LaneOut(0), &[], Some(Reply::Lane(false))),
    (Event::Settle(FIRST, 0), &[], None),
    (Event::Number(FIRST), &[], Some(Reply::Number(Some(0)))),
    (Event::Settle(FIRST, 1), &[], None),
    (Event::Died(FIRST, 1), &[], None),
    (Event::LaneBack(0), &[0], None),
    (Event::Settle(FIRST, 0), &[], Some(Reply::Won)),
    (Event::LaneBack(1), &[0], None),
    (Event::LaneBack(0), &[0, 0], None),
    (Event::LaneBack(0), &[1], None),
    (Event::LaneBack(0), &[0], Some(Reply::Noted)),
    (Event::LaneBack(0), &[], None),
    (Event::Draw, &[], Some(Reply::Ticket(Some(SECOND)))),
    (Event::Draw, &[], Some(Reply::Ticket(None))),
    (Event::Number(SECOND), &[], Some(Reply::Number(Some(1)))),
    (Event::Number(SECOND), &[], Some(Reply::Number(None))),
    (Event::Settle(SECOND, 1), &[], Some(Reply::Late(0))),
    (Event::Died(SECOND, 1), &[], Some(Reply::Noted)),
    (Event::Died(SECOND, 1), &[], Some(Reply::Noted)),
    (Event::Bad(1), &[], None),
    (Event::Bad(0), &[], Some(Reply::Noted)),
    (Event::Bad(0), &[], Some(Reply::Noted)),
    (Event::LaneOut(0), &[], Some(Reply::Lane(true))),
    (Event::LaneBack(0), &[0], None),
    (Event::LaneBack(0), &[], Some(Reply::Noted)),
];

fn rows() -> &'static [Row] {
    ROWS
}

fn reply_to(held: &mut Held<Tally>, event: &Event, shards: &[u32]) -> Option<Reply> {
    if held.fits(event, shards) {
        Some(held.apply(event, shards))
    } else {
        None
    }
}

fn differs(held: &mut Held<Tally>, rows: &[Row]) -> Option<usize> {
    for (number, (event, shards, reply)) in rows.iter().enumerate() {
        if reply_to(held, event, shards) != *reply {
            return Some(number);
        }
    }
    None
}

/// The place of the first event that is answered otherwise.
pub fn first_difference(alloc: Global) -> Result<Option<usize>, NoMemory> {
    let plan = two_tickets(alloc)?;
    let mut held = Held::new(alloc, &plan, 1)?;
    Ok(differs(&mut held, rows()))
}
