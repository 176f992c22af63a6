//! Calls of one or two passes on one thread, with answers worked by hand.
use crate::plans::{four_shards, one_ticket, two_tickets};
use crate::tally::{Tally, empty_lanes};
use std::process::Abort;
use std::test::Fail;
use sz_book::Settled;
use sz_claims::Ledger;

fn is_late_by(settled: &Settled, number: u32) -> bool {
    match settled {
        Settled::Late(winner) => *winner == number,
        Settled::Won(_) => false,
    }
}

#[test]
fn of_two_passes_one_wins(rt: HostRuntime) -> Result<(), Fail> {
    let alloc = rt.alloc();
    let (ledger, mut a) = Ledger::<Tally>::make(alloc, two_tickets(alloc)?, Vec::new(alloc), 2)?;
    let mut b = ledger.split(&mut a).expect(&rt, "two passes");
    let one = ledger.draw(&mut a).expect(&rt, "a ticket");
    let two = ledger.draw(&mut b).expect(&rt, "a ticket");
    assert_eq!(rt;
        (one.ticket, one.shard, two.ticket, two.shard),
        (0, 0, 1, 0)
    );
    assert!(rt; ledger.draw(&mut a).is_none());
    let k = ledger.number(&mut a, &one).expect(&rt, "a number");
    let m = ledger.number(&mut b, &two).expect(&rt, "a number");
    assert_eq!(rt; (k, m), (0, 1));
    let won = ledger.settle(&mut b, &two, m);
    assert!(rt; matches!(won, Settled::Won(_)));
    let late = ledger.settle(&mut a, &one, k);
    assert!(rt; is_late_by(&late, 1));
    assert!(rt; ledger.number(&mut b, &two).is_none());
    ledger.join(&mut a, b);
    let closed = ledger.close(a);
    assert_eq!(rt; closed.settled.as_slice(), [2u64].as_slice());
    assert_eq!(rt; closed.deaths.as_slice(), [0u64].as_slice());
    assert!(rt; closed.least_bad.is_none());
    Ok(())
}

#[test]
fn two_deaths_lose_a_shard(rt: HostRuntime) -> Result<(), Fail> {
    let alloc = rt.alloc();
    let (ledger, mut a) = Ledger::<Tally>::make(alloc, one_ticket(alloc)?, Vec::new(alloc), 1)?;
    let one = ledger.draw(&mut a).expect(&rt, "a ticket");
    let k = ledger.number(&mut a, &one).expect(&rt, "a number");
    ledger.died(&mut a, &one, k);
    let m = ledger.number(&mut a, &one).expect(&rt, "a number");
    ledger.died(&mut a, &one, m);
    assert_eq!(rt; (one.ticket, one.shard, k, m), (0, 0, 0, 1));
    assert!(rt; ledger.number(&mut a, &one).is_none());
    let closed = ledger.close(a);
    assert_eq!(rt; closed.settled.as_slice(), [0u64].as_slice());
    assert_eq!(rt; closed.deaths.as_slice(), [3u64].as_slice());
    Ok(())
}

#[test]
fn the_least_bad_shard_stays(rt: HostRuntime) -> Result<(), Fail> {
    let alloc = rt.alloc();
    let (ledger, mut a) = Ledger::<Tally>::make(alloc, four_shards(alloc)?, Vec::new(alloc), 1)?;
    assert!(rt; ledger.split(&mut a).is_none());
    ledger.bad(&mut a, 3);
    ledger.bad(&mut a, 1);
    ledger.bad(&mut a, 2);
    let closed = ledger.close(a);
    assert_eq!(rt; closed.least_bad, Some(1));
    Ok(())
}

#[test]
fn a_lane_is_lent_again_once_it_is_back(rt: HostRuntime) -> Result<(), Fail> {
    let alloc = rt.alloc();
    let plan = one_ticket(alloc)?;
    let lanes = empty_lanes(alloc, &plan, 1)?;
    let (ledger, mut a) = Ledger::make(alloc, plan, lanes, 1)?;
    assert!(rt; ledger.split(&mut a).is_none());
    let lane = ledger.lend(&mut a, 0).expect(&rt, "the lane");
    assert!(rt; lane.shards().is_empty());
    ledger.give(&mut a, 0, lane);
    let lane = ledger.lend(&mut a, 0).expect(&rt, "the lane again");
    ledger.give(&mut a, 0, lane);
    let closed = ledger.close(a);
    assert_eq!(rt; closed.lanes.len(), 1);
    Ok(())
}

#[test]
fn a_lane_that_is_out_is_lent_to_nobody(rt: HostRuntime) -> Result<(), Fail> {
    let alloc = rt.alloc();
    let plan = one_ticket(alloc)?;
    let lanes = empty_lanes(alloc, &plan, 1)?;
    let (ledger, mut a) = Ledger::make(alloc, plan, lanes, 2)?;
    let mut b = ledger.split(&mut a).expect(&rt, "two passes");
    let lane = ledger.lend(&mut a, 0).expect(&rt, "the lane");
    assert!(rt; ledger.lend(&mut b, 0).is_none());
    ledger.give(&mut a, 0, lane);
    ledger.join(&mut a, b);
    let closed = ledger.close(a);
    assert_eq!(rt; closed.lanes.len(), 1);
    Ok(())
}
