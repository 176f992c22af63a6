//! Two threads that draw, try, settle, and put what they made into lanes.
ghost use Rattle.std.specs.Prelude.{◌≡◌, ◌<◌};
ghost use Rattle.sz_book_rules.specs.Plan.{IsPlan};
ghost use Rattle.sz_ledger_tests.specs.Keeping.{KeepsPlace};

use crate::placing::place;
use crate::plans::four_shards;
use crate::tally::{Tally, empty_lanes, times_in};
use std::alloc::Global;
use std::process::Abort;
use std::test::Fail;
use std::thread;
use sz_book::{Plan, Settled};
use sz_claims::{Ledger, Pass};

// Draws each ticket that comes, tries it and settles it. Whether each shard that was won came into the lane.
fn work(
    alloc: Global,
    ledger: &Ledger<Tally>,
    plan: &Plan,
    mut pass: Pass<Tally>,
    lane_no: u32,
) -> (Pass<Tally>, bool)
    requires of { (pass.ledger ≡ ledger.now) × (lane_no < ledger.now.lanes) × (pass.lane ≡ 0) }
    requires plan { IsPlan plan.now × (ledger.now.plan ≡ plan.now) }
    ensures kept { KeepsPlace pass result.0 }
{
    let mut all_in = true;
    for _ in 0..8 {
        let Some(claim) = ledger.draw(&mut pass) else {
            break;
        };
        if let Some(number) = ledger.number(&mut pass, &claim) {
            if let Settled::Won(receipt) = ledger.settle(&mut pass, &claim, number) {
                let is_in = place(alloc, ledger, &mut pass, plan, receipt, lane_no).unwrap_or(
                    false,
                );
                all_in = all_in && is_in;
            }
        }
    }
    (pass, all_in)
}

#[test]
fn two_threads_settle_each_shard_and_put_it_into_a_lane(rt: HostRuntime) -> Result<(), Fail> {
    let alloc = rt.alloc();
    let plan = four_shards(alloc)?;
    let lanes = empty_lanes(alloc, &plan, 2)?;
    let (ledger, mut first) = Ledger::make(alloc, plan.copied(alloc)?, lanes, 2)?;
    let second = ledger.split(&mut first).expect(&rt, "two passes");
    let shared = &ledger;
    let known = &plan;
    let ((mut first, a), (second, b)) = thread::join(
        &rt,
        move || -> (Pass<Tally>, bool)
            requires { (first.ledger ≡ shared.now) × (0 < shared.now.lanes) × (first.lane ≡ 0) × IsPlan known.now × (shared.now.plan ≡ known.now) }
            ensures { KeepsPlace first result.0 }
        { work(alloc, shared, known, first, 0) },
        move || -> (Pass<Tally>, bool)
            requires { (second.ledger ≡ shared.now) × (1 < shared.now.lanes) × (second.lane ≡ 0) × IsPlan known.now × (shared.now.plan ≡ known.now) }
            ensures { KeepsPlace second result.0 }
        { work(alloc, shared, known, second, 1) },
    );
    assert!(rt; a && b);
    ledger.join(&mut first, second);
    let closed = ledger.close(first);
    assert_eq!(rt; closed.settled.as_slice(), [1u64, 1, 1, 1].as_slice());
    for shard in 0..4 {
        assert_eq!(rt; times_in(closed.lanes.as_slice(), shard), 1);
    }
    Ok(())
}
