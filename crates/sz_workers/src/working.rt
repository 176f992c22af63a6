//! The work of one worker.
ghost use Rattle.std.specs.Prelude.{◌≡◌, ◌<◌, [], ◌∷◌, IfOk, OnOk, OnErr};
ghost use Rattle.sz_book_rules.specs.History.{HasDrawn, HasNumber, IsAmong};
ghost use Rattle.sz_book_rules.specs.Orderly.{asks, tries, ended};
ghost use Rattle.sz_claims.specs.Known.{AreInHand};
ghost use Rattle.sz_workers.specs.Makers.{GivesEmits};
ghost use Rattle.sz_workers.specs.Working.{Goes, IsInPlace, Grows, HasAllWon, IsAtWork, longer_by, added_by};
ghost use Rattle.sz_workers.specs.Advances.{HasWorked, HasBegun};
ghost use Rattle.sz_workers.specs.LoopTickets.{Leads, LeavesAll, Stops, phase_after};

use crate::maker::{Maker, Missed};
use sz_book::{Claim, Lane, Load, NoMemory, Receipt, Settled};
use sz_claims::{Ledger, Pass};

/// Draws tickets until none is left, and runs their attempts. The part of each shard that it wins goes into the lane with this number
/// where no other worker has it, and else into the pocket. It stops where there is no memory.
pub fn run_tickets<T: Load, M: Maker<T>>(
    maker: &mut M,
    ledger: &Ledger<T>,
    pass: &mut Pass<T>,
    pocket: &mut Lane<T>,
    lane_no: u32,
) -> Result<(), NoMemory>
    requires of { (pass.old.ledger ≡ ledger.now) × (M.plan maker.old ≡ ledger.now.plan) }
    requires lane { lane_no < ledger.now.lanes }
    requires ready { IsAtWork pass.old pocket.old }
    ensures goes { Goes pass.old pass.new }
    ensures place { IsInPlace pass.new }
    ensures plan { M.plan maker.new ≡ M.plan maker.old }
    ensures worked { OnOk result (HasWorked T.died T.is_bad ledger.now.plan pass.old pass.new) }
    ensures begun { OnErr result (HasBegun T.died T.is_bad ledger.now.plan pass.old pass.new) }
    ensures grows { Grows pocket.old pocket.new }
    ensures hand { AreInHand pocket.new.shards pass.new.mine }
    ensures won { OnOk result (HasAllWon pass.new pocket.new) }
{
    while let Some(claim) = ledger.draw(pass) {
        try_shard(maker, ledger, pass, pocket, lane_no, &claim)?;
    }
    Ok(())
}

// Runs attempts of the claim's shard until the ticket ends.
fn try_shard<T: Load, M: Maker<T>>(
    maker: &mut M,
    ledger: &Ledger<T>,
    pass: &mut Pass<T>,
    pocket: &mut Lane<T>,
    lane_no: u32,
    claim: &Claim,
) -> Result<(), NoMemory>
    requires of { (pass.old.ledger ≡ ledger.now) × (M.plan maker.old ≡ ledger.now.plan) }
    requires lane { lane_no < ledger.now.lanes }
    requires ready { IsAtWork pass.old pocket.old }
    requires drew { HasDrawn claim.now pass.old.mine }
    ensures plan { M.plan maker.new ≡ M.plan maker.old }
    ensures ok { OnOk result (Leads T.died T.is_bad ledger.now.plan pass.old pass.new claim.now.ticket asks ended) }
    ensures err { OnErr result (Stops T.died T.is_bad ledger.now.plan pass.old pass.new claim.now.ticket asks) }
    ensures grows { Grows pocket.old pocket.new }
    ensures hand { AreInHand pocket.new.shards pass.new.mine }
    ensures won { OnOk result (HasAllWon pass.new pocket.new) }
{
    while let Some(number) = ledger.number(pass, claim) {
        if try_once(maker, ledger, pass, pocket, lane_no, claim, number)? {
            return Ok(());
        }
    }
    Ok(())
}

// Makes an attempt and reports how it ended. Whether its ticket has ended.
fn try_once<T: Load, M: Maker<T>>(
    maker: &mut M,
    ledger: &Ledger<T>,
    pass: &mut Pass<T>,
    pocket: &mut Lane<T>,
    lane_no: u32,
    claim: &Claim,
    number: u32,
) -> Result<bool, NoMemory>
    requires of { (pass.old.ledger ≡ ledger.now) × (M.plan maker.old ≡ ledger.now.plan) }
    requires lane { lane_no < ledger.now.lanes }
    requires ready { IsAtWork pass.old pocket.old }
    requires drew { HasDrawn claim.now pass.old.mine }
    requires given { HasNumber claim.now number pass.old.mine }
    ensures plan { M.plan maker.new ≡ M.plan maker.old }
    ensures ok { IfOk result (λ done.
        Leads T.died T.is_bad ledger.now.plan pass.old pass.new claim.now.ticket (tries number) (phase_after done)) }
    ensures err { OnErr result (Stops T.died T.is_bad ledger.now.plan pass.old pass.new claim.now.ticket (tries number)) }
    ensures grows { Grows pocket.old pocket.new }
    ensures hand { AreInHand pocket.new.shards pass.new.mine }
    ensures won { OnOk result (HasAllWon pass.new pocket.new) }
{
    match maker.attempt(claim, number) {
        Ok(part) => {
            settle(ledger, pass, pocket, lane_no, claim, number, part)?;
            Ok(true)
        }
        Err(Missed::Died) => {
            ledger.died(pass, claim, number);
            Ok(false)
        }
        Err(Missed::Bad) => {
            ledger.bad(pass, claim.shard);
            Ok(true)
        }
        Err(Missed::NoMemory) => Err(NoMemory),
    }
}

// Settles the claim's shard, and keeps the part where it was won.
fn settle<T: Load>(
    ledger: &Ledger<T>,
    pass: &mut Pass<T>,
    pocket: &mut Lane<T>,
    lane_no: u32,
    claim: &Claim,
    number: u32,
    part: T,
) -> Result<(), NoMemory>
    requires of { pass.old.ledger ≡ ledger.now }
    requires lane { lane_no < ledger.now.lanes }
    requires ready { IsAtWork pass.old pocket.old }
    requires drew { HasDrawn claim.now pass.old.mine }
    requires given { HasNumber claim.now number pass.old.mine }
    requires part { (T.plan part ≡ ledger.now.plan) × T.stands part (claim.now.shard ∷ []) }
    requires gave { GivesEmits T.died T.is_bad claim.now.shard number }
    ensures led { Leads T.died T.is_bad ledger.now.plan pass.old pass.new claim.now.ticket (tries number) ended }
    ensures grows { Grows pocket.old pocket.new }
    ensures hand { AreInHand pocket.new.shards pass.new.mine }
    ensures won { OnOk result (HasAllWon pass.new pocket.new) }
{
    match ledger.settle(pass, claim, number) {
        Settled::Won(receipt) => keep(ledger, pass, pocket, lane_no, receipt, part),
        Settled::Late(_) => Ok(()),
    }
}

// Puts the part of a shard that was just won into the lane with this number, or into the pocket where another worker has that lane.
fn keep<T: Load>(
    ledger: &Ledger<T>,
    pass: &mut Pass<T>,
    pocket: &mut Lane<T>,
    lane_no: u32,
    receipt: Receipt,
    part: T,
) -> Result<(), NoMemory>
    requires of { pass.old.ledger ≡ ledger.now }
    requires lane { lane_no < ledger.now.lanes }
    requires receipt { receipt.plan ≡ ledger.now.plan }
    requires ready { IsAtWork pass.old (longer_by pocket.old (receipt.shard ∷ [])) }
    requires part { (T.plan part ≡ ledger.now.plan) × T.stands part (receipt.shard ∷ []) }
    ensures led { LeavesAll T.died T.is_bad ledger.now.plan pass.old pass.new }
    ensures grows { Grows pocket.old pocket.new }
    ensures hand { AreInHand pocket.new.shards pass.new.mine }
    ensures won { OnOk result (HasAllWon pass.new pocket.new) }
{
    let Some(mut lane) = ledger.lend(pass, lane_no) else {
        return put(pocket, receipt, part);
    };
    let answer = put(&mut lane, receipt, part);
    ledger.give(pass, lane_no, lane);
    answer
}

// Puts a part into a lane, which stays as it is where there is no memory.
fn put<T: Load>(lane: &mut Lane<T>, receipt: Receipt, part: T) -> Result<(), NoMemory>
    requires plan { (receipt.plan ≡ lane.old.plan) × (T.plan part ≡ lane.old.plan) }
    requires part { T.stands part (receipt.shard ∷ []) }
    requires fresh { ¬ IsAmong receipt.shard lane.old.shards }
    ensures value { lane.new ≡ longer_by lane.old (added_by result receipt.shard) }
{
    lane.put(receipt, part).map_err(|_| NoMemory)
}
