//! The end of a ledger, once its workers are done.
ghost use Rattle.std.specs.Prelude.{◌≡◌, ◌+◌, length, List, IfOk, OnOk};
ghost use Rattle.sz_book_rules.specs.declared.event.Entry.{Entry};
ghost use Rattle.sz_claims.specs.Known.{PassData, IsEnd, IsClosed, ends_in};
ghost use Rattle.sz_workers.specs.Closing.{AreBack, HasTakenIn, IsAlone, IsLeft};

use std::alloc::Global;
use sz_book::{Closed, Lane, Load, NoMemory};
use sz_claims::{Ledger, Pass};

/// Joins the passes of all workers to the first one, and closes the ledger: what it has at its end, and the workers' pockets, in order.
/// There is nothing where a worker had no memory.
pub fn close_all<T: Load>(
    alloc: Global,
    ledger: Ledger<T>,
    mut first: Pass<T>,
    back: Vec<Result<(Pass<T>, Lane<T>), NoMemory>>,
) -> Result<(Closed<T>, Vec<Lane<T>>), NoMemory>
    requires alone { IsAlone ledger (length back.items) first }
    requires back { AreBack ledger 1 back.items }
    ensures left { IfOk result (λ left. IsLeft T.died ledger.plan left.0.lanes.items left.1.items left.0.settled left.0.deaths) }
    ensures closed { IfOk result (λ left. (v : PassData) × (log : List Entry) × HasTakenIn ledger v left.1.items × IsEnd T.died T.is_bad v log
        × IsClosed v.ledger.plan (ends_in v log) left.0.lanes.items left.0.settled left.0.deaths left.0.least_bad) }
{
    let pockets = join_all(alloc, &ledger, &mut first, back)?;
    let closed = ledger.close(first);
    Ok((closed, pockets))
}

// Joins the passes of all workers to the first one: their pockets, in order.
fn join_all<T: Load>(
    alloc: Global,
    ledger: &Ledger<T>,
    first: &mut Pass<T>,
    back: Vec<Result<(Pass<T>, Lane<T>), NoMemory>>,
) -> Result<Vec<Lane<T>>, NoMemory>
    requires alone { IsAlone ledger.now (length back.items) first.old }
    requires back { AreBack ledger.now 1 back.items }
    ensures taken { IfOk result (λ pockets. HasTakenIn ledger.now first.new pockets.items) }
    ensures all { OnOk result (length first.new.joined + 1 ≡ first.new.made) }
{
    let mut pockets = Vec::new(alloc);
    for result in back {
        let (pass, pocket) = result?;
        ledger.join(first, pass);
        pockets.push(pocket)?;
    }
    Ok(pockets)
}
