//! What the calls of several callers are together. The call does nothing: it promises a law of `specs/`.
ghost use Rattle.sz_workers.specs.Laws.{OrderlyCallersAreOrderly};

/// Where the calls of each caller come in order and leave no ticket on its way, so do the calls of all together.
pub fn orderly_callers_are_orderly()
    ensures orderly { OrderlyCallersAreOrderly }
{}
