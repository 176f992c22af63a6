//! What holds of every history of a ledger. The calls do nothing: they promise laws of `specs/`.
ghost use Rattle.sz_book_rules.specs.Counting.{EachShardCountsOnce, TheWinnerStays, EachShardIsDecided};

/// Tickets and numbers come once, in order; a shard is won at most once, keeps its winner, and stands in one place.
pub fn each_shard_counts_once()
    ensures once { EachShardCountsOnce }
    ensures stays { TheWinnerStays }
{}

/// Once each ticket has ended, each shard below the least bad one is settled, or all its attempts died.
pub fn each_shard_is_decided()
    ensures decided { EachShardIsDecided }
{}
