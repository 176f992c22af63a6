//! Who joins what waits at the parts of a table.
ghost use Rattle.std.specs.Prelude.{◌≡◌, ◌<◌, ⊤, length};
ghost use denote.Param.Send.{IsSync};
ghost use Rattle.sz_total.specs.Parts.{MayJoin, MayJoinAll, MayJoinAt, Settles, SettleAll, SettlesAt};

use crate::part::Part;
use std::alloc::Global;
use std::thread;
use std::thread::Threads;

// Fewer index lists are no work for threads: to start one takes as long as to join hundreds.
const FEWEST_FOR_THREADS: usize = 4096;

// Which tables are dealt out to parts before they are merged, besides those of which one side already is.
#[derive(Clone, Copy)]
pub(crate) enum Dealing {
    // None.
    Never,
    // Those that are large on both sides.
    BothLarge,
    // Those that are large on one side.
    OneLarge,
}

// Who joins the parts of tables: the caller alone, or threads.
pub(crate) trait Hands {
    // What has to be known of what they share.
    ghost may_share: { Type 0 };

    // Which tables they want dealt out.
    fn dealing(&self) -> Dealing;

    // Joins what waits at each part. There is room for it.
    fn settle_all<'a>(&self, alloc: Global, parts: &mut Vec<Part<'a>>)
        requires hands { may_share }
        requires may { MayJoinAll parts.old.items }
        ensures settled { SettleAll parts.old.items parts.new.items };
}

// The caller, who joins one part after the other, and deals large tables out early where threads are to join them with others later.
#[derive(Drop)]
pub(crate) struct Alone {
    pub(crate) early: bool,
}

impl Hands for Alone {
    ghost may_share = { ⊤ };

    fn dealing(&self) -> Dealing {
        if self.early {
            Dealing::OneLarge
        } else {
            Dealing::Never
        }
    }

    fn settle_all<'a>(&self, alloc: Global, parts: &mut Vec<Part<'a>>) {
        settle_one_by_one(alloc, parts);
    }
}

// Threads, at most so many.
#[derive(Drop)]
pub(crate) struct InThreads<'r, R: Threads + Sync> {
    pub(crate) rt: &'r R,
    pub(crate) threads: usize,
    pub(crate) ghost some: { 0 < threads },
}

impl<'r, R: Threads + Sync> Hands for InThreads<'r, R> {
    ghost may_share = { IsSync R.row };

    fn dealing(&self) -> Dealing {
        if self.threads > 1 {
            Dealing::BothLarge
        } else {
            Dealing::Never
        }
    }

    fn settle_all<'a>(&self, alloc: Global, parts: &mut Vec<Part<'a>>) {
        if parts.len() == 1 || few_wait(parts) {
            settle_one_by_one(alloc, parts);
        } else {
            settle_by(self.rt, self.threads, alloc, parts);
        }
    }
}

// Whether so few wait at the parts that they are joined before threads are started.
fn few_wait<'a>(parts: &Vec<Part<'a>>) -> bool {
    let mut waiting: usize = 0;
    for part in parts {
        waiting = waiting.saturating_add(part.waiting());
    }
    waiting < FEWEST_FOR_THREADS
}

// Joins what waits at each part, one part after the other.
fn settle_one_by_one<'a>(alloc: Global, parts: &mut Vec<Part<'a>>)
    requires may { MayJoinAll parts.old.items }
    ensures settled { SettleAll parts.old.items parts.new.items }
{
    for at in 0..parts.len() {
        settle_at(alloc, parts, at);
    }
}

// Joins what waits at the part with a number.
fn settle_at<'a>(alloc: Global, parts: &mut Vec<Part<'a>>, at: usize)
    requires may { MayJoinAt at parts.old.items }
    ensures settles { SettlesAt at parts.old.items parts.new.items }
{
    let part = &mut parts[at];
    part.settle(alloc);
}

// Joins what waits at each part, in at most so many threads.
fn settle_by<'a, R: Threads + Sync>(
    rt: &R,
    threads: usize,
    alloc: Global,
    parts: &mut Vec<Part<'a>>,
)
    requires threads { 0 < threads }
    requires may { MayJoinAll parts.old.items }
    ensures settled { SettleAll parts.old.items parts.new.items }
{
    thread::for_each_mut(
        rt,
        parts.as_mut_slice(),
        threads,
        &|_, part: &mut Part|
            requires { MayJoin part.now }
            ensures { Settles part.entry.now part.exit.now }
        { part.settle(alloc) },
    );
}
