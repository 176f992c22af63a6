//! A program, and a round of two lines.
ghost use Rattle.std.specs.Prelude.{◌≡◌, [], ◌∷◌, length, IfSome};
ghost use Rattle.sz_core.specs.Sound.{IsSound};
ghost use Rattle.sz_gen_rules.specs.Simulates.{static_types};
ghost use Rattle.sz_world_rules.specs.Typed.{AllFit};
ghost use Rattle.sz_attempt.specs.Shards.{IsJob};
ghost use Rattle.sz_workers.specs.Rounds.{IsRound};

use std::alloc::Global;
use sz_attempt::{Job, Shard, ShardRanges};
use sz_check::check;
use sz_core::Program;
use sz_gen_stmt::{Compiled, compile};
use sz_lex::lex;
use sz_list::Items;
use sz_machine::{StaticsEnd, run_statics};
use sz_parse::parse;
use sz_records::{FrameLimits, Framer, Records};
use sz_types::Frame;
use sz_value::Slots;
use sz_workers::Round;

/// The number of lines that aren't 0, the sum of their numbers, and that of the squares. A line without a number faults.
const PROGRAM: &[u8] =
    b"count: table sum of int; total: table sum of int; sum_of_squares: table sum of int; x: int = input; \
      if (x != 0) emit count <- 1; emit total <- x; emit sum_of_squares <- x * x;";

// The program, checked.
fn checked(alloc: Global) -> Option<Program> {
    if PROGRAM.len() > 1000 {
        return None;
    }
    let tokens = lex(alloc, PROGRAM).ok()?;
    let tree = parse(alloc, &tokens).ok()?;
    check(alloc, &tree).ok()
}

// The program, compiled.
fn compiled(alloc: Global) -> Option<Compiled>
    ensures sound { IfSome result (λ compiled. IsSound compiled.core) }
{
    let program = checked(alloc)?;
    let _ = program.items();
    let Ok(compiled) = compile(alloc, program, false) else {
        return None;
    };
    Some(compiled)
}

// The statics of the program, which has none.
fn statics_of(alloc: Global, compiled: &Compiled) -> Option<Slots>
    ensures fit { IfSome result (λ slots. AllFit slots (static_types compiled.now.core)) }
{
    match run_statics(alloc, compiled.code(), 1_000_000) {
        Ok(StaticsEnd::Done(slots)) => Some(slots),
        _ => None,
    }
}

/// A job of the program, with three attempts and a second ticket for each of two shards. So many records that fault are passed over.
pub fn doubled_job(alloc: Global, skip: u32) -> Option<Job>
    ensures job { IfSome result (λ job. IsJob job) }
    ensures attempts { IfSome result (λ job. job.attempts ≡ 3) }
{
    let Ok(twice) = Items::copied(alloc, &[0u32, 1]) else {
        return None;
    };
    let compiled = compiled(alloc)?;
    let statics = statics_of(alloc, &compiled)?;
    Some(Job {
        compiled,
        statics,
        budget: 1_000_000,
        skip,
        attempts: 3,
        kills: Items::new(alloc),
        twice,
    })
}

// Two lines, if the text has so many.
fn two_records(alloc: Global, text: &[u8]) -> Option<Records>
    ensures count { IfSome result (λ records. length records.items ≡ 2) }
{
    let mut records = Records::new(alloc);
    let mut framer = Framer::new(alloc, Frame::Lines, FrameLimits::FULL);
    if framer.feed(text, &mut records).is_ok() && records.len() == 2 {
        Some(records)
    } else {
        None
    }
}

// A shard for each of them.
fn two_shards(alloc: Global) -> Option<ShardRanges>
    ensures value { IfSome result (λ shards. shards
        ≡ (record { first = 1; start = 0; end = 1 }) ∷ (record { first = 2; start = 1; end = 2 }) ∷ []) }
{
    let first = Shard {
        first: 1,
        start: 0,
        end: 1,
    };
    let second = Shard {
        first: 2,
        start: 1,
        end: 2,
    };
    let Ok(shards) = Items::copied(alloc, &[first, second]) else {
        return None;
    };
    Some(shards)
}

/// The round of a text's two lines, each a shard. No record in front of it was passed over.
pub fn round_of_two(alloc: Global, text: &[u8]) -> Option<Round>
    ensures round { IfSome result (λ round. IsRound round) }
    ensures passed { IfSome result (λ round. round.passed ≡ 0) }
{
    let records = two_records(alloc, text)?;
    let shards = two_shards(alloc)?;
    Some(Round {
        records,
        shards,
        first_shard: 0,
        passed: 0,
    })
}
