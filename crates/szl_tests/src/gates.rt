//! Which attempts are made of shards, as gates count and hold them.
use crate::command::{PLAIN, Setting, left_by, text_of};
use std::alloc::Global;
use std::sync::Wait;
use std::sync::atomic::AtomicU64;
use std::sync::atomic::Ordering::SeqCst;
use std::test::Fail;
use std::thread::Threads;
use sz_io::{Gate, NoMemory};

/// A program over two lines, and what it leaves where no shard is lost.
const PROGRAM: &str =
    "count: table sum of int;¶total: table sum of int;¶x: int = input;¶emit count <- 1;¶emit total <- x;¶";

const LINES: &str = "3¶-1¶";

const TABLES: &str = "0 count[] = 2¶total[] = 2¶";

/// A gate that counts how often it was called, up to 15 times for each of the first tickets and attempts: each has four bits.
#[derive(Drop)]
struct Counts {
    tickets: AtomicU64,
    /// Those of shard 0 with the numbers 0 and 1, and then those of shard 1.
    attempts: AtomicU64,
}

impl Gate for Counts {
    fn at(&self, ticket: u32, shard: u64, number: u32) {
        let of_ticket = match ticket {
            0 => 0x1,
            1 => 0x10,
            2 => 0x100,
            3 => 0x1000,
            _ => 0x10000,
        };
        let of_attempt = match (shard, number) {
            (0, 0) => 0x1,
            (0, 1) => 0x10,
            (1, 0) => 0x100,
            (1, 1) => 0x1000,
            _ => 0x10000,
        };
        self.tickets.fetch_add(of_ticket, SeqCst);
        self.attempts.fetch_add(of_attempt, SeqCst);
    }
}

// With one attempt the ticket that asks first for its number has it: by one worker, that is the first ticket.
/// Words, and how often the gate is called for each ticket and for each attempt.
const COUNTED: &[(&str, u64, u64)] = &[
    ("run p f --shard 1 --workers 4", 0x11, 0x101),
    (
        "run p f --shard 1 --attempts 2 --kill 0.0.0 --workers 4",
        0x12,
        0x111,
    ),
    ("run p f --shard 1 --twice 0,1 --workers 2", 0x1111, 0x1111),
    (
        "run p f --shard 1 --attempts 1 --twice 0,1 --workers 1",
        0x101,
        0x101,
    ),
    ("run p f --twice 0 --workers 2", 0x11, 0x11),
];

fn counted() -> &'static [(&'static str, u64, u64)] {
    COUNTED
}

/// Whether a run whose attempts pass this gate leaves the tables.
fn leaves_tables<R: Threads + Wait + Sync, G: Gate + Sync>(
    rt: &R,
    alloc: Global,
    words: &str,
    gate: &G,
) -> Result<bool, Fail> {
    let program = text_of(alloc, PROGRAM)?;
    let given = Setting {
        words,
        input: LINES,
        ..PLAIN
    };
    Ok(left_by(rt, alloc, &given, program.as_bytes(), gate)?.as_str() == TABLES)
}

#[test]
fn killed_and_doubled_attempts_are_made(rt: HostRuntime) -> Result<(), Fail> {
    for (words, tickets, attempts) in counted() {
        let gate = Counts {
            tickets: AtomicU64::new(0),
            attempts: AtomicU64::new(0),
        };
        assert!(&rt; leaves_tables(&rt, rt.alloc(), words, &gate)?, "{words}");
        let found = (gate.tickets.load(SeqCst), gate.attempts.load(SeqCst));
        assert_eq!(&rt; found, (*tickets, *attempts), "{words}");
    }
    Ok(())
}

/// A program that faults on an empty line.
const FAULTS: &str = "c: table sum of int;¶x: int = input;¶if (x > 0) emit c <- 1;¶";

/// Whether a run over an empty line and a number leaves the fault, and how often its tickets and its attempts passed the gate.
fn passes_of<R: Threads + Wait + Sync>(
    rt: &R,
    alloc: Global,
    words: &str,
) -> Result<(bool, u64, u64), Fail> {
    let program = text_of(alloc, FAULTS)?;
    let given = Setting {
        words,
        input: "¶1¶",
        ..PLAIN
    };
    let gate = Counts {
        tickets: AtomicU64::new(0),
        attempts: AtomicU64::new(0),
    };
    let found = left_by(rt, alloc, &given, program.as_bytes(), &gate)?;
    let faults = found.as_str() == "3 ! record 1: undefined value used at 3:1";
    Ok((
        faults,
        gate.tickets.load(SeqCst),
        gate.attempts.load(SeqCst),
    ))
}

// The second ticket of a shard that faults has its attempt, too. The caller makes one more of it, since none was won.
#[test]
fn each_ticket_of_a_shard_that_faults_has_an_attempt(rt: HostRuntime) -> Result<(), Fail> {
    for (words, tickets, attempts) in [
        ("run p f --shard 1 --workers 1", 0x111, 0x102),
        (
            "run p f --shard 1 --attempts 2 --twice 0 --workers 1",
            0x1111,
            0x112,
        ),
    ] {
        let found = passes_of(&rt, rt.alloc(), words)?;
        assert!(&rt; found == (true, tickets, attempts), "{words}");
    }
    Ok(())
}

/// A gate that keeps the greatest number of a shard.
#[derive(Drop)]
struct Greatest {
    shard: AtomicU64,
}

impl Gate for Greatest {
    fn at(&self, _ticket: u32, shard: u64, _number: u32) {
        self.shard.fetch_max(shard, SeqCst);
    }
}

/// So many lines.
fn lines_of(alloc: Global, count: usize) -> Result<String, NoMemory> {
    let mut lines = String::new(alloc);
    for _ in 0..count {
        lines.push_str("1\n")?;
    }
    Ok(lines)
}

/// The greatest number of a shard that a gate is told in a run over so many lines, each a shard of its own.
fn greatest_of<R: Threads + Wait + Sync>(rt: &R, alloc: Global, count: usize) -> Result<u64, Fail> {
    let lines = lines_of(alloc, count)?;
    let given = Setting {
        words: "run p f --shard 1 --workers 2",
        input: lines.as_str(),
        ..PLAIN
    };
    let gate = Greatest {
        shard: AtomicU64::new(0),
    };
    left_by(rt, alloc, &given, b"c: table sum of int;", &gate)?;
    Ok(gate.shard.load(SeqCst))
}

// A round has 4,096 shards, and the gate is told the number of a shard in the whole input.
#[test]
fn the_shards_of_all_rounds_are_counted_on(rt: HostRuntime) -> Result<(), Fail> {
    for (count, greatest) in [(4_096, 4_095), (4_097, 4_096)] {
        let found = greatest_of(&rt, rt.alloc(), count)?;
        assert_eq!(&rt; found, greatest, "{count}");
    }
    Ok(())
}

/// A gate that keeps the greatest number of a shard under ticket 0, which is the first shard of the last round.
#[derive(Drop)]
struct Firsts {
    shard: AtomicU64,
}

impl Gate for Firsts {
    fn at(&self, ticket: u32, shard: u64, _number: u32) {
        if ticket == 0 {
            self.shard.fetch_max(shard, SeqCst);
        }
    }
}

/// Words, a number of lines, and the first shard of the last round. A round has at most 4,096 shards and 2^20 records.
const ROUNDS: &[(&str, usize, u64)] = &[
    ("run p f --shard 1 --workers 2", 4_096, 0),
    ("run p f --shard 1 --workers 2", 4_097, 4_096),
    ("run p f --shard 65536 --workers 2", 1_048_576, 0),
    ("run p f --shard 65536 --workers 2", 1_048_577, 16),
];

fn rounds() -> &'static [(&'static str, usize, u64)] {
    ROUNDS
}

/// The first shard of the last round of a run over an input.
fn last_round<'t, R: Threads + Wait + Sync>(
    rt: &R,
    alloc: Global,
    words: &'t str,
    input: &'t str,
) -> Result<u64, Fail> {
    let given = Setting {
        words,
        input,
        ..PLAIN
    };
    let gate = Firsts {
        shard: AtomicU64::new(0),
    };
    left_by(rt, alloc, &given, b"c: table sum of int;", &gate)?;
    Ok(gate.shard.load(SeqCst))
}

#[test]
fn a_round_ends_at_its_bounds_of_shards_and_records(rt: HostRuntime) -> Result<(), Fail> {
    for round in rounds() {
        let (words, count, first) = *round;
        let lines = lines_of(rt.alloc(), count)?;
        let found = last_round(&rt, rt.alloc(), words, lines.as_str())?;
        assert_eq!(&rt; found, first, "{words}");
    }
    Ok(())
}

/// A gate at which ticket 0 is held until ticket 1 has come.
#[derive(Drop)]
struct Holds {
    /// 1 once ticket 1 has come.
    has_come: AtomicU64,
    /// 1 once ticket 0 has seen that.
    was_seen: AtomicU64,
}

/// How often ticket 0 looks at most.
const MOST_LOOKS: u32 = 1 << 28;

impl Holds {
    fn hold(&self) {
        for _ in 0..MOST_LOOKS {
            if self.has_come.load(SeqCst) == 1 {
                self.was_seen.store(1, SeqCst);
                return;
            }
        }
    }
}

impl Gate for Holds {
    fn at(&self, ticket: u32, _shard: u64, _number: u32) {
        match ticket {
            0 => self.hold(),
            1 => self.has_come.store(1, SeqCst),
            _ => {}
        }
    }
}

// In the second run the two tickets are of one shard, with an attempt each: whichever has attempt 0 has no attempt that doesn't die.
#[test]
fn two_workers_are_at_work_at_once(rt: HostRuntime) -> Result<(), Fail> {
    for words in [
        "run p f --shard 1 --workers 2",
        "run p f --attempts 2 --twice 0 --kill 0.0.0 --workers 2",
    ] {
        let gate = Holds {
            has_come: AtomicU64::new(0),
            was_seen: AtomicU64::new(0),
        };
        assert!(&rt; leaves_tables(&rt, rt.alloc(), words, &gate)?, "{words}");
        assert_eq!(&rt; gate.was_seen.load(SeqCst), 1, "{words}");
    }
    Ok(())
}
