//! Command lines that are drawn: each leaves the same by any number of workers.
use crate::command::{PLAIN, Setting, left};
use std::alloc::Global;
use std::fmt::Write;
use std::sync::Wait;
use std::test::Fail;
use std::thread::Threads;

/// Draws numbers, from one seed always the same ones.
#[derive(Drop)]
pub struct Draws {
    pub last: u64,
}

impl Draws {
    /// One of 0 to 999.
    pub fn draw(&mut self) -> u64 {
        self.last = self
            .last
            .wrapping_mul(6364136223846793005)
            .wrapping_add(1442695040888963407);
        (self.last >> 33) % 1000
    }

    /// Whether this is drawn of three.
    fn is_third(&mut self) -> bool {
        self.draw() % 3 == 0
    }
}

/// One of six programs.
pub fn program_of(number: u64) -> &'static str {
    match number % 6 {
        0 => {
            "c: table sum of int; d: table sum[string] of {n: int, l: int}; s: string = input; x: int = input; \
             emit c <- x; emit d[s] <- {1, len(s)};"
        }
        1 => {
            "t: table maximum(2) of string weight int; u: table minimum(2)[int] of string weight int; \
             s: string = input; emit t <- s weight len(s); emit u[len(s)] <- s weight int(s);"
        }
        2 => {
            "t: table set(2) of string; u: table set(3)[int] of string; \
             s: string = input; emit t <- s; emit u[len(s)] <- s;"
        }
        3 => {
            "t: table collection of string; u: table collection[int] of string; \
             s: string = input; emit t <- s; if (s[0] != 'a') emit u[len(s)] <- s;"
        }
        4 => {
            "c: table sum of int; t: table collection of int; x: int = input; \
             if (x < 8) emit c <- x; emit t <- x; emit t <- x;"
        }
        _ => {
            "static m: map[string] of int = {\"3\": 1, \"12\": 2}; \
             t: table collection of int; u: table maximum(3) of int weight int; s: string = input; \
             emit t <- m[s]; emit u <- m[s] weight len(s); when (i: each int; s[i] == '1') emit t <- i;"
        }
    }
}

/// One of five lines.
fn line_of(number: u64) -> &'static str {
    match number % 5 {
        0 => "3¶",
        1 => "12¶",
        2 => "-1¶",
        3 => "abc¶",
        _ => "¶",
    }
}

/// A line. Most are of the first two, so that not each input has one of the others.
pub fn line_drawn(draws: &mut Draws) -> &'static str {
    let number = draws.draw();
    if number % 3 == 0 {
        return line_of(number / 3);
    }
    line_of(number % 2)
}

/// Up to eight lines.
fn input_drawn(alloc: Global, draws: &mut Draws) -> Result<String, Fail> {
    let mut input = String::new(alloc);
    for _ in 0..draws.draw() % 9 {
        input.push_str(line_drawn(draws))?;
    }
    Ok(input)
}

/// Words with a size of shards, a number of attempts, some attempts of the first shards that die, and some shards that are doubled.
fn words_drawn(alloc: Global, draws: &mut Draws) -> Result<String, Fail> {
    let shard = 1 + draws.draw() % 3;
    let attempts = 1 + draws.draw() % 3;
    let mut words = format!(in alloc; "run p f --shard {shard} --attempts {attempts}")?;
    let mut before = " --kill ";
    for shard in 0..4u64 {
        for attempt in 0..attempts {
            if draws.is_third() {
                write!(words, "{before}{shard}.{attempt}.{}", draws.draw() % 3)?;
                before = ",";
            }
        }
    }
    let mut before = " --twice ";
    for shard in 0..4u64 {
        if draws.is_third() {
            write!(words, "{before}{shard}")?;
            before = ",";
        }
    }
    Ok(words)
}

/// What a run by so many workers leaves.
fn left_with<R: Threads + Wait + Sync>(
    rt: &R,
    alloc: Global,
    program: &str,
    input: &str,
    words: &str,
    workers: u32,
) -> Result<String, Fail> {
    let words = format!(in alloc; "{words} --workers {workers}")?;
    let given = Setting {
        program: "",
        words: words.as_str(),
        input,
        proto: "",
        ..PLAIN
    };
    left(rt, alloc, &given, program.as_bytes())
}

/// Whether a run that is drawn leaves the same by any number of workers.
fn is_alike<R: Threads + Wait + Sync>(
    rt: &R,
    alloc: Global,
    draws: &mut Draws,
) -> Result<bool, Fail> {
    let program = program_of(draws.draw());
    let input = input_drawn(alloc, draws)?;
    let words = words_drawn(alloc, draws)?;
    let one = left_with(rt, alloc, program, &input, &words, 1)?;
    let mut alike = true;
    for workers in [2, 3, 8] {
        let more = left_with(rt, alloc, program, &input, &words, workers)?;
        alike = alike && more.as_str() == one.as_str();
    }
    Ok(alike)
}

#[test]
fn two_hundred_runs_are_alike_by_any_number_of_workers(rt: HostRuntime) -> Result<(), Fail> {
    let mut draws = Draws { last: 1 };
    for number in 0..200 {
        assert!(&rt; is_alike(&rt, rt.alloc(), &mut draws)?, "run {number}");
    }
    Ok(())
}
