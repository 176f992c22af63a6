//! Inputs that are drawn, a part at a time: the saved tables of the parts, joined in whatever order, are those of one run over all of them.
use crate::command::text_of;
use crate::drawn::{Draws, line_drawn, program_of};
use crate::saving::{Named, left_over};
use std::alloc::Global;
use std::sync::Wait;
use std::test::Fail;
use std::thread::Threads;

/// The names of the parts, and of what joining two files makes.
const NAMES: [&str; 16] = [
    "0", "1", "2", "3", "4", "5", "6", "7", "8", "9", "10", "11", "12", "13", "14", "15",
];

/// What a run over files writes, which has to be at status 0.
fn out_of<R: Threads + Wait + Sync>(
    rt: &R,
    alloc: Global,
    words: &str,
    files: &[Named<'_>],
) -> Result<Vec<u8>, Fail> {
    let left = left_over(rt, alloc, words, files)?;
    if left.status != 0 {
        return Err("the run has no output")?;
    }
    Ok(left.out)
}

/// What a run of a program over an input writes.
fn run_out<R: Threads + Wait + Sync>(
    rt: &R,
    alloc: Global,
    words: &str,
    program: &str,
    input: &str,
) -> Result<Vec<u8>, Fail> {
    let files = [
        Named {
            name: "p",
            bytes: program.as_bytes(),
        },
        Named {
            name: "f",
            bytes: input.as_bytes(),
        },
    ];
    out_of(rt, alloc, words, &files)
}

/// What joining writes, over saved files in the order of their names.
fn joined_out<R: Threads + Wait + Sync>(
    rt: &R,
    alloc: Global,
    words: &str,
    saved: &[Vec<u8>],
) -> Result<Vec<u8>, Fail> {
    let mut files = Vec::new(alloc);
    for (bytes, name) in saved.iter().zip(NAMES.iter()) {
        files.push(Named {
            name: *name,
            bytes: bytes.as_slice(),
        })?;
    }
    out_of(rt, alloc, words, &files)
}

/// Joins the first two files, then the two behind them, and so on with what comes of it, until all are in the last.
fn tree_out<R: Threads + Wait + Sync>(
    rt: &R,
    alloc: Global,
    saved: &mut Vec<Vec<u8>>,
) -> Result<Vec<u8>, Fail> {
    let mut words = String::from_str(alloc, "merge --save 0")?;
    for number in 1..saved.len() {
        let first = number.wrapping_mul(2).wrapping_sub(2);
        let (one, other) = match (NAMES.get(first), NAMES.get(first.wrapping_add(1))) {
            (Some(one), Some(other)) => (*one, *other),
            _ => return Err("too many files")?,
        };
        words = format!(in alloc; "merge --save {one} {other}")?;
        let both = joined_out(rt, alloc, words.as_str(), saved)?;
        saved.push(both)?;
    }
    joined_out(rt, alloc, words.as_str(), saved)
}

/// The words that join so many files in an order that is drawn.
fn words_in_some_order(alloc: Global, draws: &mut Draws, count: usize) -> Result<String, Fail> {
    let mut words = String::from_str(alloc, "merge")?;
    let mut left = Vec::new(alloc);
    for name in NAMES.iter().take(count) {
        left.push(*name)?;
    }
    for _ in 0..count {
        let last = left.pop().unwrap_or("0");
        let at = draws.draw() as usize % (left.len() + 1);
        let mut name = last;
        if let Some(place) = left.get_mut(at) {
            name = *place;
            *place = last;
        }
        words.push(' ')?;
        words.push_str(name)?;
    }
    Ok(words)
}

/// Up to four lines.
fn part_drawn(alloc: Global, draws: &mut Draws) -> Result<String, Fail> {
    let mut part = String::new(alloc);
    for _ in 0..draws.draw() % 5 {
        part.push_str(line_drawn(draws))?;
    }
    Ok(text_of(alloc, part.as_str())?)
}

/// Whether the saved tables of an input's parts, of which there are 1 to 8, are joined those of all of them; and whether their text is.
fn is_joined<R: Threads + Wait + Sync>(
    rt: &R,
    alloc: Global,
    draws: &mut Draws,
) -> Result<bool, Fail> {
    let program = program_of(draws.draw());
    let options = if draws.draw() % 2 == 0 {
        "run p f --budget 9999 --skip 1000"
    } else {
        "run p f --budget 9999 --ignore-undefs"
    };
    let saving = format!(in alloc; "{options} --save")?;
    let mut all = String::new(alloc);
    let mut saved = Vec::new(alloc);
    for _ in 0..draws.draw() % 8 + 1 {
        let part = part_drawn(alloc, draws)?;
        saved.push(run_out(rt, alloc, saving.as_str(), program, part.as_str())?)?;
        all.push_str(part.as_str())?;
    }
    let whole = run_out(rt, alloc, saving.as_str(), program, all.as_str())?;
    let text = run_out(rt, alloc, options, program, all.as_str())?;
    let mut words = words_in_some_order(alloc, draws, saved.len())?;
    let printed = joined_out(rt, alloc, words.as_str(), &saved)?;
    words.push_str(" --save")?;
    let joined = joined_out(rt, alloc, words.as_str(), &saved)?;
    let in_pairs = tree_out(rt, alloc, &mut saved)?;
    let alike = joined.as_slice() == whole.as_slice() && in_pairs.as_slice() == whole.as_slice();
    Ok(alike && printed.as_slice() == text.as_slice())
}

#[test]
fn twenty_inputs_are_joined_from_their_parts(rt: HostRuntime) -> Result<(), Fail> {
    let mut draws = Draws { last: 7 };
    for number in 0..20 {
        assert!(&rt; is_joined(&rt, rt.alloc(), &mut draws)?, "input {number}");
    }
    Ok(())
}
