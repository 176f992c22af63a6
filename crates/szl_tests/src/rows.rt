//! Rows of whole runs, by subject: each run leaves what its row says.
use crate::command::{NEVER, PLAIN, Setting, left, text_of};
use crate::{
    checks, drawn_skips, expression_ticks, expressions, ignoring, kill_lists,
    kill_lists_and_faults, kill_lists_and_skips, kill_lists_of_pairs, messages, protos, runs,
    searches, skipping, statement_ticks, statements, tables, workers,
};
use std::alloc::Global;
use std::process::Abort;
use std::sync::Wait;
use std::test::Fail;
use std::thread::Threads;

/// The rows of runs that die, fault, or have workers of their own. Here and below a call gives them, so that no proof sees them.
fn rows_of_runs() -> [&'static str; 7] {
    [
        runs::RUNS,
        workers::RUNS,
        skipping::RUNS,
        kill_lists::RUNS,
        kill_lists_of_pairs::RUNS,
        kill_lists_and_faults::RUNS,
        kill_lists_and_skips::RUNS,
    ]
}

/// The rows of the language.
fn rows_of_programs() -> [&'static str; 10] {
    [
        tables::RUNS,
        expressions::RUNS,
        statements::RUNS,
        expression_ticks::RUNS,
        statement_ticks::RUNS,
        searches::RUNS,
        messages::RUNS,
        protos::RUNS,
        ignoring::RUNS,
        checks::RUNS,
    ]
}

/// The rows that leave the number of workers open, and the words that ask for one.
fn rows_of_any_workers() -> (&'static str, [&'static str; 4]) {
    (
        drawn_skips::RUNS,
        [
            " --workers 1",
            " --workers 2",
            " --workers 3",
            " --workers 8",
        ],
    )
}

/// What is given from a line on, and what the run leaves that the line is, where it is one.
fn read<'t>(line: &'t str, before: Setting<'t>) -> (Setting<'t>, Option<&'t str>) {
    if line.is_empty() || line.starts_with("== ") {
        return (PLAIN, None);
    }
    if let Some(words) = line.strip_prefix("$ [") {
        return read_words(words, before);
    }
    if let Some(input) = line.strip_prefix("< ") {
        return (Setting { input, ..before }, None);
    }
    if let Some(proto) = line.strip_prefix("% ") {
        return (Setting { proto, ..before }, None);
    }
    if let Some(call) = line.strip_prefix("! ") {
        return (failing(call, before), None);
    }
    match line.split_once(" => ") {
        Some((program, wanted)) => (Setting { program, ..before }, Some(wanted)),
        None => (before, Some("no arrow")),
    }
}

/// The same of a line with words.
fn read_words<'t>(words: &'t str, before: Setting<'t>) -> (Setting<'t>, Option<&'t str>) {
    match words.split_once("] => ") {
        Some((words, wanted)) => (Setting { words, ..before }, Some(wanted)),
        None => {
            let words = words.strip_suffix(']').unwrap_or("no bracket");
            (Setting { words, ..before }, None)
        }
    }
}

/// What is given where this call fails alone.
fn failing<'t>(call: &str, before: Setting<'t>) -> Setting<'t> {
    Setting {
        program_fails: number_of(call, "p "),
        input_fails: number_of(call, "f "),
        proto_fails: number_of(call, "q "),
        out_fails: number_of(call, "out "),
        err_fails: number_of(call, "err "),
        ..before
    }
}

/// The number of the call that fails on a device.
fn number_of(call: &str, device: &str) -> u64 {
    match call.strip_prefix(device) {
        Some(number) => number.parse().unwrap_or(NEVER),
        None => NEVER,
    }
}

/// Whether a run with these words more leaves this.
fn holds<R: Threads + Wait + Sync>(
    rt: &R,
    alloc: Global,
    given: &Setting<'_>,
    more: &str,
    wanted: &str,
) -> Result<bool, Fail> {
    let program = text_of(alloc, given.program)?;
    let words = format!(in alloc; "{}{more}", given.words)?;
    let given = Setting {
        words: words.as_str(),
        ..*given
    };
    Ok(left(rt, alloc, &given, program.as_bytes())?.as_str() == wanted)
}

/// Fails where a run with these words more leaves something else than its row says.
fn all_hold<R: Abort + Threads + Wait + Sync>(
    rt: &R,
    alloc: Global,
    rows: &'static str,
    more: &'static str,
) -> Result<(), Fail> {
    let mut given = PLAIN;
    for line in rows.lines() {
        let (next, wanted) = read(line, given);
        given = next;
        if let Some(wanted) = wanted {
            assert!(rt;
                holds(rt, alloc, &given, more, wanted)?,
                "at {line}{more} ({})",
                given.program
            );
        }
    }
    Ok(())
}

#[test]
fn each_run_leaves_what_its_row_says(rt: HostRuntime) -> Result<(), Fail> {
    for rows in rows_of_runs() {
        all_hold(&rt, rt.alloc(), rows, "")?;
    }
    Ok(())
}

#[test]
fn each_run_by_any_number_of_workers_leaves_what_its_row_says(rt: HostRuntime) -> Result<(), Fail> {
    let (rows, counts) = rows_of_any_workers();
    for more in counts {
        all_hold(&rt, rt.alloc(), rows, more)?;
    }
    Ok(())
}

#[test]
fn each_program_does_what_its_rows_say(rt: HostRuntime) -> Result<(), Fail> {
    for rows in rows_of_programs() {
        all_hold(&rt, rt.alloc(), rows, "")?;
    }
    Ok(())
}
