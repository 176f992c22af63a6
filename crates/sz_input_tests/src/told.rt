//! Command lines as rows of one text.
use crate::{file_rows, resume_rows, rows};
use std::alloc::{AllocError, Global};
use std::fmt::Write;
use std::process::Abort;
use std::test::Fail;
use sz_types::{Frame, Text};
use sz_words::{RunSettings, Settings, Texts, WordsError, read_words};

/// The rows, which a call gives, so that no proof sees them.
fn most_rows() -> &'static str {
    rows::ROWS
}

/// The same of those with saved tables and files of types.
fn file_rows() -> &'static str {
    file_rows::FILE_ROWS
}

/// The same of jobs that are resumed.
fn resume_rows() -> &'static str {
    resume_rows::RESUME_ROWS
}

/// The words of a line, in which `~` stands for an empty word.
fn words_of(alloc: Global, line: &str) -> Result<Vec<String>, AllocError> {
    let mut words = Vec::new(alloc);
    for word in line.split(' ') {
        let word = if word == "~" { "" } else { word };
        words.push(String::from_str(alloc, word)?)?;
    }
    Ok(words)
}

/// What words ask for, as a row says it.
fn told(alloc: Global, words: &[String]) -> Result<String, Fail> {
    match read_words(alloc, words) {
        Err(WordsError::NoMemory) => Err("no memory")?,
        Err(WordsError::Usage) => Ok(String::from_str(alloc, "usage")?),
        Ok(settings) => told_settings(alloc, &settings),
    }
}

/// The same of settings.
fn told_settings(alloc: Global, settings: &Settings) -> Result<String, Fail> {
    match settings {
        Settings::Check { program, proto } => {
            let mut told = format!(in alloc; "check {}", program.as_str())?;
            add_types(&mut told, proto)?;
            Ok(told)
        }
        Settings::Selftest {
            seed,
            records,
            workers,
        } => Ok(format!(in alloc; "selftest {seed} {records} {workers}")?),
        Settings::Run(run) => told_run(alloc, "run", run),
        Settings::Resume(run) => told_run(alloc, "resume", run),
        Settings::Merge { files, save } => told_merge(alloc, files, *save),
    }
}

/// The file of types, where there is one.
fn add_types(told: &mut String, proto: &Option<Text>) -> Result<(), AllocError> {
    match proto {
        None => Ok(()),
        Some(file) => Ok(write!(told, " types {}", file.as_str())?),
    }
}

/// Whether tables are saved.
fn add_save(told: &mut String, save: bool) -> Result<(), AllocError> {
    if save {
        told.push_str(" saving")
    } else {
        Ok(())
    }
}

/// What a merge is asked for, as a row says it.
fn told_merge(alloc: Global, files: &Texts, save: bool) -> Result<String, Fail> {
    let mut told = String::from_str(alloc, "merge")?;
    for file in files.as_slice() {
        write!(told, " {}", file.as_str())?;
    }
    add_save(&mut told, save)?;
    Ok(told)
}

/// The name of a frame.
fn frame_name(frame: Frame) -> &'static str {
    match frame {
        Frame::Lines => "lines",
        Frame::Delimited => "delimited",
    }
}

/// What a run is asked for, or a job that is resumed, as a row says it.
fn told_run(alloc: Global, command: &str, run: &RunSettings) -> Result<String, Fail> {
    let mut told = format!(in alloc;
        "{command} {} {} {}",
        run.program.as_str(),
        run.input.as_str(),
        frame_name(run.frame)
    )?;
    write!(told, " {} {}", run.workers, run.shard)?;
    write!(told, " {} {} [", run.attempts, run.budget)?;
    for (i, kill) in run.kills.as_slice().iter().enumerate() {
        let comma = if i == 0 { "" } else { "," };
        write!(told, "{comma}{}.{}.{}", kill.shard, kill.number, kill.after)?;
    }
    told.push_str("] [")?;
    for (i, shard) in run.twice.as_slice().iter().enumerate() {
        let comma = if i == 0 { "" } else { "," };
        write!(told, "{comma}{shard}")?;
    }
    told.push(']')?;
    if run.skip > 0 {
        write!(told, " skipping {}", run.skip)?;
    }
    if run.ignore_undefs {
        told.push_str(" ignoring")?;
    }
    add_types(&mut told, &run.proto)?;
    add_save(&mut told, run.save)?;
    Ok(told)
}

/// Whether the words of a row ask for what it says.
fn holds(alloc: Global, row: &str) -> Result<bool, Fail> {
    let (line, wanted) = row.split_once(" => ").ok_or("no arrow")?;
    let words = words_of(alloc, line)?;
    Ok(told(alloc, &words)?.as_str() == wanted)
}

/// Asks for each row's words.
fn try_rows(rt: &impl Abort, alloc: Global, rows: &str) -> Result<(), Fail> {
    for line in rows.lines() {
        if !line.starts_with("== ") {
            assert!(rt; holds(alloc, line)?, "at {line}");
        }
    }
    Ok(())
}

#[test]
fn each_command_line_asks_for_what_its_row_says(rt: HostRuntime) -> Result<(), Fail> {
    try_rows(&rt, rt.alloc(), most_rows())
}

#[test]
fn saved_tables_and_files_of_types_are_asked_for(rt: HostRuntime) -> Result<(), Fail> {
    try_rows(&rt, rt.alloc(), file_rows())
}

#[test]
fn jobs_that_are_resumed_are_asked_for(rt: HostRuntime) -> Result<(), Fail> {
    try_rows(&rt, rt.alloc(), resume_rows())
}

/// `run p f --twice` with the shards below a number.
fn twice_below(alloc: Global, count: u32) -> Result<Vec<String>, AllocError> {
    let mut list = String::from_str(alloc, "0")?;
    for shard in 1..count {
        write!(list, ",{shard}")?;
    }
    let mut words = words_of(alloc, "run p f --twice")?;
    words.push(list)?;
    Ok(words)
}

#[test]
fn a_list_has_up_to_10000_entries(rt: HostRuntime) -> Result<(), Fail> {
    let most = twice_below(rt.alloc(), 10_000)?;
    assert!(&rt; matches!(read_words(rt.alloc(), &most), Ok(Settings::Run(..))));
    let more = twice_below(rt.alloc(), 10_001)?;
    assert!(&rt; matches!(read_words(rt.alloc(), &more), Err(WordsError::Usage)));
    Ok(())
}

/// `merge` with so many files, in one line.
fn merge_of(alloc: Global, count: u32) -> Result<String, AllocError> {
    let mut line = String::from_str(alloc, "merge")?;
    for number in 0..count {
        write!(line, " f{number}")?;
    }
    Ok(line)
}

#[test]
fn up_to_64_files_are_joined(rt: HostRuntime) -> Result<(), Fail> {
    let most = merge_of(rt.alloc(), 64)?;
    let words = words_of(rt.alloc(), &most)?;
    assert!(&rt; told(rt.alloc(), &words)?.as_str() == most.as_str());
    let more = merge_of(rt.alloc(), 65)?;
    let words = words_of(rt.alloc(), &more)?;
    assert!(&rt; told(rt.alloc(), &words)?.as_str() == "usage");
    Ok(())
}
