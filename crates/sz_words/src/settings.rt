//! What a command line asks for, as plain data.
use sz_list::Items;
use sz_types::{Frame, Text};

/// An attempt that dies. One on a shard that isn't there, or with a number for which there is no attempt, has no effect.
#[derive(Clone, Copy, Debug, PartialEq, Eq)]
pub struct Kill {
    /// The number of the shard in the whole input, counted from 0: at most 2^31 - 1.
    pub shard: u32,
    /// The number of the attempt on that shard, counted from 0: at most 7.
    pub number: u32,
    /// After how many records of the shard it dies: at most 65,536.
    pub after: u32,
}

/// Kills, in the order of the words: at most 10,000, and no two of the same attempt.
///
/// Contracts see a list.
pub type Kills = Items<Kill>;

/// The numbers of the shards that have a second ticket, counted from 0 in the whole input, in the order of the words: at most 10,000, each once, and
/// each at most 2^31 - 1.
///
/// Contracts see a list.
pub type Twice = Items<u32>;

/// Names of files, in the order of the words.
///
/// Contracts see a list.
pub type Texts = Items<Text>;

/// The most records of a shard where nothing else is asked for.
pub const DEFAULT_SHARD: u32 = 1_000;

/// What a run is asked for.
pub struct RunSettings {
    /// The name of the program's file, or `-` for standard input.
    pub program: Text,
    /// The name of the input's file, or `-` for standard input.
    pub input: Text,
    /// The name of the `.proto` file whose types the program has, or `-` for standard input, if it has one. Of the three names at most one is `-`.
    pub proto: Option<Text>,
    /// How the records of the input are told apart: as lines where nothing else is asked for.
    pub frame: Frame,
    /// The number of workers: 1 to 64, and 4 where nothing is asked for.
    pub workers: u32,
    /// The most records of a shard: 1 to 65,536, and 1,000 where nothing is asked for.
    pub shard: u32,
    /// The most attempts on a shard: 1 to 8, and 3 where nothing is asked for.
    pub attempts: u32,
    /// The ticks that a record may take, and all statics together: 1 to 2^32, and 2^24 where nothing is asked for.
    pub budget: u64,
    /// How many records that fault are passed over at most: 0 to 1,000, and none where nothing is asked for.
    pub skip: u32,
    /// The attempts that die.
    pub kills: Kills,
    /// The shards with a second ticket.
    pub twice: Twice,
    /// Whether a statement that uses an undefined value is passed over and counted.
    pub ignore_undefs: bool,
    /// Whether the tables are saved and not printed.
    pub save: bool,
}

impl Drop for RunSettings {
    fn drop(self) {
        let RunSettings {
            program: _,
            input: _,
            proto: _,
            frame: _,
            workers: _,
            shard: _,
            attempts: _,
            budget: _,
            skip: _,
            kills: _,
            twice: _,
            ignore_undefs: _,
            save: _,
        } = self;
    }
}

/// What a command line asks for.
pub enum Settings {
    /// To run a program over an input.
    Run(RunSettings),
    /// To check a program.
    Check {
        /// The name of the program's file, or `-` for standard input.
        program: Text,
        /// The name of the `.proto` file whose types the program has, or `-` for standard input, if it has one.
        proto: Option<Text>,
    },
    /// To run the program of the self test over a generated input.
    Selftest {
        /// The number that the input is generated from: at most 2^63 - 1.
        seed: u64,
        /// The number of records of the input: at most 1,000,000.
        records: u32,
        /// The number of workers: 1 to 64.
        workers: u32,
    },
    /// To run a program over an input, and to keep each round that is done in a journal, behind whose last one the run goes on. Its `save` is
    /// false.
    Resume(RunSettings),
    /// To join saved tables.
    Merge {
        /// The names of 1 to 64 files of saved tables, of which one at the most is `-` for standard input.
        files: Texts,
        /// Whether the joined tables are saved and not printed.
        save: bool,
    },
}

impl Drop for Settings {
    fn drop(self) {
        match self {
            Settings::Run(_)
            | Settings::Resume(_)
            | Settings::Check {
                program: _,
                proto: _,
            }
            | Settings::Selftest {
                seed: _,
                records: _,
                workers: _,
            }
            | Settings::Merge { files: _, save: _ } => {}
        }
    }
}
