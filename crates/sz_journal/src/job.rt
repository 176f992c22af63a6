//! A job: what a command line asks for, and the texts that it speaks of.
use sz_list::Items;
use sz_types::Frame;
use sz_value::Octets;

/// An attempt that dies.
#[derive(Clone, Copy, Debug, PartialEq, Eq)]
pub struct Triple {
    /// The shard, counted from 0.
    pub shard: u32,
    /// The number of the attempt on that shard, counted from 0.
    pub number: u32,
    /// After how many records of the shard it dies.
    pub after: u32,
}

/// Attempts that die, in the order of the words.
pub type Triples = Items<Triple>;

/// Numbers of shards, in the order of the words.
pub type Numbers = Items<u32>;

/// What a job is asked for, with the bytes of the program and of its file of types. Two jobs with the same parts are the same job.
#[derive(Drop)]
pub struct JobBytes {
    /// How the records of the input are told apart.
    pub frame: Frame,
    /// The most records of a shard.
    pub shard: u32,
    /// The number of attempts on a shard.
    pub attempts: u32,
    /// The ticks that a record may take.
    pub budget: u64,
    /// Whether a statement that uses an undefined value is passed over and counted.
    pub ignoring: bool,
    /// How many records that fault are passed over.
    pub skip: u32,
    /// The attempts that die.
    pub kills: Triples,
    /// The shards with a second ticket.
    pub doubled: Numbers,
    /// The text of the program.
    pub program: Octets,
    /// The file of types, and no byte where there is none.
    pub proto: Octets,
}
