//! How attempts end.
use sz_list::Items;
use sz_machine::Fault;
use sz_total::Total;

/// A record that faults.
#[derive(Clone, Copy, Debug)]
pub struct Skipped {
    /// Its number in the input, counted from 1.
    pub record_no: u64,
    pub fault: Fault,
}

/// Records that fault, in the order of the input.
///
/// Contracts see a list.
pub type Faults = Items<Skipped>;

/// How an attempt ends.
#[derive(Drop)]
pub enum AttemptEnd<'a> {
    /// With the tables of what the shard's records emit, and those of its records that fault and were passed over.
    Part(Total<'a>, Faults),
    /// At the first record that faults where no more may be passed over: the records that fault up to it, one more than may be passed over.
    Bad(Faults),
    /// It died after so many of the shard's records.
    Died(u32),
}
