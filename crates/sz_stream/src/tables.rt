//! What an input comes to, where nothing ends its run early.

use sz_total::Total;

/// The tables of an input, and the number of its records.
#[derive(Drop)]
pub struct InputTables<'a> {
    /// The tables of all that the records emit.
    pub total: Total<'a>,
    /// How many records there are, those among them that fault and were passed over.
    pub records: u64,
}
