//! What is left of a ledger once it is closed.
use crate::lane::Lane;
use crate::load::Load;
use sz_list::Items;

/// Words, in order.
///
/// Contracts see a list.
pub type Words = Items<u64>;

/// A closed ledger.
pub struct Closed<T: Load> {
    /// The lanes that are home, in order. Those that are out are missing, so a lane's place need not be its number.
    pub lanes: Vec<Lane<T>>,
    /// For each shard 0, or 1 more than the number of the attempt that settled it.
    pub settled: Words,
    /// For each shard the attempts whose deaths were noted: bit k is attempt k, counted from 0.
    pub deaths: Words,
    /// The least shard that was marked bad.
    pub least_bad: Option<u32>,
}

impl<T: Load> Drop for Closed<T> {
    fn drop(self) {
        let Closed {
            lanes: _,
            settled: _,
            deaths: _,
            least_bad: _,
        } = self;
    }
}
