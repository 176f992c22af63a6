//! How runs end.

use sz_tabs::Emits;
use sz_types::Place;
use sz_value::Slots;

/// A fault, and its place in the program's text. The kinds: 1, an undefined value was used; 2, a store led outside of the value; 3, too many calls
/// were open; 4, the budget was passed.
#[derive(Clone, Copy, Debug)]
pub struct Fault {
    pub kind: u8,
    pub place: Place,
}

/// How a run for a record ends.
#[derive(Drop)]
pub enum RunEnd {
    /// With these emits, in the order in which they were made.
    Done(Emits),
    /// In this fault, and with no emits.
    Fault(Fault),
}

/// How the run of the statics ends.
#[derive(Drop)]
pub enum StaticsEnd {
    /// With the slots of the statics.
    Done(Slots),
    /// In this fault.
    Fault(Fault),
}
