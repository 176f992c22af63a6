//! Routines: the parts of code that are entered.

use sz_list::Items;

/// A part of code that is entered at one line, with locals of its own.
pub struct Routine {
    /// The place of its first line, counted from 0.
    pub entry: usize,
    /// How many parameters it has. They are its first locals, in order.
    pub params: u32,
    /// How many locals it has, its parameters among them. Those that aren't parameters begin undefined.
    pub locals: u32,
}

impl Drop for Routine {
    fn drop(self) {
        let Routine {
            entry: _,
            params: _,
            locals: _,
        } = self;
    }
}

/// A list of routines. Places are counted from 0.
pub type Routines = Items<Routine>;
