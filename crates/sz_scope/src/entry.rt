//! One declaration as the blocks keep it.
use crate::meaning::Meaning;

// A declaration, and what its name meant before it.
#[derive(Clone, Copy, Debug)]
pub(crate) struct Entry {
    // The place of the name among all names.
    pub(crate) name: usize,
    // How many blocks are open round that of the declaration.
    pub(crate) depth: usize,
    pub(crate) what: Meaning,
    // The place of the declaration of the same name that this one hides.
    pub(crate) hidden: Option<usize>,
}
