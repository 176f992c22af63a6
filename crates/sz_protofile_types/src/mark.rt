//! What is known of nodes and links while components are looked for.

// What is known of a node.
#[derive(Clone, Copy, Debug)]
pub(crate) enum Mark {
    Unseen,
    // It stands at this place of the path.
    Open(usize),
    // All that it leads to is known, and this is its number.
    Closed(usize),
}

// Where a part of the path begins: all nodes of a part lead to each other.
#[derive(Clone, Copy, Debug)]
pub(crate) struct Start {
    // The place of its first node in the path.
    pub(crate) place: usize,
    // How many links were pending before those of its nodes.
    pub(crate) pending: usize,
}

// A link of one node to another.
#[derive(Clone, Copy, Debug)]
pub(crate) struct Link {
    pub(crate) from: usize,
    pub(crate) to: usize,
}
