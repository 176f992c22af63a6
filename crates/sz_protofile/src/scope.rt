//! What messages and enums are called.
use sz_types::Text;

/// What a message or an enum is called: the names of the messages around it, from the outermost on, and its own.
#[derive(Debug, Drop)]
pub struct Scope {
    /// The names with a dot between each two.
    pub full: Text,
    /// The names with an underscore between each two.
    pub joined: Text,
}
