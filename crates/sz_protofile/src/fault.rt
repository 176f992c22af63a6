//! What is wrong with a file.
use sz_types::{Place, Text};

/// What is wrong with a file, by the number of the rule that is broken, with the place and the name that tell where.
#[derive(Debug, Drop)]
pub struct Fault {
    pub number: u8,
    pub place: Place,
    pub name: Option<Text>,
}
