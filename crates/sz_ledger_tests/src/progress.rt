//! What a pass of a schedule is at.
use sz_book::Claim;

/// What a pass is at: it has no ticket, or one, or one with the number of an attempt.
#[derive(Clone, Copy)]
pub enum At {
    Rest,
    Ticket(Claim),
    Attempt(Claim, u32),
}
