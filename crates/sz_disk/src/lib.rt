//! A disk as a journal sees it: bytes at offsets, and what a crash may leave of them; and a list of entries on it, each with a gate in
//! front of it that is opened once the entry is synced.
#![tactic(auto)]

mod beginning;
mod disk;
mod gate;
mod laws;
mod mem_disk;
mod os_disk;
mod put;
mod reading;
mod record;
mod span;
mod tearing;

pub use beginning::begin;
pub use disk::Disk;
pub use gate::append;
pub use laws::one_list;
pub use mem_disk::MemDisk;
pub use os_disk::OsDisk;
pub use put::settle;
pub use reading::{AtGate, read_gate};
pub use span::Span;
