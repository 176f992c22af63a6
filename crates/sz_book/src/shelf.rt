//! What the lock of a book guards.
ghost use Rattle.std.specs.Prelude.{◌≡◌, ◌+◌, ◌<◌, ◌≤◌, ◌^◌, ◌++◌, [], length, vec_len, vec_capacity, map, Some, IfSome, IfNone, IfOk};
ghost use Rattle.sz_book_rules.specs.Machine.{opening};
ghost use Rattle.sz_book_rules.specs.History.{IsTrueReport};
ghost use Rattle.sz_book.specs.Books.{IsPlain, Refuses, Lends, LendsNone, IsGiven, IsLeft, HaveNoShards, lanes_home};
ghost use Rattle.sz_book.specs.Books.{Takes as AsksAndTakes};

use crate::NoMemory;
use crate::closed::{Closed, Words};
use crate::held::Held;
use crate::lane::Lane;
use crate::load::Load;
use crate::plan::Plan;
use std::alloc::Global;
use std::marker::Model;
use sz_book_rules::{Event, Reply};

/// A ledger with its history, with the lanes that are home.
pub struct Shelf<T: Load> {
    ledger: Held<T>,
    homes: Vec<Option<Lane<T>>>,
    // What the end of the ledger fills.
    spare: Vec<Lane<T>>,
}

impl<T: Load> Drop for Shelf<T> {
    fn drop(self) {
        let Shelf {
            ledger: _,
            homes: _,
            spare: _,
        } = self;
    }
}

impl<T: Load> Model for Shelf<T> {
    ghost use Rattle.std.specs.Prelude.{vec_len, vec_capacity};
    ghost use Rattle.sz_book.specs.Books.{ShelfData, IsShelf};

    ghost Value = { ShelfData };

    ghost view = { λ shelf. record { ledger = shelf.ledger; homes = shelf.homes.items } };

    ghost invariant = { λ shelf. IsShelf shelf.ledger.state shelf.homes.items (vec_len shelf.homes) (vec_len shelf.spare) (vec_capacity shelf.spare) };
}

// The lanes, all home.
fn at_home<T: Load>(alloc: Global, lanes: Vec<Lane<T>>) -> Result<Vec<Option<Lane<T>>>, NoMemory>
    ensures value { IfOk result (λ homes. homes.items ≡ map (λ lane. Some lane) lanes.items) }
{
    let mut homes = Vec::with_capacity(alloc, lanes.len())?;
    for lane in lanes {
        homes.push(Some(lane))?;
    }
    Ok(homes)
}

impl<T: Load> Shelf<T> {
    /// A shelf at the opening of a round, with these lanes.
    pub fn new(alloc: Global, plan: &Plan, lanes: Vec<Lane<T>>) -> Result<Shelf<T>, NoMemory>
        requires few { length lanes.items < 2 ^ 32 }
        requires empty { HaveNoShards lanes.items }
        ensures value { IfOk result (λ shelf. shelf
            ≡ record { ledger = record { plan = plan.now; lanes = length lanes.items; state = opening plan.now (length lanes.items); history = [] }; homes = map (λ lane. Some lane) lanes.items }) }
    {
        let ledger = Held::new(alloc, plan, lanes.len() as u32)?;
        let spare = Vec::with_capacity(alloc, lanes.len())?;
        let homes = at_home(alloc, lanes)?;
        Ok(Shelf {
            ledger,
            homes,
            spare,
        })
    }

    /// Takes in an event that is of no lane, and answers it. None where it doesn't fit.
    pub fn ask(&mut self, event: &Event) -> Option<Reply>
        requires plain { IsPlain event.now }
        requires report { IsTrueReport T.died T.is_bad event.now }
        ensures some { IfSome result (λ reply. AsksAndTakes self.old event.now reply self.new) }
        ensures none { IfNone result (Refuses self.old event.now [] self.new) }
    {
        if !self.ledger.fits(event, &[]) {
            return None;
        }
        Some(self.ledger.apply(event, &[]))
    }

    /// Lends a lane, where it is home.
    pub fn lend(&mut self, lane_no: u32) -> Option<Lane<T>>
        ensures some { IfSome result (λ lane. Lends self.old lane_no lane self.new) }
        ensures none { IfNone result (LendsNone self.old lane_no self.new) }
    {
        let event = Event::LaneOut(lane_no);
        if !self.ledger.fits(&event, &[]) {
            return None;
        }
        match self.ledger.apply(&event, &[]) {
            Reply::Lane(true) => self.homes[lane_no as usize].take(),
            _ => None,
        }
    }

    /// Takes a lane back, where that fits. Otherwise the lane is dropped.
    pub fn give(&mut self, lane_no: u32, lane: Lane<T>)
        ensures given { IsGiven self.old lane_no lane self.new }
    {
        let event = Event::LaneBack(lane_no);
        let shards = lane.shards().as_slice();
        let Some(count) = self.ledger.count_in(lane_no, shards) else {
            return;
        };
        if !self.ledger.fits(&event, &shards[count..]) {
            return;
        }
        self.ledger.apply(&event, &shards[count..]);
        self.homes[lane_no as usize] = Some(lane);
    }

    /// What is left of the shelf: the lanes that are home, in their order, and the rows for the winners and the deaths.
    pub fn close(self, settled: Vec<u64>, deaths: Vec<u64>) -> Closed<T>
        ensures rows { (length result.settled ≡ length settled.items) × (length result.deaths ≡ length deaths.items) }
        ensures left { IsLeft T.died T.is_bad self result.lanes.items result.settled result.deaths result.least_bad }
    {
        let Shelf {
            ledger,
            homes,
            mut spare,
        } = self;
        let mut settled = settled;
        let mut deaths = deaths;
        let least_bad = ledger.show(&mut settled, &mut deaths);
        take_home(homes, &mut spare);
        Closed {
            lanes: spare,
            settled: Words::from_vec(settled),
            deaths: Words::from_vec(deaths),
            least_bad,
        }
    }
}

// Moves the lanes that are home behind these.
fn take_home<T: Load>(homes: Vec<Option<Lane<T>>>, lanes: &mut Vec<Lane<T>>)
    requires room { vec_len lanes.old + vec_len homes ≤ vec_capacity lanes.old }
    ensures lanes { lanes.new.items ≡ lanes.old.items ++ lanes_home homes.items }
{
    for home in homes {
        if let Some(lane) = home {
            lanes.push_reserved(lane);
        }
    }
}
