//! A step on a word that makes a call of a pass.
ghost use Rattle.std.specs.Prelude.{◌≡◌, ◌<◌};
ghost use Rattle.sz_claims.specs.Moves.{MayCall, replies};
ghost use Rattle.sz_claims.specs.Changes.{changed};
ghost use Rattle.sz_claims.specs.Rule.{view_of, CallsAt};

use crate::rule::{Asked, Law, Makes, Setup};
use crate::view::View;
use atomic_table::Seat;
use std::marker::Brand;
use sz_book::{Event, Lane, Load};

pub type Shared<T> = atomic_table::Shared<Option<Lane<T>>, View, Setup, Law<T>>;

pub type Place<T> = Seat<Option<Lane<T>>, View>;

/// What a step makes of a word.
pub enum Change {
    /// Itself: the step only looks.
    Keep,
    /// 1 more.
    Next,
    /// What has these bits too.
    Mark(u64),
    /// At most this.
    Lower(u64),
    /// This, where it is 0.
    Put(u64),
}

fn step_as<T: Load, C: Asked>(
    shared: &Shared<T>,
    seat: &mut Place<T>,
    word: usize,
    change: Change,
    event: &Event,
) -> u64
    requires table { (seat.old.table_id ≡ shared.now.table_id) × (word < shared.now.table_id.words) }
    requires may { MayCall T.died T.is_bad shared.now.key.plan shared.now.key.lanes (view_of seat.old.me) word (changed change) C.event C.reply }
    ensures same { seat.new.table_id ≡ seat.old.table_id }
    ensures call { CallsAt seat.old.me C.event (C.reply result) seat.new.me }
{
    match change {
        Change::Keep => shared.load::<Makes<C>>(seat, word),
        Change::Next => shared.fetch_add::<Makes<C>>(seat, word, 1),
        Change::Mark(bits) => shared.fetch_or::<Makes<C>>(seat, word, bits),
        Change::Lower(most) => shared.fetch_min::<Makes<C>>(seat, word, most),
        Change::Put(new) => shared.compare_exchange::<Makes<C>>(seat, word, 0, new),
    }
}

/// Changes a word, and so makes the call.
pub fn step<T: Load>(
    shared: &Shared<T>,
    seat: &mut Place<T>,
    word: usize,
    change: Change,
    event: &Event,
) -> u64
    requires table { (seat.old.table_id ≡ shared.now.table_id) × (word < shared.now.table_id.words) }
    requires may { MayCall T.died T.is_bad shared.now.key.plan shared.now.key.lanes (view_of seat.old.me) word (changed change) event.now (replies shared.now.key.plan event.now) }
    ensures same { seat.new.table_id ≡ seat.old.table_id }
    ensures call { CallsAt seat.old.me event.now (replies shared.now.key.plan event.now result) seat.new.me }
{
    step_as::<T, Brand>(shared, seat, word, change, event)
}
