//! The rule of the table, and what its steps tell.
ghost use Rattle.std.specs.Prelude.{◌≡◌, ℕ, List, [], ◌∷◌};
ghost use Rattle.sz_book_rules.specs.declared.event.Event.{Event};
ghost use Rattle.sz_book_rules.specs.declared.event.Reply.{Reply};
ghost use Rattle.sz_claims.specs.Rule.{Kept, newcomer, view_of, slots_out, CallsAt, Looked, Lent, Given, split_left, split_right, merged, spent};

use crate::view::View;
use atomic_table::{Join, Play, Split, TableRule};
use std::marker::{Brand, PhantomData};
use sz_book::{Lane, Load, Plan};

/// What the ledger of a table has: its plan, and how many lanes.
pub struct Setup {
    pub plan: Plan,
    pub lanes: u32,
}

impl Drop for Setup {
    fn drop(self) {
        let Setup { plan: _, lanes: _ } = self;
    }
}

/// There is one legal history, and the table shows the state that it leads to.
pub struct Law<T> {
    marker: PhantomData<T>,
}

impl<T: Load> TableRule<Option<Lane<T>>, View, Setup> for Law<T> {
    ghost holds = { λ key s. Kept T.died T.is_bad key.plan key.lanes s };

    ghost first = { λ key. newcomer key.plan key.lanes };
}

/// Which call a step makes, and the reply to each number found. Each step picks it.
pub trait Asked {
    ghost event: { Event };

    ghost reply: { ℕ → Reply };
}

impl Asked for Brand {
    ghost event = { Event.Draw };

    ghost reply = { λ n. Reply.Noted };
}

/// The call becomes the last entry of what is seen.
pub struct Makes<C> {
    marker: PhantomData<C>,
}

impl<T: Load, C: Asked> Play<Option<Lane<T>>, View> for Makes<C> {
    ghost then = { λ s v n w. CallsAt v C.event (C.reply n) w };
}

/// Which lane a step takes or brings, and the shards that come with it. Each step picks it.
pub trait OfLane {
    ghost lane: { ℕ };

    ghost shards: { List ℕ };
}

impl OfLane for Brand {
    ghost lane = { 0 };

    ghost shards = { [] };
}

/// The lane goes out to the pass, where it is home.
pub struct Lends<C> {
    marker: PhantomData<C>,
}

impl<T: Load, C: OfLane> Play<Option<Lane<T>>, View> for Lends<C> {
    ghost then = { λ s v n w. Lent C.lane v n w };
}

/// The lane is home again.
pub struct Gives<C> {
    marker: PhantomData<C>,
}

impl<T: Load, C: OfLane> Play<Option<Lane<T>>, View> for Gives<C> {
    ghost then = { λ s v n w. Given C.lane C.shards v w };
}

/// The history so far is seen.
pub struct Looks;

impl<T: Load> Play<Option<Lane<T>>, View> for Looks {
    ghost then = { λ s v n w. Looked (view_of v) (view_of w) × (slots_out w ≡ slots_out v) };
}

/// A pass makes another, or takes one in.
pub struct Parts;

impl Split<View> for Parts {
    ghost left = { split_left };

    ghost right = { split_right };
}

impl Join<View> for Parts {
    ghost both = { merged };

    ghost spent = { spent };
}
