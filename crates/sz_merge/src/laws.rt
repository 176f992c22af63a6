//! The law of what states are together.
ghost use Rattle.sz_merge.specs.Laws.{IsOneTogether};

use crate::joining_forgets_the_order;

/// The same states are together one state, in whatever order they were added.
pub fn merging_forgets_the_order()
    ensures law { IsOneTogether }
{
    joining_forgets_the_order();
}
