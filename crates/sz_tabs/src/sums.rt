//! Sums by component.

use sz_list::Items;

/// Exact sums, one for each component; a sum of `int` has one component. Places are counted from 0.
pub type Sums = Items<i128>;
