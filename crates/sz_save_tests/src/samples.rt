//! Files of saved tables that stand in more than one table of rows.

/// A sum of one emit, under a budget of 16 ticks.
pub const ONE_SUM: &[u8] = &[
    83, 90, 84, 65, 66, 76, 69, 49, 0, 0, 0, 0, 0, 0, 0, 16, 0, 0, 0, 1, 0, 0, 0, 1, 99, 0, 0, 0,
    0, 0, 0, 0, 0, 0, 2, 0, 0, 0, 0, 0, 0, 0, 0, 1, 0, 0, 0, 1, 0, 0, 0, 0, 0, 0, 0, 0, 0, 0, 0, 0,
    0, 0, 0, 1,
];

/// The same table without emits, under no bound.
pub const NO_SUMS: &[u8] = &[
    83, 90, 84, 65, 66, 76, 69, 49, 0, 0, 0, 0, 0, 0, 0, 0, 0, 0, 0, 1, 0, 0, 0, 1, 99, 0, 0, 0, 0,
    0, 0, 0, 0, 0, 2, 0, 0, 0, 0, 0, 0, 0, 0, 0,
];

/// The sum of one emit with the greatest bound.
pub const GREAT_BOUND: &[u8] = &[
    83, 90, 84, 65, 66, 76, 69, 49, 128, 0, 0, 0, 0, 0, 0, 0, 0, 0, 0, 1, 0, 0, 0, 1, 99, 0, 0, 0,
    0, 0, 0, 0, 0, 0, 2, 0, 0, 0, 0, 0, 0, 0, 0, 1, 0, 0, 0, 1, 0, 0, 0, 0, 0, 0, 0, 0, 0, 0, 0, 0,
    0, 0, 0, 1,
];
