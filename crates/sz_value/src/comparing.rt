//! Rust's comparisons of values, which are the order's.
ghost use Rattle.std.specs.Prelude.{refl};
ghost use Rattle.std.specs.Ordering.{on, eq_by_cmp, as_partial_cmp};
ghost use Rattle.std.specs.Cmp.{on_per, on_equiv, on_po, on_total, partial_equiv_from_equiv, eq_by_cmp_equiv, partial_order_from_total};
ghost use Rattle.sz_value.specs.Order.{compare};
ghost use Rattle.sz_value.specs.Seen.{seen};
ghost use Rattle.sz_value.specs.Total.{compare_total};

use crate::ordering::order;
use crate::value::Value;
use std::cmp::Ordering;

impl PartialEq for Value {
    ghost eq = { on seen (eq_by_cmp compare) };

    ghost laws = { on_per seen (partial_equiv_from_equiv (eq_by_cmp_equiv compare_total)) };

    fn eq(&self, other: &Value) -> bool {
        order(self, other).is_eq()
    }
}

impl Eq for Value {
    ghost laws = { on_equiv seen (eq_by_cmp_equiv compare_total) };
}

impl PartialOrd for Value {
    ghost partial_cmp = { on seen (as_partial_cmp compare) };

    ghost laws = { on_po seen (partial_order_from_total compare_total) };

    fn partial_cmp(&self, other: &Value) -> Option<Ordering> {
        Some(order(self, other))
    }
}

impl Ord for Value {
    ghost cmp = { on seen compare };

    ghost total = { on_total seen compare_total };

    ghost matches_partial_cmp = { λ a b. refl };

    ghost matches_eq = { λ a b. refl };

    fn cmp(&self, other: &Value) -> Ordering {
        order(self, other)
    }
}
