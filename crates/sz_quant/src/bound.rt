//! Bounds, and the variables that they are searched for.
use sz_list::Items;
use sz_tree::Expr;
use sz_types::Text;

/// The variables of a `when`, in order.
pub type Names = Items<Text>;

/// What the candidates of a variable are made of.
pub struct Bound {
    /// A copy of the expression in front of the brackets in which the variable stands.
    pub base: Expr,
    /// Whether these are the brackets of a slice, and not those of an index.
    pub slice: bool,
}

impl Drop for Bound {
    fn drop(self) {
        let Bound { base: _, slice: _ } = self;
    }
}

/// The bounds of variables, in their order.
pub type Bounds = Items<Bound>;
