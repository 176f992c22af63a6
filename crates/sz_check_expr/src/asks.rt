//! What a place asks of the expressions that stand there.
ghost use Rattle.std.specs.Prelude.{◌≡◌};
ghost use Rattle.sz_check_rules.specs.Agreeing.{asked_first, asked_after};
ghost use Rattle.sz_check_expr.specs.Asking.{asks_of, asked_of};

use sz_types::{Field, Ty};

/// The types that a place asks for: none, the same of each expression, or these in turn and then none.
#[derive(Clone, Copy)]
pub enum Asks<'t> {
    Nothing,
    Each(&'t Ty),
    Types(&'t [Ty]),
    Fields(&'t [Field]),
}

impl<'t> Asks<'t> {
    /// What is asked of the first expression.
    pub fn first(self) -> Option<&'t Ty>
        ensures value { asked_of result ≡ asked_first (asks_of self.entry) }
    {
        match self {
            Asks::Nothing | Asks::Types([]) | Asks::Fields([]) => None,
            Asks::Each(ty) | Asks::Types([ty, ..]) => Some(ty),
            Asks::Fields([field, ..]) => Some(&field.ty),
        }
    }

    /// What is asked of those after it.
    pub fn following(self) -> Asks<'t>
        ensures value { asks_of result ≡ asked_after (asks_of self.entry) }
    {
        match self {
            Asks::Nothing | Asks::Types([]) | Asks::Fields([]) => Asks::Nothing,
            Asks::Each(ty) => Asks::Each(ty),
            Asks::Types([_, rest @ ..]) => Asks::Types(rest),
            Asks::Fields([_, rest @ ..]) => Asks::Fields(rest),
        }
    }
}
