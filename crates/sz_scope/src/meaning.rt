//! What a name means.

/// What a name means. Each number is a place in a list of the program's, counted from 0.
#[derive(Clone, Copy, Debug, PartialEq, Eq)]
pub enum Meaning {
    /// A variable.
    Var(u32),
    /// A static.
    Static(u32),
    /// A quantified variable of a `when`.
    Quantified(u32),
    /// A named type.
    TypeName(u32),
    /// A table.
    Table(u32),
    /// A function that the program declares.
    Function(u32),
    /// A predeclared function.
    Builtin(u32),
    /// The record itself, `input`.
    Input,
}
