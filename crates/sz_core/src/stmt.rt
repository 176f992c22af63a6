//! Checked statements.
ghost use Rattle.std.specs.Prelude.{◌≡◌, map};
ghost use Rattle.sz_core.specs.Statements.{block, stms_of};
ghost use Rattle.sz_core.specs.View.{stm_of};

use crate::expr::CoreExpr;
use sz_types::Place;

/// A step from a value into it.
pub enum CoreStep {
    /// To the element under an index or a key.
    Index(CoreExpr),
    /// To the part at a place, counted from 0.
    Field(u32),
}

impl Drop for CoreStep {
    fn drop(self) {
        match self {
            CoreStep::Index(_) | CoreStep::Field(_) => {}
        }
    }
}

/// How many of its candidates a variable of a `when` speaks of.
#[derive(Clone, Copy)]
pub enum CoreQuantity {
    Some,
    Each,
    All,
}

/// A variable of a `when`. Contracts see it by `quantified_of` of `specs/View.antt`.
pub struct Quantified {
    pub quantity: CoreQuantity,
    /// Its number among the variables, counted from 0.
    pub local: u32,
    /// What its candidates are made of: an array, a string, a byte string or a map.
    pub base: CoreExpr,
    /// Whether the candidates are the bounds of slices of the base, and not its indexes or keys.
    pub slice: bool,
}

impl Drop for Quantified {
    fn drop(self) {
        let Quantified {
            quantity: _,
            local: _,
            base: _,
            slice: _,
        } = self;
    }
}

/// A statement. Variables and tables go by their numbers, each kind from 0. A `Place` is where the statement begins: its first
/// token, which for a declaration or an assignment is the name. Contracts see it by `stm_of` of `specs/View.antt`.
pub enum CoreStmt {
    /// These statements in order. An empty statement is a block of none.
    Block(Vec<CoreStmt>),
    /// The variable is undefined from here on.
    Clear(u32),
    /// The variable has this value from here on.
    Keep(Place, u32, CoreExpr),
    /// The value goes into the variable, or where the steps lead in it.
    Store(Place, u32, Vec<CoreStep>, CoreExpr),
    /// A call whose value is let go.
    Evaluate(Place, CoreExpr),
    /// The test, what is done where it is true, and what is done where it isn't.
    Branch(Place, CoreExpr, Box<CoreStmt>, Box<CoreStmt>),
    /// The test, and what is done as long as it is true.
    While(Place, CoreExpr, Box<CoreStmt>),
    /// What is done, and the test: again as long as it is true.
    DoWhile(Place, Box<CoreStmt>, CoreExpr),
    /// The test, which is true where it is missing; what is done between turns; what is done in each turn.
    For(Place, Option<CoreExpr>, Box<CoreStmt>, Box<CoreStmt>),
    /// The end of the innermost loop.
    Break,
    /// The end of this turn of the innermost loop.
    Continue,
    /// The end of the function, with its result.
    Return(Place, CoreExpr),
    /// The end of the record, before its statements are.
    EndRecord(Place),
    /// The table, the indexes, the value, and the weight where the table has one.
    Emit(Place, u32, Vec<CoreExpr>, CoreExpr, Option<CoreExpr>),
    /// The variables in order, the condition, and what is done where it holds.
    When(Place, Vec<Quantified>, CoreExpr, Box<CoreStmt>),
}

impl Drop for CoreStmt {
    fn drop(self) {
        match self {
            CoreStmt::Block(_)
            | CoreStmt::Clear(_)
            | CoreStmt::Keep(_, _, _)
            | CoreStmt::Store(_, _, _, _)
            | CoreStmt::Evaluate(_, _)
            | CoreStmt::Branch(_, _, _, _)
            | CoreStmt::While(_, _, _)
            | CoreStmt::DoWhile(_, _, _)
            | CoreStmt::For(_, _, _, _)
            | CoreStmt::Break
            | CoreStmt::Continue
            | CoreStmt::Return(_, _)
            | CoreStmt::EndRecord(_)
            | CoreStmt::Emit(_, _, _, _, _)
            | CoreStmt::When(_, _, _, _) => {}
        }
    }
}

impl CoreStmt {
    /// A block of these statements.
    #[tactic(auto, using(crate::proofs::RowLemmas::stm_of_block))]
    pub fn block(statements: Vec<CoreStmt>) -> CoreStmt
        ensures value { stm_of result ≡ block (stms_of (map stm_of statements.items)) }
    {
        CoreStmt::Block(statements)
    }
}
