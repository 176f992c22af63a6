//! Operators.
ghost use Rattle.std.specs.Prelude.{◌≡◌};
ghost use Rattle.sz_tree.specs.Expressions.{loose_of, left_loose};

/// An operator before its operand: `-`, `+`, `!`, `~`.
#[derive(Clone, Copy, Debug, PartialEq, Eq)]
pub enum UnaryOp {
    Negate,
    Plus,
    Not,
    Complement,
}

/// An operator between its operands, in the order of how loosely they bind, the loosest first:
/// `||`; `&&`; `==` to `>=`; `+` `-` `|` `^`; `*` `/` `%` `<<` `>>` `&`.
#[derive(Clone, Copy, Debug, PartialEq, Eq)]
pub enum BinaryOp {
    Or,
    And,
    Equal,
    NotEqual,
    Less,
    LessEqual,
    Greater,
    GreaterEqual,
    Add,
    Subtract,
    BitOr,
    BitXor,
    Multiply,
    Divide,
    Remainder,
    ShiftLeft,
    ShiftRight,
    BitAnd,
}

impl BinaryOp {
    /// How loosely the operator binds: from 1 for `*` to 5 for `||`.
    pub fn level(self) -> u32
        ensures value { result ≡ loose_of self }
    {
        match self {
            BinaryOp::Or => 5,
            BinaryOp::And => 4,
            BinaryOp::Equal
            | BinaryOp::NotEqual
            | BinaryOp::Less
            | BinaryOp::LessEqual
            | BinaryOp::Greater
            | BinaryOp::GreaterEqual => 3,
            BinaryOp::Add | BinaryOp::Subtract | BinaryOp::BitOr | BinaryOp::BitXor => 2,
            BinaryOp::Multiply
            | BinaryOp::Divide
            | BinaryOp::Remainder
            | BinaryOp::ShiftLeft
            | BinaryOp::ShiftRight
            | BinaryOp::BitAnd => 1,
        }
    }

    /// How loose its left operand may be: less than itself for a comparison, and else as loose.
    pub fn left_level(self) -> u32
        ensures value { result ≡ left_loose self }
    {
        let level = self.level();
        if level == 3 { 2 } else { level }
    }
}
