//! Operators, conversions and literals: what single tokens of an expression mean.
ghost use Rattle.std.specs.Prelude.{◌≡◌};
ghost use Rattle.sz_lex.specs.declared.escape.Quoted.TheVariants as quoteds;
ghost use Rattle.sz_parse_expr.specs.Reading.{decoded};
ghost use Rattle.sz_parse_expr.specs.ReadingExpressions.{unary_of, sign_binary, conversion_of, operator_at};
ghost use Rattle.sz_parse_expr.specs.Outcome.{Gives, Sees};

use crate::failed::Failed;
use std::alloc::Global;
use sz_lex::{Kind, Quoted, Sign, Token, Word, decode};
use sz_tree::{BasicType, BinaryOp, UnaryOp};
use sz_types::Text;

// The operator that a token is before an operand.
pub fn unary_of(kind: Kind) -> Option<UnaryOp>
    ensures value { result ≡ unary_of kind }
{
    match kind {
        Kind::Sign(Sign::Minus) => Some(UnaryOp::Negate),
        Kind::Sign(Sign::Plus) => Some(UnaryOp::Plus),
        Kind::Sign(Sign::Not) => Some(UnaryOp::Not),
        Kind::Sign(Sign::Tilde) => Some(UnaryOp::Complement),
        _ => None,
    }
}

// The operator that a sign is between operands.
fn binary_of(sign: Sign) -> Option<BinaryOp>
    ensures value { result ≡ sign_binary sign }
{
    match sign {
        Sign::OrOr => Some(BinaryOp::Or),
        Sign::AndAnd => Some(BinaryOp::And),
        Sign::EqualEqual => Some(BinaryOp::Equal),
        Sign::NotEqual => Some(BinaryOp::NotEqual),
        Sign::Less => Some(BinaryOp::Less),
        Sign::LessEqual => Some(BinaryOp::LessEqual),
        Sign::Greater => Some(BinaryOp::Greater),
        Sign::GreaterEqual => Some(BinaryOp::GreaterEqual),
        Sign::Plus => Some(BinaryOp::Add),
        Sign::Minus => Some(BinaryOp::Subtract),
        Sign::Or => Some(BinaryOp::BitOr),
        Sign::Caret => Some(BinaryOp::BitXor),
        Sign::Star => Some(BinaryOp::Multiply),
        Sign::Slash => Some(BinaryOp::Divide),
        Sign::Percent => Some(BinaryOp::Remainder),
        Sign::ShiftLeft => Some(BinaryOp::ShiftLeft),
        Sign::ShiftRight => Some(BinaryOp::ShiftRight),
        Sign::And => Some(BinaryOp::BitAnd),
        _ => None,
    }
}

// The type that the word of a conversion names.
pub fn conversion_of(word: Word) -> Option<BasicType>
    ensures value { result ≡ conversion_of word }
{
    match word {
        Word::Int => Some(BasicType::Int),
        Word::String => Some(BasicType::String),
        Word::Bytes => Some(BasicType::Bytes),
        Word::Time => Some(BasicType::Time),
        _ => None,
    }
}

// An operator that binds as loosely as this, and what follows it.
#[tactic(auto, unfolding(crate::specs::ReadingExpressions::operator_at))]
pub fn operator(level: u32, tokens: &[Token]) -> Option<(BinaryOp, &[Token])>
    ensures value { Sees (λ x. (x.0, x.1.now)) result (operator_at level tokens.now) }
{
    let [
        Token {
            kind: Kind::Sign(sign),
            ..
        },
        rest @ ..,
    ] = tokens
    else {
        return None;
    };
    match binary_of(*sign) {
        Some(op) if op.level() == level => Some((op, rest)),
        _ => None,
    }
}

// The bytes that a string or bytes literal stands for.
#[tactic(auto, using(crate::proofs::TokenLemmas::decoded_is, crate::proofs::TokenLemmas::decoded_none))]
pub fn quoted(alloc: Global, quoted: Quoted, literal: &[u8]) -> Result<Vec<u8>, Failed>
    ensures value { Gives (λ v. v.items) result (decoded quoted literal.now) }
{
    match decode(alloc, quoted, literal)? {
        Some(value) => Ok(value),
        None => Err(Failed::Syntax),
    }
}

// The text that a string literal stands for.
#[tactic(auto, using(crate::proofs::TokenLemmas::string_is_utf8))]
pub fn string(alloc: Global, literal: &str) -> Result<Text, Failed>
    ensures value { Gives (λ t. t) result (decoded quoteds.Str literal.now) }
{
    Ok(Text::from_utf8(quoted(alloc, Quoted::Str, literal.as_bytes())?))
}
