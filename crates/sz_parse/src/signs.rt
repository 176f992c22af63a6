//! Parts with a sign or another part before or after them.
ghost use Rattle.std.specs.Prelude.{◌≡◌, ◌<◌, IfOk, IfErr, MatchResult};
ghost use Rattle.sz_tree.specs.View.{tree_of, stm_of};
ghost use Rattle.sz_parse_expr.specs.Reading.{utf8_in};
ghost use Rattle.sz_parse_expr.specs.ReadingExpressions.{expr_at};
ghost use Rattle.sz_parse.specs.ReadingStatements.{ended_at, after_at};
ghost use Rattle.sz_parse_expr.specs.Outcome.{Gives};

use sz_lex::{Sign, Token};
use sz_parse_expr::{Failed, Reader, expect, expr};
use sz_tree::{Expr, Stmt};

// The value, and what was read after it. Where three parts that may be missing are alive, each way out drops one value of which nothing is
// known.
pub fn beside<'t, T: Drop, U: Drop>(
    value: T,
    read: Result<(U, &'t [Token]), Failed>,
) -> Result<(T, U, &'t [Token]), Failed>
    ensures same { IfOk result (λ x. x.0 ≡ value) }
    ensures found { IfOk result (λ x. MatchResult read.entry (λ y. (y.0 ≡ x.1) × (y.1 ≡ x.2)) (λ _. ⊥)) }
    ensures failed { IfErr result (λ e. MatchResult read.entry (λ _. ⊥) (λ d. d ≡ e)) }
{
    match read {
        Ok((part, rest)) => Ok((value, part, rest)),
        Err(failed) => Err(failed),
    }
}

// The same statement, and what follows the semicolon after it.
#[tactic(auto, unfolding(sz_parse_expr::specs::Reading::bind))]
pub fn ended(tree: Stmt, tokens: &[Token]) -> Result<(Stmt, &[Token]), Failed>
    ensures read { Gives (λ x. (stm_of x.0, x.1.now)) result (ended_at (stm_of tree) tokens.now) }
{
    let rest = expect(Sign::Semicolon, tokens)?;
    Ok((tree, rest))
}

// The expression after this sign.
#[tactic(auto, unfolding(crate::specs::ReadingStatements::after_at, sz_parse_expr::specs::Reading::bind))]
pub fn later(reader: Reader<'_>, sign: Sign) -> Result<(Expr, &[Token]), Failed>
    ensures read { Gives (λ x. (tree_of x.0, x.1.now)) result
        (after_at (expr_at (utf8_in reader.entry.text.now) reader.entry.depth.levels) sign reader.entry.tokens.now) }
{
    let rest = expect(sign, reader.tokens)?;
    let part = expr(reader.at(rest), 5)?;
    Ok((part.tree, part.rest))
}
