//! Whole programs.
ghost use Rattle.std.specs.Prelude.{◌≡◌, IfOk, IfErr, MatchResult};
ghost use Rattle.sz_types.specs.declared.place.Place.{Place as Where};
ghost use Rattle.sz_tree.specs.Statements.{Stms};
ghost use Rattle.sz_tree.specs.View.{program_of};
ghost use Rattle.sz_parse.specs.Program.{Spells, IsStuck};
ghost use Rattle.sz_parse.specs.Parsed.{OrNoMemory};

use crate::error::ParseError;
use crate::stmt::statement;
use std::alloc::Global;
use sz_lex::Tokens;
use sz_parse_expr::{Depth, Failed, Reader};
use sz_tree::Tree;

/// The tree that the tokens spell, of height at most `MAX_HEIGHT`. `Syntax` comes exactly where they spell none: at the first token
/// of the first statement that can't be read.
pub fn parse(alloc: Global, tokens: &Tokens) -> Result<Tree, ParseError>
    ensures found { IfOk result (λ t. Spells tokens.now (program_of t)) }
    ensures only_found { (ss : Stms) → Spells tokens.now ss → MatchResult result (λ t. program_of t ≡ ss) (λ e. OrNoMemory e (λ _. ⊥)) }

    ensures refused { IfErr result (λ e. OrNoMemory e (λ p. IsStuck tokens.now p)) }
    ensures only_refused { (p : Where) → IsStuck tokens.now p → MatchResult result (λ _. ⊥) (λ e. OrNoMemory e (λ q. q ≡ p)) }
{
    let mut statements = Vec::new(alloc);
    let text = tokens.text();
    let mut rest = tokens.as_slice();
    while let [first, ..] = rest {
        let reader = Reader {
            alloc,
            text,
            tokens: rest,
            depth: Depth::GREATEST,
        };
        match statement(reader) {
            Ok((tree, after)) => {
                statements.push(tree)?;
                rest = after;
            }
            Err(Failed::Memory) => return Err(ParseError::NoMemory),
            Err(Failed::Syntax) => return Err(ParseError::Syntax(first.place)),
        }
    }
    Ok(Tree { statements })
}
