//! Whole files.
ghost use Rattle.std.specs.Prelude.{◌≡◌, ◌<◌, ◌≤◌, ◌^◌, ◌-◌, List, [], length, IfOk, IfErr, MatchResult};
ghost use Rattle.sz_types.specs.declared.place.Place.{Place as Where};
ghost use Rattle.sz_protofile_lex.specs.Lexemes.{lexeme_of};
ghost use Rattle.sz_protofile.specs.declared.line.Line.{Line as Part};
ghost use Rattle.sz_protofile.specs.declared.error.FileError.TheVariants.{NoMemory};
ghost use Rattle.sz_protofile.specs.Forms.{line_at};
ghost use Rattle.sz_protofile.specs.Lines.{depth_after, place_in, Reads, IsStuckAt, HasLines, IsRefused, OrNoMemory};
ghost use Rattle.sz_protofile.specs.Outcome.{Gives};

use crate::error::FileError;
use crate::failed::Failed;
use crate::item::item;
use crate::line::Line;
use crate::part::part_or_end;
use std::alloc::Global;
use sz_protofile_lex::{Token, lex};
use sz_types::Place;

// The line at the front, inside so many messages.
#[tactic(auto, unfolding(crate::specs::Forms::line_at))]
fn line<'t>(
    alloc: Global,
    text: &[u8],
    depth: usize,
    tokens: &'t [Token],
) -> Result<(Line, &'t [Token]), Failed>
    ensures read { Gives (λ x. (x.0, x.1.now)) result (line_at (lexeme_of text.now) depth tokens.now) }
{
    if depth == 0 {
        item(alloc, text, tokens)
    } else {
        part_or_end(alloc, text, tokens)
    }
}

// How many messages are open after the line.
fn depth_after(line: Line, depth: usize) -> usize
    requires room { depth < 2 ^ 64 - 1 }
    ensures value { result ≡ depth_after line depth }
{
    match line {
        Line::Message(_) => depth + 1,
        Line::End => depth.saturating_sub(1),
        Line::Passed | Line::Package(_) | Line::Enum(_) | Line::Field(_) | Line::Unread(_) => depth,
    }
}

// Where the part of the file begins that a token belongs to.
fn place_in(depth: usize, place: Place, token: &Token) -> Place
    ensures value { result ≡ place_in depth place token.now }
{
    if depth == 0 { token.place } else { place }
}

// The lines that the tokens of a text are.
fn lines_of(alloc: Global, text: &[u8], tokens: &[Token]) -> Result<Vec<Line>, FileError>
    ensures found { IfOk result (λ v. Reads (lexeme_of text.now) 0 v.items tokens.now 0 []) }
    ensures refused { IfErr result (λ e. OrNoMemory e (IsStuckAt (lexeme_of text.now) tokens.now)) }
{
    let mut lines = Vec::new(alloc);
    let mut depth = 0;
    // Where the part of the file begins that is being read.
    let mut place = Place { line: 1, column: 1 };
    let mut rest = tokens;
    while let [token, ..] = rest {
        place = place_in(depth, place, token);
        match line(alloc, text, depth, rest) {
            Ok((line, after)) => {
                lines.push(line)?;
                depth = depth_after(line, depth);
                rest = after;
            }
            Err(Failed::Memory) => return Err(FileError::NoMemory),
            Err(Failed::Unfit) => return Err(FileError::Syntax(place)),
        }
    }
    if depth > 0 {
        return Err(FileError::Syntax(place));
    }
    Ok(lines)
}

/// The lines of a `.proto` file of at most 1,048,576 bytes.
///
/// `Syntax` comes exactly where the file isn't in the grammar: at the first byte that belongs to no token, or else at the
/// first token of the first part of the file that can't be read whole.
pub fn lines(alloc: Global, bytes: &[u8]) -> Result<Vec<Line>, FileError>
    requires { length bytes.now ≤ 1048576 }
    // What is found are the lines of the file.
    ensures found { IfOk result (λ v. HasLines bytes.now v.items) }
    // The file's lines are found, unless memory runs out.
    ensures only_found { (all : List Part) → HasLines bytes.now all → MatchResult result (λ v. v.items ≡ all) (λ e. e ≡ NoMemory) }

    // A refusal is the file's, unless memory ran out.
    ensures refused { IfErr result (λ e. OrNoMemory e (IsRefused bytes.now)) }
    // Where the file is refused, that place is the answer, unless memory runs out.
    ensures only_refused { (p : Where) → IsRefused bytes.now p → MatchResult result (λ _. ⊥) (λ e. OrNoMemory e (λ q. q ≡ p)) }
{
    let tokens = lex(alloc, bytes)?;
    lines_of(alloc, bytes, tokens.as_slice())
}
