//! What is said of a program: that it passes, or why it is refused.
ghost use Rattle.std.specs.Prelude.{◌≡◌, ◌≤◌, length, IfOk, IfSome, IfNone, Some as Just, None as Nothing, codes};
ghost use Rattle.sz_lex.specs.Tokens.{first_place};
ghost use Rattle.sz_check_rules.specs.declared.cause.Cause.TheVariants.{TooLong};
ghost use Rattle.sz_refusals.specs.Refusing.{refusal_at};
ghost use Rattle.sz_refusals.specs.Lines.{refusal_line};
ghost use Rattle.sz_refusals.specs.Texts.{most_program_bytes};
ghost use Rattle.szl_explain_judge.specs.Refusing.{IsProgram, IsRefused};
ghost use Rattle.szl_explain.specs.Answers.{first_line};

use crate::fault::Fault;
use crate::tables::say_left_out;
use crate::wrong_type::say_wrong_type;
use std::alloc::{AllocError, Global};
use sz_check_rules::Cause;
use sz_lex::{Tokens, lex};
use sz_parse::parse;
use sz_refusals::{FIRST_PLACE, MOST_PROGRAM_BYTES, Refusal, refusal_line};
use sz_types::Place;
use szl_explain_judge::{
    can_be_tried, refusal_in, say_character, say_literal, say_not_utf8, say_syntax, top_of,
};
use szl_explain_source::{Page, Source};

/// What is said of a program.
#[derive(Drop)]
pub struct Explanation {
    /// Why it is refused, or nothing where it isn't.
    pub refusal: Option<Refusal>,
    /// The line of the refusal as `szl check` writes it, with its newline; where there is none, the line that says so.
    pub line: Vec<u8>,
    /// The lines that say more, each with its newline.
    pub more: Vec<u8>,
}

/// Why the program is refused, and what more can be said of it; or that it passes.
pub fn explain(alloc: Global, text: &[u8]) -> Result<Explanation, AllocError>
    ensures program { IfOk result (λ e. IfNone e.refusal (IsProgram text.now)) }
    ensures refused { IfOk result (λ e. IfSome e.refusal (IsRefused text.now)) }
    ensures line { IfOk result (λ e. e.line.items ≡ first_line e.refusal) }
{
    match refusal_in(alloc, text)? {
        Some(refusal) => refused(alloc, text, refusal),
        None => passed(alloc, text),
    }
}

/// The explanation of a program that passes.
fn passed(alloc: Global, text: &[u8]) -> Result<Explanation, AllocError>
    ensures kept { IfOk result (λ e. e.refusal ≡ Nothing) }
    ensures line { IfOk result (λ e. e.line.items ≡ codes "the program passes\n") }
{
    let more = passing_lines(alloc, text)?;
    let line = Vec::from_slice(alloc, b"the program passes\n")?;
    Ok(Explanation {
        refusal: None,
        line,
        more,
    })
}

/// The explanation of a refusal of the text.
fn refused(alloc: Global, text: &[u8], refusal: Refusal) -> Result<Explanation, AllocError>
    ensures kept { IfOk result (λ e. e.refusal ≡ Just refusal) }
    ensures line { IfOk result (λ e. e.line.items ≡ refusal_line refusal) }
{
    let more = more_lines(alloc, text, &refusal)?;
    explained(alloc, refusal, more)
}

/// An explanation of these lines.
fn explained(alloc: Global, refusal: Refusal, more: Vec<u8>) -> Result<Explanation, AllocError>
    ensures kept { IfOk result (λ e. e.refusal ≡ Just refusal) }
    ensures line { IfOk result (λ e. e.line.items ≡ refusal_line refusal) }
{
    let line = refusal_line(alloc, &refusal)?;
    Ok(Explanation {
        refusal: Some(refusal),
        line,
        more,
    })
}

/// What is said of a program whose text has more bytes than a program may have, whatever they are.
pub fn explain_too_long(alloc: Global) -> Result<Explanation, AllocError>
    ensures refusal { IfOk result (λ e. e.refusal ≡ Just (refusal_at TooLong first_place)) }
    ensures line { IfOk result (λ e. e.line.items ≡ refusal_line (refusal_at TooLong first_place)) }
{
    let refusal = Refusal::at(Cause::TooLong, FIRST_PLACE);
    let more = too_long_lines(alloc)?;
    explained(alloc, refusal, more)
}

/// The lines of a text that is too long.
fn too_long_lines(alloc: Global) -> Result<Vec<u8>, AllocError> {
    let mut page = Page::new(alloc);
    say_number(&mut page, Cause::TooLong);
    page.say("\nThe text has more than ");
    page.number(MOST_PROGRAM_BYTES as u64);
    page.say(" bytes.\n");
    page.into_bytes()
}

/// Says the number of a refusal.
fn say_number(page: &mut Page, cause: Cause) {
    page.say("refusal ");
    page.number(cause.number() as u64);
}

/// The lines below the first.
fn more_lines(alloc: Global, text: &[u8], refusal: &Refusal) -> Result<Vec<u8>, AllocError> {
    if text.len() > MOST_PROGRAM_BYTES {
        return too_long_lines(alloc);
    }
    let mut page = Page::new(alloc);
    say_number(&mut page, refusal.cause);
    page.say("\n");
    match refusal.cause {
        Cause::BadChar => say_character(&mut page, text, refusal.place),
        Cause::BadLiteral => say_literal(&mut page, text, refusal.place),
        Cause::NotUtf8 => say_not_utf8(&mut page, text, refusal.place),
        _ => say_tokens(alloc, &mut page, text, refusal)?,
    }
    page.into_bytes()
}

/// Says more of a text that has tokens, so that its lexer fails for want of memory alone.
fn say_tokens(
    alloc: Global,
    page: &mut Page,
    text: &[u8],
    refusal: &Refusal,
) -> Result<(), AllocError>
    requires { length text.now ≤ most_program_bytes }
{
    let Ok(tokens) = lex(alloc, text) else {
        return Err(AllocError);
    };
    let source = Source {
        text,
        tokens: tokens.as_slice(),
    };
    let place = refusal.place;
    if let Cause::Syntax = refusal.cause {
        return say_syntax(alloc, page, source, place);
    }
    let tops = tops_of(alloc, &tokens)?;
    let fault = Fault {
        source,
        token: source.token_at(place),
        top: top_of(&tops, source, place),
    };
    if refusal.cause == Cause::WrongType && can_be_tried(source) {
        return say_wrong_type(alloc, page, fault);
    }
    fault.show(page);
    match refusal.cause {
        Cause::LeftOut => say_left_out(page, refusal.name_bytes()),
        Cause::BadTable => fault.say_table(page),
        Cause::BadProto => fault.say_field(page),
        Cause::TooMany => page.say(
            "A program has at most 64 tables. Hint: tables of the same kind and types can be one, with an index more.\n",
        ),
        Cause::NoType => fault.say_no_type(page),
        Cause::Misplaced => fault.say_misplaced(page),
        Cause::Unbounded => fault.say_unbounded(page),
        Cause::QuantOrder => fault.say_order(page),
        cause => return say_names(alloc, page, fault, cause),
    }
    Ok(())
}

/// The places where the statements at the top level begin, of tokens that spell a tree.
fn tops_of(alloc: Global, tokens: &Tokens) -> Result<Vec<Place>, AllocError> {
    let Ok(tree) = parse(alloc, tokens) else {
        return Err(AllocError);
    };
    let mut tops = Vec::new(alloc);
    for statement in tree.statements.as_slice() {
        tops.push(statement.place())?;
    }
    Ok(tops)
}

/// Says more of a refusal for which the names of the program are looked at.
fn say_names(
    alloc: Global,
    page: &mut Page,
    fault: Fault<'_>,
    cause: Cause,
) -> Result<(), AllocError> {
    match cause {
        Cause::UnknownName => fault.say_unknown(alloc, page),
        Cause::Redeclared => fault.say_twice(alloc, page),
        Cause::WrongKind => fault.say_wrong_kind(alloc, page),
        Cause::NoField => fault.say_no_field(alloc, page),
        Cause::WrongCount => fault.say_count(alloc, page),
        Cause::WrongWeight => fault.say_weight(alloc, page),
        Cause::NotAssignable => fault.say_not_assignable(alloc, page),
        Cause::EmitHere => fault.say_emit_here(alloc, page),
        // For these none is looked at.
        Cause::BadChar | Cause::BadLiteral | Cause::NotUtf8 | Cause::TooLong => Ok(()),
        Cause::Syntax | Cause::WrongType | Cause::NoType | Cause::Misplaced => Ok(()),
        Cause::LeftOut | Cause::BadTable | Cause::BadProto | Cause::Unbounded => Ok(()),
        Cause::QuantOrder | Cause::TooMany | Cause::ReservedName | Cause::TypeTooDeep => Ok(()),
    }
}

/// What more is said of a program that passes: that a run with `--ignore-undefs` refuses it, if one does.
fn passing_lines(alloc: Global, text: &[u8]) -> Result<Vec<u8>, AllocError> {
    let mut page = Page::new(alloc);
    if text.len() <= MOST_PROGRAM_BYTES {
        let Ok(tokens) = lex(alloc, text) else {
            return Err(AllocError);
        };
        let source = Source {
            text,
            tokens: tokens.as_slice(),
        };
        say_reserved(&mut page, source);
    }
    page.into_bytes()
}

/// Says where a table has the name that a run with `--ignore-undefs` keeps for its own.
fn say_reserved(page: &mut Page, source: Source<'_>) {
    for (index, token) in source.tokens.iter().enumerate() {
        let is_table = source.is(index.saturating_add(1), ":")
            && source.is(index.saturating_add(2), "table");
        if is_table && source.spelled(index) == b"_undefs".as_slice() {
            say_number(page, Cause::ReservedName);
            page.say(" with --ignore-undefs: ");
            page.say(Cause::ReservedName.text());
            page.say(" at ");
            page.place(token.place);
            page.say("\n");
            page.line(source.text, token.place, token.len);
            page.say(
                "With --ignore-undefs the table that counts what is passed over has this name: give this one another.\n",
            );
            return;
        }
    }
}
