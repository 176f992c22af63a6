//! Why the judgement of a text ends without a program.
ghost use Rattle.std.specs.Prelude.{◌≡◌};

use sz_check_rules::Cause;
use sz_lex::LexError;
use sz_parse::ParseError;
use sz_refusals::Refusal;

/// Why a judgement ends without a program.
#[derive(Drop)]
pub enum Stop {
    /// The text is refused.
    Refused(Refusal),
    /// There was not enough memory.
    NoMemory,
}

impl From<LexError> for Stop {
    ghost use Rattle.szl_explain_judge.specs.Refusing.{stop_of_lexing};

    ghost from_gives = { λ error stop. stop ≡ stop_of_lexing error };

    fn from(error: LexError) -> Stop {
        match error {
            LexError::BadChar(place) => Stop::Refused(Refusal::at(Cause::BadChar, place)),
            LexError::BadLiteral(place) => Stop::Refused(Refusal::at(Cause::BadLiteral, place)),
            LexError::NotUtf8(place) => Stop::Refused(Refusal::at(Cause::NotUtf8, place)),
            LexError::NoMemory => Stop::NoMemory,
        }
    }
}

impl From<ParseError> for Stop {
    ghost use Rattle.szl_explain_judge.specs.Refusing.{stop_of_parsing};

    ghost from_gives = { λ error stop. stop ≡ stop_of_parsing error };

    fn from(error: ParseError) -> Stop {
        match error {
            ParseError::Syntax(place) => Stop::Refused(Refusal::at(Cause::Syntax, place)),
            ParseError::NoMemory => Stop::NoMemory,
        }
    }
}
