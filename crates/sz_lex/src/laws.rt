//! What holds of all texts. The calls do nothing: each promises a law of `specs/Laws.antt`.
ghost use Rattle.sz_lex.specs.Laws.{EveryTextIsRead, SpansLieInOrder, HasOneList, HasNoRefusal, HasOneRefusal, RefusedPlaceIsInText, HasOneValue, WrittenApartIsRead, BlanksMeanNothing, StringsAreUtf8, LexemesAreUtf8};

/// A text has tokens, or it is refused.
pub fn every_text_is_read()
    ensures { EveryTextIsRead }
{}

/// The spans of a text's tokens lie one after another in it, with nothing but blanks and comments around them.
pub fn spans_lie_in_order()
    ensures { SpansLieInOrder }
{}

/// A text has at most one list of tokens.
pub fn tokens_are_unique()
    ensures { HasOneList }
{}

/// A text that has tokens is not refused, and a text is refused for one reason at most.
pub fn refusal_is_unique()
    ensures none { HasNoRefusal }
    ensures one { HasOneRefusal }
{}

/// The place of a refusal is that of a byte of the text.
pub fn refused_place_is_in_text()
    ensures { RefusedPlaceIsInText }
{}

/// A string or bytes literal stands for one value.
pub fn value_is_unique()
    ensures { HasOneValue }
{}

/// Tokens that are written apart are read as they were written, so blanks and comments between them mean nothing.
pub fn blanks_mean_nothing()
    ensures read { WrittenApartIsRead }
    ensures same { BlanksMeanNothing }
{}

/// The bytes of a text's tokens are UTF-8, and so is what its strings stand for.
pub fn tokens_are_utf8()
    ensures lexemes { LexemesAreUtf8 }
    ensures strings { StringsAreUtf8 }
{}
