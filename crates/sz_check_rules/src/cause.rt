//! Why a program is refused: each cause with its number and its text.
ghost use Rattle.std.specs.Prelude.{◌≡◌};
ghost use Rattle.sz_check_rules.specs.declared.cause.Cause.{Cause as AnyCause};
ghost use Rattle.sz_check_rules.specs.Causes.{number_of, text_of, IsNumber};

/// The causes, in the order of their numbers. The first five are those of a text that can't be read, the last two are those of a run.
#[derive(Clone, Copy, Debug)]
pub enum Cause {
    /// At the place stands a byte with which no token begins.
    BadChar,
    /// At the place begins a literal that isn't of its form.
    BadLiteral,
    /// At the place stands the first byte that isn't part of a valid front.
    NotUtf8,
    /// The text has more than 1,048,576 bytes.
    TooLong,
    /// At the place begins the first statement that isn't one.
    Syntax,
    /// The name isn't known at the place.
    UnknownName,
    /// The name is declared already.
    Redeclared,
    /// The name stands for something else than what is wanted.
    WrongKind,
    /// At the place stands a value of another type than what is wanted.
    WrongType,
    /// At the place stands a list or a map of which nothing says the type.
    NoType,
    /// The type has no field of the name.
    NoField,
    /// There are too many or too few arguments or indexes.
    WrongCount,
    /// A weight is missing, or there should be none.
    WrongWeight,
    /// The name is none of a variable that may change.
    NotAssignable,
    /// The statement may not stand at its place.
    Misplaced,
    /// The name is one of the language that is left out here.
    LeftOut,
    /// The table is none that its kind allows.
    BadTable,
    /// The field may not stand in its type.
    BadProto,
    /// Nothing bounds the variable of a `when`.
    Unbounded,
    /// The variable of a `when` stands after one that speaks of all candidates, and does not itself.
    QuantOrder,
    /// There are more than 64 tables.
    TooMany,
    /// At the place something would be emitted where nothing may be.
    EmitHere,
    /// A table has the name of the table of lines, which a run is to have. No judgement of a program by itself gives this cause.
    ReservedName,
    /// A table has an index or an element of a type with too many levels for a saved file. No judgement of a program by itself gives this
    /// cause.
    TypeTooDeep,
}

/// The causes by their numbers, which begin with 1, without the last two.
const CAUSES: [Cause; 22] = [
    Cause::BadChar,
    Cause::BadLiteral,
    Cause::NotUtf8,
    Cause::TooLong,
    Cause::Syntax,
    Cause::UnknownName,
    Cause::Redeclared,
    Cause::WrongKind,
    Cause::WrongType,
    Cause::NoType,
    Cause::NoField,
    Cause::WrongCount,
    Cause::WrongWeight,
    Cause::NotAssignable,
    Cause::Misplaced,
    Cause::LeftOut,
    Cause::BadTable,
    Cause::BadProto,
    Cause::Unbounded,
    Cause::QuantOrder,
    Cause::TooMany,
    Cause::EmitHere,
];

impl Cause {
    // Its number and its text.
    fn row(self) -> (u8, &'static str)
        ensures number { result.0 ≡ number_of self }
        ensures text { result.1.now ≡ text_of self }
    {
        match self {
            Cause::BadChar => (1, "bad character"),
            Cause::BadLiteral => (2, "bad literal"),
            Cause::NotUtf8 => (3, "not UTF-8"),
            Cause::TooLong => (4, "too long"),
            Cause::Syntax => (5, "syntax"),
            Cause::UnknownName => (6, "unknown name"),
            Cause::Redeclared => (7, "declared twice"),
            Cause::WrongKind => (8, "wrong kind of name"),
            Cause::WrongType => (9, "wrong type"),
            Cause::NoType => (10, "composite without a type"),
            Cause::NoField => (11, "no such field"),
            Cause::WrongCount => (12, "wrong count"),
            Cause::WrongWeight => (13, "wrong weight"),
            Cause::NotAssignable => (14, "not assignable"),
            Cause::Misplaced => (15, "misplaced statement"),
            Cause::LeftOut => (16, "not in this profile"),
            Cause::BadTable => (17, "bad table"),
            Cause::BadProto => (18, "bad proto field"),
            Cause::Unbounded => (19, "unbounded variable"),
            Cause::QuantOrder => (20, "all must come last"),
            Cause::TooMany => (21, "too many tables"),
            Cause::EmitHere => (22, "emit not allowed here"),
            Cause::ReservedName => (24, "reserved name: _undefs"),
            Cause::TypeTooDeep => (25, "table type too deep"),
        }
    }

    /// Its number: 1 to 25, of which 23 is no cause's.
    pub fn number(self) -> u8
        ensures value { result ≡ number_of self }
    {
        self.row().0
    }

    /// The cause with this number.
    pub fn with_number(number: u8) -> Cause
        requires is_one { IsNumber number }
        ensures value { (cause : AnyCause) → number ≡ number_of cause → result ≡ cause }
    {
        match number {
            24 => Cause::ReservedName,
            25 => Cause::TypeTooDeep,
            _ => CAUSES[number as usize - 1],
        }
    }

    /// Its text.
    pub fn text(self) -> &'static str
        ensures value { result.now ≡ text_of self }
    {
        self.row().1
    }
}
