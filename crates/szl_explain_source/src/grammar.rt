//! The grammar of programs as data: which token chooses how a part of a program goes on.
use sz_lex::Kind;

/// A symbol, the tokens that choose this row and are read by it, and what follows them. A row without tokens is for all that no row above
/// it has, and reads none. Of what follows, words with a capital letter are symbols, those of `MARKS` are marks, and all others tokens.
type Row = (&'static str, &'static str, &'static str);

const ROWS: &[Row] = &[
    ("Program", "", "Statement Program"),
    ("Program", "", ""),
    ("Block", "}", ""),
    ("Block", "", "Statement Block"),
    ("Inner", "", "@enter Statement @leave"),
    ("Statement", "name", "AfterName"),
    ("Statement", ";", ""),
    ("Statement", "{", "@enter Block @leave"),
    ("Statement", "static", "name @1static : Type = Expression ;"),
    ("Statement", "type", "name @1type = Type ;"),
    ("Statement", "break continue", ";"),
    ("Statement", "return", "MaybeExpression"),
    ("Statement", "emit", "name Indexes <- Expression Weight ;"),
    ("Statement", "if", "( Expression ) Inner Else"),
    ("Statement", "while", "( Expression ) Inner"),
    ("Statement", "do", "Inner while ( Expression ) ;"),
    (
        "Statement",
        "for",
        "@enter ( First MaybeExpression Last Inner @leave",
    ),
    (
        "Statement",
        "when",
        "@enter ( name @1quantified Variables Condition ) Inner @leave",
    ),
    ("AfterName", ":", "AfterColon"),
    ("AfterName", ":=", "@2variable Expression ;"),
    ("AfterName", "", "Simple ;"),
    (
        "AfterColon",
        "table",
        "@3table name Limit TableIndexes of Element TableWeight ;",
    ),
    (
        "AfterColon",
        "function",
        "@3function @enter ( Parameters : Type { Block @leave",
    ),
    ("AfterColon", "", "@2variable Type MaybeValue ;"),
    ("MaybeValue", "=", "Expression"),
    ("MaybeValue", "", ""),
    ("MaybeExpression", ";", ""),
    ("MaybeExpression", "", "Expression ;"),
    ("Else", "else", "Inner"),
    ("Else", "", ""),
    ("First", ";", ""),
    ("First", "name", "AfterFirst ;"),
    ("AfterFirst", ":", "@2variable Type = Expression"),
    ("AfterFirst", ":=", "@2variable Expression"),
    ("AfterFirst", "", "Simple"),
    ("Last", ")", ""),
    ("Last", "name", "Simple )"),
    ("Simple", "++ --", ""),
    ("Simple", "(", "Arguments"),
    ("Simple", ".", "name Steps = Expression"),
    ("Simple", "[", "Expression ] Steps = Expression"),
    ("Simple", "=", "Expression"),
    ("Steps", ".", "name Steps"),
    ("Steps", "[", "Expression ] Steps"),
    ("Steps", "", ""),
    ("Indexes", "[", "Expression ] Indexes"),
    ("Indexes", "", ""),
    ("Weight", "weight", "Expression"),
    ("Weight", "", ""),
    ("Variables", ",", "name @1quantified Variables"),
    ("Variables", ":", "Quantity Type ;"),
    ("Quantity", "some each all", ""),
    ("Condition", "name", "AfterVariable"),
    ("Condition", "", "Expression"),
    (
        "AfterVariable",
        ",",
        "@2quantified name @1quantified Variables Condition",
    ),
    (
        "AfterVariable",
        ":",
        "@2quantified Quantity Type ; Condition",
    ),
    (
        "AfterVariable",
        "",
        "Call Parts SumRest CompareRest LogicRest",
    ),
    ("Limit", "(", "number )"),
    ("Limit", "", ""),
    ("TableIndexes", "[", "Element ] TableIndexes"),
    ("TableIndexes", "", ""),
    ("TableWeight", "weight", "Element"),
    ("TableWeight", "", ""),
    ("Element", "name", "AfterElement"),
    ("Element", "", "Type"),
    ("AfterElement", ":", "Type"),
    ("AfterElement", "", ""),
    ("Parameters", ")", ""),
    ("Parameters", "name", "@1parameter : Type MoreParameters )"),
    (
        "MoreParameters",
        ",",
        "name @1parameter : Type MoreParameters",
    ),
    ("MoreParameters", "", ""),
    ("Type", "name bool int string bytes time", ""),
    ("Type", "array", "of Type"),
    ("Type", "map", "[ Element ] of Type"),
    ("Type", "proto", "{ Field MoreFields }"),
    ("Type", "{", "name @1part : Type MoreParts }"),
    ("MoreParts", ",", "name @1part : Type MoreParts"),
    ("MoreParts", "", ""),
    ("Field", "name", "@1part : Type @ number Encoding"),
    ("MoreFields", ",", "Field MoreFields"),
    ("MoreFields", "", ""),
    ("Encoding", "name", ""),
    ("Encoding", "", ""),
    ("Expression", "", "Sum CompareRest LogicRest"),
    ("LogicRest", "&& ||", "Expression"),
    ("LogicRest", "", ""),
    ("CompareRest", "== != < <= > >=", "Sum"),
    ("CompareRest", "", ""),
    ("Sum", "", "Operand SumRest"),
    ("SumRest", "+ - | ^ * / % << >> &", "Sum"),
    ("SumRest", "", ""),
    ("Operand", "+ - ! ~", "Operand"),
    ("Operand", "", "Value Parts"),
    ("Value", "name", "Call"),
    (
        "Value",
        "number character string-literal bytes-literal true false",
        "",
    ),
    ("Value", "def int string bytes time", "( Expression )"),
    ("Value", "(", "Expression )"),
    ("Value", "{", "Composite"),
    ("Call", "(", "Arguments"),
    ("Call", "", ""),
    ("Arguments", ")", ""),
    ("Arguments", "", "Expression MoreArguments )"),
    ("MoreArguments", ",", "Expression MoreArguments"),
    ("MoreArguments", "", ""),
    ("Parts", "[", "Expression AfterIndex"),
    ("Parts", ".", "name Parts"),
    ("Parts", "", ""),
    ("AfterIndex", "]", "Parts"),
    ("AfterIndex", ":", "Expression ] Parts"),
    ("Composite", "}", ""),
    ("Composite", ":", "}"),
    ("Composite", "", "Expression AfterItem"),
    ("AfterItem", ":", "Expression MorePairs }"),
    ("AfterItem", "", "MoreArguments }"),
    ("MorePairs", ",", "Expression : Expression MorePairs"),
    ("MorePairs", "", ""),
];

/// What a name that is declared stands for.
#[derive(Clone, Copy, PartialEq, Eq)]
pub enum Sort {
    Variable,
    Table,
    Function,
    Static,
    Type,
    Parameter,
    Quantified,
}

/// What happens to names at a token.
#[derive(Clone, Copy)]
pub enum NameChange {
    /// The token is a name that is declared.
    Declares(Sort),
    /// The token is the name of a part of a tuple or of a message.
    NamesPart,
    /// A block of names begins before the token.
    Enters,
    /// A block of names has ended before the token.
    Leaves,
}

/// What each mark says of names, and of which token: so many before the one that is looked at next.
const MARKS: &[(&str, NameChange, usize)] = &[
    ("@enter", NameChange::Enters, 0),
    ("@leave", NameChange::Leaves, 0),
    ("@1part", NameChange::NamesPart, 1),
    ("@1static", NameChange::Declares(Sort::Static), 1),
    ("@1type", NameChange::Declares(Sort::Type), 1),
    ("@1parameter", NameChange::Declares(Sort::Parameter), 1),
    ("@1quantified", NameChange::Declares(Sort::Quantified), 1),
    ("@2quantified", NameChange::Declares(Sort::Quantified), 2),
    ("@2variable", NameChange::Declares(Sort::Variable), 2),
    ("@3table", NameChange::Declares(Sort::Table), 3),
    ("@3function", NameChange::Declares(Sort::Function), 3),
];

fn rows() -> &'static [Row] {
    ROWS
}

fn marks() -> &'static [(&'static str, NameChange, usize)] {
    MARKS
}

/// A token as the grammar names it: words and signs as they are spelled, and all others by their kind.
pub fn word_of(kind: Kind) -> &'static [u8] {
    match kind {
        Kind::Name => b"name",
        Kind::Word(word) => word.text(),
        Kind::Number(_) => b"number",
        Kind::Character(_) => b"character",
        Kind::Str => b"string-literal",
        Kind::Bytes => b"bytes-literal",
        Kind::Sign(sign) => sign.text(),
    }
}

/// Whether one of these words, with a blank between two, is this one.
pub fn has_word(words: &str, word: &[u8]) -> bool {
    words.split(' ').any(|one| one.as_bytes() == word)
}

/// What follows a symbol at a token, and whether the token is read by that; `None` where the token can't stand there.
pub fn chosen(symbol: &str, token: &[u8]) -> Option<(bool, &'static str)> {
    for (name, tokens, rest) in rows() {
        if *name == symbol && (tokens.is_empty() || has_word(tokens, token)) {
            return Some((!tokens.is_empty(), *rest));
        }
    }
    None
}

/// Whether no token has to stand for a word of the grammar.
pub fn may_be_missing(word: &str) -> bool {
    for (name, tokens, rest) in rows() {
        if *name == word && tokens.is_empty() && rest.is_empty() {
            return true;
        }
    }
    change_of(word).is_some()
}

/// What a mark says of names, and of which token before the next.
pub fn change_of(mark: &str) -> Option<(NameChange, usize)> {
    for (name, change, before) in marks() {
        if *name == mark {
            return Some((*change, *before));
        }
    }
    None
}
