//! How high the types of a program are, and so how deep its values go; and how much stack there is for them.
ghost use Rattle.std.specs.Prelude.{◌≤◌};

use sz_core::{Item, Program};
use sz_gen_stmt::Compiled;
use sz_lex::{Kind, Sign, Token, Word};
use sz_protofile_types::NamedType;
use sz_types::{Field, TableDecl, Ty};

/// Up to this height a type is low: the stack that a system gives to a thread is enough for values of many times this height. In one
/// expression values get at most as much higher as a statement is high.
const LOW: u32 = 500;

/// So many parts of types are gone through at most to see whether types are low. A type shares its parts with others, so that with each line of a
/// program one may have twice as many as before, with all names written out.
const MOST_PARTS: u32 = 1_048_576;

/// How much stack the caller of the top call has.
#[derive(Clone, Copy, Debug, PartialEq, Eq)]
pub enum Stack {
    /// Enough for every type that the text of a program may have: at least 256 MiB.
    Large,
    /// No more than the system gives to a program, as a larger one couldn't be had. It is enough where all types are low.
    Small,
}

impl Stack {
    /// Whether it is enough for the types of a `.proto` file.
    pub fn holds_types(self, types: &[NamedType]) -> bool {
        match self {
            Stack::Large => true,
            Stack::Small => are_named_low(types),
        }
    }

    /// Whether it is enough for the types of a program with these tokens.
    pub fn holds(self, tokens: &[Token]) -> bool {
        match self {
            Stack::Large => true,
            Stack::Small => are_declared_low(tokens),
        }
    }
}

/// Whether the token adds a level to a type that it stands in.
fn adds_level(token: &Token) -> bool {
    matches!(
        token.kind,
        Kind::Word(Word::Type | Word::Array | Word::Map) | Kind::Sign(Sign::OpenBrace)
    )
}

/// Whether the types that are declared in these tokens are low, with all names written out: such a type is at most as high as all their
/// declarations together, which are counted from the word `type` to the next semicolon.
fn are_declared_low(tokens: &[Token]) -> bool {
    let mut levels: u32 = 0;
    let mut is_declared = false;
    for token in tokens {
        if token.kind == Kind::Word(Word::Type) {
            is_declared = true;
        } else if token.kind == Kind::Sign(Sign::Semicolon) {
            is_declared = false;
        }
        if is_declared && adds_level(token) {
            levels = levels.saturating_add(1);
        }
    }
    levels <= LOW
}

/// How many parts may still be gone through after those of the type, if it has at most this height; none where it is higher, or has more parts than
/// may be gone through.
#[cycle(height)]
fn parts_left_after_type(ty: &Ty, most: u32, left: u32) -> Option<u32> {
    if most == 0 || left == 0 {
        return None;
    }
    match ty {
        Ty::Bool | Ty::Int | Ty::Time | Ty::Str | Ty::Bytes => Some(left - 1),
        Ty::Array(element) => parts_left_after_type(element, most - 1, left - 1),
        Ty::Map(key, value) => parts_left_after_type(
            value,
            most - 1,
            parts_left_after_type(key, most - 1, left - 1)?,
        ),
        Ty::Tuple(fields) | Ty::Proto(fields) => parts_left_after_fields(
            fields.as_slice(),
            most - 1,
            left - 1,
        ),
    }
}

/// The same after the types of the fields.
#[cycle(height)]
fn parts_left_after_fields(fields: &[Field], most: u32, left: u32) -> Option<u32> {
    let mut left = left;
    for field in fields {
        left = parts_left_after_type(&field.ty, most, left)?;
    }
    Some(left)
}

/// The same after the types, if they are low.
fn parts_left_after_types(types: &[Ty], left: u32) -> Option<u32> {
    let mut left = left;
    for ty in types {
        left = parts_left_after_type(ty, LOW, left)?;
    }
    Some(left)
}

/// The same after the types of a table.
fn parts_left_after_table(table: &TableDecl, left: u32) -> Option<u32> {
    let left = match &table.weight {
        Some(ty) => parts_left_after_type(ty, LOW, left)?,
        None => left,
    };
    parts_left_after_types(
        table.indexes.as_slice(),
        parts_left_after_type(&table.element, LOW, left)?,
    )
}

/// The same after the types that an item declares.
fn parts_left_after_item(item: &Item, left: u32) -> Option<u32> {
    match item {
        Item::Table(table) => parts_left_after_table(table, left),
        Item::Function(function) => parts_left_after_types(
            function.locals.as_slice(),
            parts_left_after_type(&function.signature.result, LOW, left)?,
        ),
        Item::Static(of) => parts_left_after_type(&of.ty, LOW, left),
        Item::Statement(_) => Some(left),
    }
}

/// The same after the types that the program declares.
fn parts_left_after_program(program: &Program, left: u32) -> Option<u32> {
    let mut left = left;
    for item in program.items() {
        left = parts_left_after_item(item, left)?;
    }
    parts_left_after_types(program.locals().as_slice(), left)
}

/// Whether the types with these names are low. A `.proto` file has at most 100,000 fields with all names written out, so all parts are gone through.
fn are_named_low(types: &[NamedType]) -> bool {
    let mut left = MOST_PARTS;
    for named in types {
        match parts_left_after_type(&named.ty, LOW, left) {
            Some(rest) => left = rest,
            None => return false,
        }
    }
    true
}

/// Whether all types that the program declares are seen to be low: the answer is no, too, where they have more parts than are gone through.
pub fn declares_low(program: &Program) -> bool {
    parts_left_after_program(program, MOST_PARTS).is_some()
}

/// How many workers run a program, of so many that are asked for: where not all types that it declares and converts to are seen to be low, it is
/// the one that has the caller's stack.
pub fn workers_for(declares_low: bool, compiled: &Compiled, workers: u32) -> u32
    requires some { 1 ≤ workers }
    requires most { workers ≤ 64 }
    ensures some { 1 ≤ result }
    ensures most { result ≤ 64 }
    ensures within { result ≤ workers }
{
    if declares_low
        && parts_left_after_types(compiled.code().types.as_slice(), MOST_PARTS).is_some()
    {
        workers
    } else {
        1
    }
}
