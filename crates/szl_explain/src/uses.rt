//! What a name is used for at its place, and what other languages call it.
use crate::fault::Fault;
use std::alloc::{AllocError, Global};
use szl_explain_source::{Front, Sort, Wanted};

/// What a name is used for.
#[derive(Clone, Copy, PartialEq, Eq)]
pub enum Use {
    /// As the kind of a table.
    Kind,
    /// As a table that is emitted to.
    Table,
    /// As a type.
    Type,
    /// Before arguments.
    Called,
    /// As a value, or as a variable that changes.
    Value,
}

/// Names of other languages, with what stands for them here.
const OTHERS: &[(Use, &str, &str)] = &[
    (Use::Kind, "count", "sum"),
    (Use::Kind, "total", "sum"),
    (Use::Kind, "max", "maximum"),
    (Use::Kind, "min", "minimum"),
    (Use::Kind, "list", "collection"),
    (Use::Kind, "distinct", "set"),
    (Use::Type, "integer", "int"),
    (Use::Type, "long", "int"),
    (Use::Type, "number", "int"),
    (Use::Type, "uint", "int"),
    (Use::Type, "str", "string"),
    (Use::Type, "text", "string"),
    (Use::Type, "boolean", "bool"),
    (Use::Type, "byte", "bytes"),
    (Use::Type, "date", "time"),
    (Use::Type, "datetime", "time"),
    (Use::Type, "list", "array of"),
    (Use::Type, "dict", "map"),
    (Use::Called, "length", "len"),
    (Use::Called, "size", "len"),
    (Use::Called, "strlen", "len"),
    (Use::Called, "find", "strfind"),
    (Use::Called, "index", "strfind"),
    (Use::Called, "contains", "haskey"),
    (Use::Called, "has", "haskey"),
    (Use::Called, "str", "string"),
    (Use::Called, "integer", "int"),
    (Use::Called, "print", "emit"),
    (Use::Called, "defined", "def"),
];

fn others() -> &'static [(Use, &'static str, &'static str)] {
    OTHERS
}

impl Use {
    /// What the name that is the token of a fault is used for, by the tokens round it.
    pub fn of(alloc: Global, fault: Fault<'_>) -> Result<Use, AllocError> {
        let source = fault.source;
        let before = fault.token.saturating_sub(1);
        let front = Front {
            tokens: source.front(fault.token),
            from: source.token_from(fault.top),
        };
        Ok(if source.is(before, "table") {
            Use::Kind
        } else if source.is(before, "emit") {
            Use::Table
        } else if front.takes(alloc, b"array")? {
            Use::Type
        } else if source.is(fault.token.saturating_add(1), "(") {
            Use::Called
        } else {
            Use::Value
        })
    }

    /// What such a name may be.
    pub fn wanted(self) -> Wanted {
        match self {
            Use::Kind => Wanted {
                sorts: &[],
                words: &["sum", "set", "collection", "maximum", "minimum"],
            },
            Use::Table => Wanted {
                sorts: &[Sort::Table],
                words: &[],
            },
            Use::Type => Wanted {
                sorts: &[Sort::Type],
                words: &["bool", "int", "string", "bytes", "time"],
            },
            Use::Called => Wanted {
                sorts: &[Sort::Function, Sort::Type],
                words: &[
                    "len", "keys", "haskey", "strfind", "int", "string", "bytes", "time", "def",
                ],
            },
            Use::Value => Wanted {
                sorts: &[
                    Sort::Variable,
                    Sort::Static,
                    Sort::Parameter,
                    Sort::Quantified,
                ],
                words: &["input", "true", "false"],
            },
        }
    }

    /// What stands here for a name of other languages, if it is one.
    pub fn own_name(self, name: &[u8]) -> Option<&'static str> {
        for (used, other, own) in others() {
            if *used == self && other.as_bytes() == name {
                return Some(*own);
            }
        }
        None
    }

    /// What there is of this use, where no name is near.
    pub fn known(self) -> &'static str {
        match self {
            Use::Kind =>
                "The kinds of tables are `sum`, `set`, `collection`, `maximum` and `minimum`.\n",
            Use::Table =>
                "Hint: a table is declared before something is emitted to it, as in `c: table sum of int;`.\n",
            Use::Type =>
                "The types that each program has are `bool`, `int`, `string`, `bytes` and `time`, arrays, maps, tuples and messages.\n",
            Use::Called =>
                "The functions that each program has are `len`, `keys`, `haskey` and `strfind`, and `def`, `int`, `string`, `bytes` and `time`.\n",
            Use::Value => "Hint: a variable is declared before it is used, as in `x: int = 1;`.\n",
        }
    }

    /// What is wanted of a name that is used so.
    pub fn what(self) -> &'static str {
        match self {
            Use::Kind => "the kind of a table",
            Use::Table => "a table",
            Use::Type => "a type",
            Use::Called => "a function or a type",
            Use::Value => "a value",
        }
    }
}
