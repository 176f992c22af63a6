//! What of the names is seen at a place.
ghost use Rattle.std.specs.Prelude.{◌≡◌};
ghost use Rattle.sz_scope.specs.Sight.{is_of_record, sees};

use crate::meaning::Meaning;

/// From where a name is looked up.
#[derive(Clone, Copy, Debug)]
pub enum Sight {
    /// From a statement that runs for each record: all names are seen.
    Record,
    /// From a function round whose body `outside` blocks are open: in these blocks neither variables nor `input` are seen.
    Function { outside: usize },
    /// From the value of a static: neither variables nor `input` nor tables are seen.
    Static,
}

impl Sight {
    // Whether a meaning is seen, in a block round which `depth` blocks are open.
    pub(crate) fn sees(self, depth: usize, what: Meaning) -> bool
        ensures value { result ≡ sees self depth what }
    {
        match self {
            Sight::Record => true,
            Sight::Function { outside } => outside <= depth || !is_of_record(what),
            Sight::Static => match what {
                Meaning::Table(_) => false,
                _ => !is_of_record(what),
            },
        }
    }
}

// Whether a name that means this is there while a record runs, and not before.
fn is_of_record(what: Meaning) -> bool
    ensures value { result ≡ is_of_record what }
{
    match what {
        Meaning::Var(_) | Meaning::Quantified(_) | Meaning::Input => true,
        _ => false,
    }
}
