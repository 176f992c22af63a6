//! Why a part of a tree was not read.
use std::alloc::{AllocError, AllocFailed};

/// Why a part of a statement isn't read. A `Syntax` has no place yet: it is that of the whole statement.
#[derive(Debug, Drop)]
pub enum Failed {
    Memory,
    Syntax,
}

impl From<AllocError> for Failed {
    ghost use Rattle.std.specs.Prelude.{◌≡◌};
    ghost use Rattle.sz_parse_expr.specs.declared.failed.Failed.TheVariants.{Memory};

    ghost from_gives = { λ _ e. e ≡ Memory };

    fn from(_e: AllocError) -> Failed {
        Failed::Memory
    }
}

impl<T: Drop> From<AllocFailed<T>> for Failed {
    ghost use Rattle.std.specs.Prelude.{◌≡◌};
    ghost use Rattle.sz_parse_expr.specs.declared.failed.Failed.TheVariants.{Memory};

    ghost from_gives = { λ _ e. e ≡ Memory };

    fn from(_e: AllocFailed<T>) -> Failed {
        Failed::Memory
    }
}
