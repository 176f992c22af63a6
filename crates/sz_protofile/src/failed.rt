//! Why a form was not read.
use std::alloc::AllocFailed;

/// Why a form isn't read.
#[derive(Debug, Drop)]
pub enum Failed {
    Memory,
    /// The tokens don't have the form.
    Unfit,
}

impl<T: Drop> From<AllocFailed<T>> for Failed {
    ghost use Rattle.std.specs.Prelude.{◌≡◌};
    ghost use Rattle.sz_protofile.specs.declared.failed.Failed.TheVariants.{Memory};

    ghost from_gives = { λ _ e. e ≡ Memory };

    fn from(_e: AllocFailed<T>) -> Failed {
        Failed::Memory
    }
}
