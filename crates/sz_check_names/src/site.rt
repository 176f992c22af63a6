//! Where an expression stands.
ghost use Rattle.std.specs.Prelude.{◌≡◌};
ghost use Rattle.sz_check_names.specs.Sites.{may_emit};

/// Where an expression stands, by which it is known what it sees and calls.
#[derive(Clone, Copy)]
pub enum Site {
    /// In a statement, of the record or of a function.
    Statement,
    /// In the condition of a `when`: nothing that emits may be called.
    Condition,
    /// In the value of a static: nothing that emits may be called, and neither variables nor tables nor the record are seen.
    Static,
}

impl Site {
    /// Whether a function that emits may be called there.
    pub fn may_emit(self) -> bool
        ensures value { result ≡ may_emit self }
    {
        match self {
            Site::Statement => true,
            Site::Condition | Site::Static => false,
        }
    }
}
