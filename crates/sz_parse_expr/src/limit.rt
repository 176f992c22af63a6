//! How high a tree may be.
ghost use Rattle.sz_parse_expr.specs.declared.limit.TheConstants.{MAX_HEIGHT};
ghost use Rattle.std.specs.Prelude.{◌≡◌, ◌≤◌, ◌+◌, IfSome, IfNone};

/// The greatest height of a statement.
pub const MAX_HEIGHT: u32 = 256;

/// How many levels the tree that is read next may have.
#[derive(Clone, Copy)]
pub struct Depth {
    /// At most `MAX_HEIGHT`.
    pub levels: u32,

    pub ghost bound: { levels ≤ MAX_HEIGHT },
}

impl Depth {
    /// That of a whole statement.
    pub const GREATEST: Depth = Depth { levels: MAX_HEIGHT };

    /// That of the parts of the tree, which has a level itself.
    pub fn deeper(self) -> Option<Depth>
        ensures parts { IfSome result (λ inner. self.levels ≡ inner.levels + 1) }
        ensures none { IfNone result (self.levels ≡ 0) }
    {
        if self.levels == 0 {
            return None;
        }
        Some(Depth {
            levels: self.levels - 1,
        })
    }
}
