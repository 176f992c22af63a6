//! How far code in the making has come, and the way back to there.
ghost use Rattle.std.specs.Prelude.{◌≡◌};
ghost use Rattle.sz_gen_expr.specs.Building.{mark_of, cut_to};

use crate::builder::Builder;
use std::mem;
use sz_types::Tys;

/// How many lines, constants and types there are so far.
#[derive(Clone, Copy)]
pub(crate) struct Mark {
    lines: usize,
    constants: usize,
    types: usize,
}

impl Builder {
    /// How far the code has come.
    pub(crate) fn mark(&self) -> Mark
        ensures value { result ≡ mark_of self.now }
    {
        Mark {
            lines: self.lines.len(),
            constants: self.constants.len(),
            types: self.types.len(),
        }
    }

    /// Cuts the code back to the mark, which takes no memory. Routines stay, since none begins in what is cut.
    pub(crate) fn cut(&mut self, mark: Mark)
        ensures value { self.new ≡ cut_to mark self.old }
    {
        let alloc = self.allocator();
        self.lines.truncate(mark.lines);
        self.constants.truncate(mark.constants);
        let mut types = mem::replace(&mut self.types, Tys::new(alloc)).into_vec();
        types.truncate(mark.types);
        self.types = Tys::from_vec(types);
    }
}
