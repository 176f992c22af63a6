//! The token of a program at which it is refused.
use std::alloc::{AllocError, Global};
use szl_explain_source::{Declared, Names, Page, Source};

/// A token of a program that was refused, by its index from 0, and the offset of the first byte of the statement at the top level that it
/// stands in, counted from 0.
#[derive(Clone, Copy)]
pub struct Fault<'t> {
    pub source: Source<'t>,
    pub token: usize,
    pub top: usize,
}

impl<'t> Fault<'t> {
    /// The bytes of the token.
    pub fn name(&self) -> &'t [u8] {
        self.source.spelled(self.token)
    }

    /// Shows the line of the token, with a mark under the token.
    pub fn show(&self, page: &mut Page) {
        page.line(
            self.source.text,
            self.source.place(self.token),
            self.name().len(),
        );
    }

    /// The declaration of the name that is the token, by the blocks that are open there.
    pub fn declared(&self, alloc: Global) -> Result<Option<Declared>, AllocError> {
        Names::of(alloc, self.source)?.seen_at(alloc, self.source, self.token, self.name())
    }
}
