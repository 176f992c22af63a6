//! Whole programs.
use crate::stmt::Stmt;

/// A program: its statements, in order.
pub struct Tree {
    pub statements: Vec<Stmt>,
}

impl Drop for Tree {
    fn drop(self) {
        let Tree { statements: _ } = self;
    }
}
