//! That nothing of an expression's code is left where there was no memory for all of it. With ample memory all code is made: only a run in
//! which an allocation fails comes to the comparison.

use crate::compiled::checked;
use crate::{rows, shown};
use std::alloc::Global;
use sz_core::{CoreExpr, CoreStmt, Item};
use sz_gen_expr::{Builder, gen_expr};

// Whether the code of the expression is made, or leaves the code in the making as it was.
fn is_made_or_left_out(alloc: Global, e: &CoreExpr, into: &mut Builder) -> bool {
    let before = shown::so_far(alloc, into);
    match gen_expr(e, into) {
        Ok(()) => true,
        Err(_) => shown::so_far(alloc, into).as_str() == before.as_str(),
    }
}

// The same of the value of each variable that the program of a row gives one, all in one piece of code.
fn holds(alloc: Global, row: &str) -> bool {
    let (text, _) = row.split_once("=> ").unwrap_or((row, "no code"));
    let Some(program) = checked(alloc, text.as_bytes()) else {
        return true;
    };
    let mut into = Builder::new(alloc);
    for item in program.items() {
        if let Item::Statement(CoreStmt::Keep(_, _, value)) = item {
            if !is_made_or_left_out(alloc, value, &mut into) {
                return false;
            }
        }
    }
    true
}

#[test]
fn nothing_is_left_where_there_is_no_memory(rt: HostRuntime) {
    for table in rows::rows() {
        for row in table.split("\n\n") {
            assert!(rt; holds(rt.alloc(), row), "of {row}");
        }
    }
}
