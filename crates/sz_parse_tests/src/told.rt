//! What bounds the variables of a statement, as text. Where memory runs out the text is another one than it should be.
use std::alloc::{AllocError, Global};
use std::fmt::Write;
use sz_lex::lex;
use sz_parse::parse;
use sz_quant::{Bound, BoundsError, Names, bounds};
use sz_tree::{Expr, Quantifier, Stmt, Tree};
use sz_types::Text;

// The tree of a text, if it has one.
fn tree_of(alloc: Global, text: &[u8]) -> Option<Tree> {
    if text.len() > 1_048_576 {
        return None;
    }
    let tokens = lex(alloc, text).ok()?;
    parse(alloc, &tokens).ok()
}

/// The bounds of the variables of the text's first statement.
pub fn told(alloc: Global, text: &[u8]) -> String {
    let mut out = String::new(alloc);
    match tree_of(alloc, text) {
        Some(tree) => match tree.statements.first() {
            Some(Stmt::When(_, quantifiers, condition, _)) => {
                tell(alloc, &mut out, quantifiers.as_slice(), condition);
            }
            _ => write(&mut out, "no when"),
        },
        None => write(&mut out, "no statement"),
    }
    out
}

fn write(out: &mut String, text: &str) {
    let _ = out.push_str(text);
}

// The names of the variables, in order.
fn names_of(alloc: Global, quantifiers: &[Quantifier]) -> Result<Names, AllocError> {
    let mut names = Names::new(alloc);
    for quantifier in quantifiers {
        for name in &quantifier.names {
            names.push(Text::from_str(alloc, name.text().as_str())?)?;
        }
    }
    Ok(names)
}

// Writes the bounds of the variables of a condition, or the first that has none.
fn tell(alloc: Global, out: &mut String, quantifiers: &[Quantifier], condition: &Expr) {
    let Ok(names) = names_of(alloc, quantifiers) else {
        return;
    };
    match bounds(alloc, &names, condition) {
        Ok(found) => tell_bounds(out, found.as_slice()),
        Err(BoundsError::Unbounded(number)) => match names.as_slice().get(number as usize) {
            Some(name) => {
                let _ = write!(out, "unbounded {}", name.as_str());
            }
            None => write(out, "no variable"),
        },
        Err(BoundsError::NoMemory) => write(out, "no memory"),
    }
}

fn tell_bounds(out: &mut String, found: &[Bound]) {
    let mut is_first = true;
    for bound in found {
        if !is_first {
            write(out, " ");
        }
        is_first = false;
        show(out, &bound.base);
        write(out, if bound.slice { "[:]" } else { "[]" });
    }
}

// Writes an expression: a literal as `#`, and what no row has in a base as `?`.
#[cycle(show)]
fn show(out: &mut String, tree: &Expr) {
    match tree {
        Expr::Literal(_, _) => write(out, "#"),
        Expr::Named(name) => write(out, name.text().as_str()),
        Expr::Call(name, arguments) => {
            write(out, name.text().as_str());
            show_all(out, arguments.as_slice());
        }
        Expr::Paren(_, part) => {
            write(out, "(");
            show(out, part);
            write(out, ")");
        }
        Expr::Index(_, base, at) => {
            show(out, base);
            write(out, "[");
            show(out, at);
            write(out, "]");
        }
        Expr::Slice(_, base, from, to) => {
            show(out, base);
            write(out, "[");
            show(out, from);
            write(out, ":");
            show(out, to);
            write(out, "]");
        }
        Expr::Field(_, base, name) => {
            show(out, base);
            write(out, ".");
            write(out, name.text().as_str());
        }
        _ => write(out, "?"),
    }
}

// Writes arguments, in parentheses.
#[cycle(show)]
fn show_all(out: &mut String, trees: &[Expr]) {
    write(out, "(");
    let mut is_first = true;
    for tree in trees {
        if !is_first {
            write(out, ", ");
        }
        is_first = false;
        show(out, tree);
    }
    write(out, ")");
}
