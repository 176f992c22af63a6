//! A tree as text: a space before each part, and each node in parentheses after its kind. Where memory runs out the text is
//! another one than it should be.
use std::fmt::{Debug, Write};
use sz_tree::{
    Elem, Expr, First, Literal, Name, Pair, Param, Path, ProtoField, Quantifier, Simple, Step,
    Stmt, Table, TypeTree,
};
use sz_types::Place;

// A node: what opens it, and its parts, each shown by the function before it.
macro_rules! node {
    ($out:ident, $($show:ident $part:expr),*) => {{
        $($show($out, $part);)*
        close($out);
    }};
}

fn word(out: &mut String, text: &str) {
    let _ = write!(out, " {text}");
}

fn open(out: &mut String, kind: &str) {
    let _ = write!(out, " ({kind}");
}

fn open_as<T: Debug>(out: &mut String, kind: &T) {
    let _ = write!(out, " ({kind:?}");
}

fn close(out: &mut String) {
    let _ = write!(out, ")");
}

fn name(out: &mut String, part: &Name) {
    word(out, part.text().as_str());
}

fn names(out: &mut String, parts: &Vec<Name>) {
    for part in parts {
        name(out, part);
    }
}

fn maybe_name(out: &mut String, part: &Option<Name>) {
    match part {
        Some(part) => name(out, part),
        None => word(out, "-"),
    }
}

fn literal(out: &mut String, value: &Literal) {
    let _ = match value {
        Literal::Number(n) => write!(out, " {n}"),
        Literal::Str(text) => write!(out, " \"{}\"", text.as_str()),
        Literal::Bytes(bytes) => write!(out, " B\"{}\"", str::from_utf8(bytes).unwrap_or("?")),
        Literal::Character(c) => write!(out, " '{c}'"),
        Literal::Bool(b) => write!(out, " {b}"),
    };
}

#[cycle(expr)]
fn expr(out: &mut String, tree: &Expr) {
    match tree {
        Expr::Literal(_, value) => literal(out, value),
        Expr::Named(part) => name(out, part),
        Expr::Call(part, parts) => node!(out, open "call", name part, exprs parts),
        Expr::Def(_, part) => node!(out, open "def", expr part),
        Expr::Paren(_, part) => node!(out, open "paren", expr part),
        Expr::Convert(_, basic, part) => node!(out, open_as basic, expr part),
        Expr::List(_, parts) => node!(out, open "list", exprs parts),
        Expr::Map(_, parts) => node!(out, open "map", pairs parts),
        Expr::Index(_, of, at) => node!(out, open "index", expr of, expr at),
        Expr::Slice(_, of, from, to) => node!(out, open "slice", expr of, expr from, expr to),
        Expr::Field(_, of, part) => node!(out, open "field", name part, expr of),
        Expr::Unary(_, op, part) => node!(out, open_as op, expr part),
        Expr::Binary(_, op, left, right) => node!(out, open_as op, expr left, expr right),
    }
}

#[cycle(expr)]
fn exprs(out: &mut String, parts: &Vec<Expr>) {
    for part in parts {
        expr(out, part);
    }
}

#[cycle(expr)]
fn pairs(out: &mut String, parts: &Vec<Pair>) {
    for part in parts {
        expr(out, &part.key);
        expr(out, &part.value);
    }
}

fn maybe_expr(out: &mut String, part: &Option<Expr>) {
    match part {
        Some(part) => expr(out, part),
        None => word(out, "-"),
    }
}

#[cycle(types)]
fn type_tree(out: &mut String, tree: &TypeTree) {
    match tree {
        TypeTree::Basic(_, basic) => {
            let _ = write!(out, " {basic:?}");
        }
        TypeTree::Named(part) => name(out, part),
        TypeTree::Array(_, of) => node!(out, open "array", type_tree of),
        TypeTree::Map(_, label, key, value) => {
            node!(out, open "map", maybe_name label, type_tree key, type_tree value)
        }
        TypeTree::Tuple(_, parts) => node!(out, open "tuple", params parts),
        TypeTree::Proto(_, fields) => node!(out, open "proto", proto_fields fields),
    }
}

#[cycle(types)]
fn params(out: &mut String, parts: &Vec<Param>) {
    for part in parts {
        name(out, &part.name);
        type_tree(out, &part.of);
    }
}

#[cycle(types)]
fn proto_fields(out: &mut String, parts: &Vec<ProtoField>) {
    for part in parts {
        name(out, &part.name);
        type_tree(out, &part.of);
        let _ = write!(out, " {}", part.number);
        maybe_name(out, &part.label);
    }
}

fn elem(out: &mut String, part: &Elem) {
    maybe_name(out, &part.name);
    type_tree(out, &part.of);
}

fn elems(out: &mut String, parts: &Vec<Elem>) {
    for part in parts {
        elem(out, part);
    }
}

fn number(out: &mut String, part: Option<i64>) {
    match part {
        Some(n) => {
            let _ = write!(out, " {n}");
        }
        None => word(out, "-"),
    }
}

fn maybe_elem(out: &mut String, part: &Option<Elem>) {
    match part {
        Some(part) => elem(out, part),
        None => word(out, "-"),
    }
}

fn table(out: &mut String, part: &Table) {
    let Table {
        kind,
        argument,
        indexes,
        of,
        weight,
    } = part;
    name(out, kind);
    number(out, *argument);
    node!(out, open "of", elem of);
    elems(out, indexes);
    maybe_elem(out, weight);
}

fn steps(out: &mut String, parts: &Vec<Step>) {
    for part in parts {
        match part {
            Step::Index(at) => expr(out, at),
            Step::Field(part) => {
                let _ = write!(out, " .{}", part.text().as_str());
            }
        }
    }
}

fn simple(out: &mut String, part: &Simple) {
    match part {
        Simple::Assign(path, value) => {
            let Path {
                name: to,
                steps: at,
            } = path;
            node!(out, open "assign", name to, steps at, expr value)
        }
        Simple::Increment(part) => node!(out, open "increment", name part),
        Simple::Decrement(part) => node!(out, open "decrement", name part),
        Simple::Call(part, parts) => node!(out, open "do", name part, exprs parts),
    }
}

fn maybe_simple(out: &mut String, part: &Option<Simple>) {
    match part {
        Some(part) => simple(out, part),
        None => word(out, "-"),
    }
}

fn maybe_first(out: &mut String, part: &Option<First>) {
    match part {
        Some(First::Declare(part, of, value)) => {
            node!(out, open "declare", name part, type_tree of, expr value)
        }
        Some(First::Define(part, value)) => node!(out, open "define", name part, expr value),
        Some(First::Simple(part)) => simple(out, part),
        None => word(out, "-"),
    }
}

fn quantifiers(out: &mut String, parts: &Vec<Quantifier>) {
    for Quantifier {
        names: bound,
        quantity,
        of,
    } in parts {
        node!(out, open_as quantity, names bound, type_tree of);
    }
}

// A statement that has no statements for parts.
fn leaf(out: &mut String, tree: &Stmt) {
    match tree {
        Stmt::Declare(part, of, value) => {
            node!(out, open "declare", name part, type_tree of, maybe_expr value)
        }
        Stmt::Define(part, value) => node!(out, open "define", name part, expr value),
        Stmt::Static(_, part, of, value) => {
            node!(out, open "static", name part, type_tree of, expr value)
        }
        Stmt::Type(_, part, of) => node!(out, open "type", name part, type_tree of),
        Stmt::Table(part, of) => node!(out, open "table", name part, table of),
        Stmt::Return(_, value) => node!(out, open "return", maybe_expr value),
        Stmt::Emit(_, to, at, value, weight) => {
            node!(out, open "emit", name to, exprs at, word "<-", expr value, maybe_expr weight)
        }
        Stmt::Break(_) => node!(out, open "break"),
        Stmt::Continue(_) => node!(out, open "continue"),
        _ => node!(out, open "empty"),
    }
}

#[cycle(stmt)]
fn stmt(out: &mut String, tree: &Stmt) {
    match tree {
        Stmt::Simple(part) => simple(out, part),
        Stmt::Block(_, parts) => node!(out, open "block", stmts parts),
        Stmt::Function(part, given, of, body) => {
            node!(out, open "function", name part, params given, word ":", type_tree of, stmts body)
        }
        Stmt::If(_, test, part, other) =>
            node!(out, open "if", expr test, stmt part, maybe_stmt other),
        Stmt::While(_, test, part) => node!(out, open "while", expr test, stmt part),
        Stmt::DoWhile(_, part, test) => node!(out, open "do", stmt part, expr test),
        Stmt::For(_, first, test, next, part) => {
            node!(out, open "for", maybe_first first, maybe_expr test, maybe_simple next, stmt part)
        }
        Stmt::When(_, parts, test, part) => {
            node!(out, open "when", quantifiers parts, expr test, stmt part)
        }
        _ => leaf(out, tree),
    }
}

/// The statements, one after the other.
#[cycle(stmt)]
pub fn stmts(out: &mut String, parts: &Vec<Stmt>) {
    for part in parts {
        stmt(out, part);
    }
}

#[cycle(stmt)]
fn maybe_stmt(out: &mut String, part: &Option<Box<Stmt>>) {
    match part {
        Some(part) => stmt(out, part),
        None => word(out, "-"),
    }
}

fn column(out: &mut String, part: Place) {
    let _ = write!(out, " {}", part.column);
}

fn levels(out: &mut String, value: &Expr) {
    let _ = write!(out, " {}", value.level());
    if let Expr::Binary(_, op, _, _) = value {
        let _ = write!(out, " {} {}", op.level(), op.left_level());
    }
}

/// The columns of each statement and of parts of it, and the levels of what it declares.
pub fn places(out: &mut String, statements: &Vec<Stmt>) {
    for tree in statements {
        column(out, tree.place());
        match tree {
            Stmt::Declare(part, of, Some(value)) => {
                column(out, part.place());
                column(out, of.place());
                column(out, value.place());
                levels(out, value);
            }
            Stmt::Simple(step) => column(out, step.place()),
            _ => {}
        }
    }
}
