//! What the trees of checked programs have: how many items, variables and parts.
use std::alloc::Global;
use sz_check::check;
use sz_core::{CoreStmt, Form, Item, Program};
use sz_lex::lex;
use sz_parse::parse;
use sz_tree::Tree;

// A program, how many items it has, the name of the table that stands first if one does, how many variables the record has, and how
// many parts the vector of its last item has: those of an expression, or the statements of a block.
type Row = (&'static str, usize, &'static str, usize, usize);

const ROWS: &[Row] = &[
    ("", 0, "", 0, 0),
    (
        "t: table sum of int; f: function(n: int): int { return n; } emit t <- f(1);",
        3,
        "t",
        0,
        1,
    ),
    (
        "f: function(n: int): int { return n; } x: int = f(1);",
        2,
        "",
        1,
        1,
    ),
    (
        "m: map[int] of int = {1: 1}; x: bool = haskey(m, 1);",
        2,
        "",
        2,
        2,
    ),
    ("x: array of int = {1, 1, 1};", 1, "", 1, 3),
    (
        "x: {a: int, b: int, c: int, d: int} = {1, 1, 1, 1};",
        1,
        "",
        1,
        4,
    ),
    ("x: map[int] of int = {1: 1};", 1, "", 1, 1),
    ("while (true) { break; continue; }", 1, "", 0, 2),
];

fn rows() -> &'static [Row] {
    ROWS
}

fn parts_of_expression(form: &Form) -> usize {
    match form {
        Form::Call(_, nodes) | Form::Builtin(_, nodes) | Form::Array(nodes) | Form::Tuple(nodes) =>
            nodes.len(),
        Form::Map(pairs) => pairs.len(),
        _ => 0,
    }
}

fn statements_in(statement: &CoreStmt) -> usize {
    match statement {
        CoreStmt::Block(statements) => statements.len(),
        _ => 0,
    }
}

fn parts_of_statement(statement: &CoreStmt) -> usize {
    match statement {
        CoreStmt::Keep(_, _, value) | CoreStmt::Emit(_, _, _, value, _) => parts_of_expression(
            &value.form,
        ),
        CoreStmt::While(_, _, inside) => statements_in(inside),
        _ => 0,
    }
}

fn parts_of_item(item: Option<&Item>) -> usize {
    match item {
        Some(Item::Statement(statement)) => parts_of_statement(statement),
        _ => 0,
    }
}

// The name of the table, or none.
fn name_of(item: Option<&Item>) -> &str {
    match item {
        Some(Item::Table(table)) => table.name.as_str(),
        _ => "",
    }
}

// Whether the program has what its row says.
fn has(program: &Program, row: &Row) -> bool {
    let (_, items, name, locals, parts) = *row;
    program.items().len() == items
        && name_of(program.items().first()) == name
        && program.locals().len() == locals
        && parts_of_item(program.items().last()) == parts
}

// Whether the tree is checked to be a program that has what its row says.
fn is_checked(alloc: Global, tree: &Tree, row: &Row) -> bool {
    let checked = check(alloc, tree);
    let same = match &checked {
        Ok(program) => has(program, row),
        Err(_) => false,
    };
    drop(checked);
    same
}

// Whether the text is a program that has what its row says.
fn holds(alloc: Global, row: &Row) -> bool {
    let text = row.0.as_bytes();
    if text.len() > 1_048_576 {
        return false;
    }
    let Ok(tokens) = lex(alloc, text) else {
        return false;
    };
    match parse(alloc, &tokens) {
        Ok(tree) => is_checked(alloc, &tree, row),
        Err(_) => false,
    }
}

#[test]
fn programs_have_the_parts_of_their_texts(rt: HostRuntime) {
    for row in rows() {
        assert!(rt; holds(rt.alloc(), row), "at {}", row.0);
    }
}
