//! Code as text. Where memory runs out the text is another one than it should be.
use std::alloc::Global;
use std::fmt::{Debug, Write};
use sz_gen_expr::Builder;
use sz_instr::{Code, Instr, Line, Step, Steps};
use sz_types::Ty;
use sz_value::Value;

fn constant(out: &mut String, value: &Value) {
    let _ = match value {
        Value::Int(n) => write!(out, "constant {n} | "),
        Value::Bool(b) => write!(out, "constant {b} | "),
        Value::Str(text) => write!(out, "constant \"{}\" | ", text.as_str()),
        _ => write!(out, "constant of another type | "),
    };
}

fn names(out: &mut String, constants: &[Value], types: &[Ty]) {
    for value in constants {
        constant(out, value);
    }
    for ty in types {
        let _ = write!(out, "type {ty:?} | ");
    }
}

fn routines(out: &mut String, code: &Code) {
    for f in code.functions.as_slice() {
        let _ = write!(out, "function {} {} {} | ", f.entry, f.params, f.locals);
    }
    for s in code.statics.as_slice() {
        let _ = write!(out, "static {} | ", s.entry);
    }
    let (entry, locals) = (code.main.entry, code.main.locals);
    let _ = write!(out, "record {entry} of {locals} | ");
}

fn steps(out: &mut String, path: &Steps) {
    for step in path.as_slice() {
        let _ = match step {
            Step::Index => write!(out, "[]"),
            Step::Field(n) => write!(out, ".{n}"),
        };
    }
}

fn word(out: &mut String, name: &str) {
    let _ = write!(out, "{name}");
}

fn number(out: &mut String, name: &str, number: u32) {
    let _ = write!(out, "{name}({number})");
}

fn place(out: &mut String, name: &str, place: usize) {
    let _ = write!(out, "{name}({place})");
}

fn operator<T: Debug>(out: &mut String, name: &str, operator: &T) {
    let _ = write!(out, "{name}({operator:?})");
}

fn store(out: &mut String, local: u32, path: &Steps) {
    let _ = write!(out, "Store({local}");
    steps(out, path);
    word(out, ")");
}

fn emit(out: &mut String, table: u32, indexes: u32, is_weighted: bool) {
    let _ = write!(out, "Emit({table}, {indexes}, {is_weighted})");
}

fn next(out: &mut String, local: u32, to: usize) {
    let _ = write!(out, "Next({local}, {to})");
}

fn test(out: &mut String, to: usize, past: usize) {
    let _ = write!(out, "Test({to}, {past})");
}

fn instr(out: &mut String, instr: &Instr) {
    match instr {
        Instr::Push(n) => number(out, "Push", *n),
        Instr::Local(n) => number(out, "Local", *n),
        Instr::Static(n) => number(out, "Static", *n),
        Instr::Input => word(out, "Input"),
        Instr::Keep(n) => number(out, "Keep", *n),
        Instr::KeepStatic(n) => number(out, "KeepStatic", *n),
        Instr::Clear(n) => number(out, "Clear", *n),
        Instr::Store(n, path) => store(out, *n, path),
        Instr::Unary(op) => operator(out, "Unary", op),
        Instr::Binary(op) => operator(out, "Binary", op),
        Instr::Apply(function) => operator(out, "Apply", function),
        Instr::Convert(n) => number(out, "Convert", *n),
        Instr::Decode(n) => number(out, "Decode", *n),
        Instr::MakeArray(count) => number(out, "MakeArray", *count),
        Instr::MakeTuple(count) => number(out, "MakeTuple", *count),
        Instr::MakeMap(count) => number(out, "MakeMap", *count),
        Instr::Index => word(out, "Index"),
        Instr::Slice => word(out, "Slice"),
        Instr::Field(n) => number(out, "Field", *n),
        Instr::Def => word(out, "Def"),
        Instr::Tick => word(out, "Tick"),
        Instr::Jump(to) => place(out, "Jump", *to),
        Instr::Test(to, past) => test(out, *to, *past),
        Instr::AndTest(to) => place(out, "AndTest", *to),
        Instr::OrTest(to) => place(out, "OrTest", *to),
        Instr::Call(n) => number(out, "Call", *n),
        Instr::Return => word(out, "Return"),
        Instr::EndRecord => word(out, "EndRecord"),
        Instr::Discard => word(out, "Discard"),
        Instr::Emit(n, indexes, is_weighted) => emit(out, *n, *indexes, *is_weighted),
        Instr::Enter(slices) => operator(out, "Enter", slices),
        Instr::Next(n, to) => next(out, *n, *to),
        Instr::Leave => word(out, "Leave"),
        Instr::Meets(to) => place(out, "Meets", *to),
        Instr::Fails(to) => place(out, "Fails", *to),
    }
}

fn line(out: &mut String, at: usize, line: &Line) {
    let _ = write!(out, "{at} ");
    instr(out, &line.instr);
    let (charge, place) = (line.charge, line.place);
    let _ = write!(out, " +{charge} {}:{} | ", place.line, place.column);
}

fn lines(out: &mut String, code: &[Line]) {
    for (at, it) in code.iter().enumerate() {
        line(out, at, it);
    }
}

/// Code in the making: each name and line of it so far.
pub fn so_far(alloc: Global, code: &Builder) -> String {
    let mut out = String::new(alloc);
    match code.constants.copied() {
        Ok(constants) => names(&mut out, constants.as_slice(), code.types.as_slice()),
        Err(_) => word(&mut out, "no memory"),
    }
    lines(&mut out, code.lines.as_slice());
    out
}

/// The code: each name, routine and line of it, and the table that counts lines if there is one, with ` | ` after it.
pub fn code(out: &mut String, code: &Code) {
    names(out, code.constants.as_slice(), code.types.as_slice());
    routines(out, code);
    lines(out, code.lines.as_slice());
    if let Some(table) = code.ignore {
        let _ = write!(out, "ignore {table} | ");
    }
}
