//! The code of programs.
ghost use Rattle.std.specs.Prelude.{◌≡◌, [], ◌∷◌, length, map, pos, OnOk, IfOk};
ghost use Rattle.sz_value.specs.Data.{Datum};
ghost use Rattle.sz_core.specs.Statements.{stms_of};
ghost use Rattle.sz_core.specs.Programs.{functions_of, statics_of, statements_of, tables_of};
ghost use Rattle.sz_core.specs.Sound.{IsSound};
ghost use Rattle.sz_core.specs.View.{item_of, function_of, static_of};
ghost use Rattle.sz_mean.specs.Marked.{marked};
ghost use Rattle.sz_gen_rules.specs.Tables.{HasConstant};
ghost use Rattle.sz_gen_expr.specs.Building.{Appends};
ghost use Rattle.sz_gen_rules.specs.StatementCode.{no_exits};
ghost use Rattle.sz_gen_rules.specs.ProgramCode.{IsCodeOf, returns_undefined};
ghost use Rattle.sz_gen_stmt.specs.Making.{AppendsStms, ExtendsFunction, ExtendsFunctions, ExtendsStatic, ExtendsStatics};

use crate::counting::count_lines;
use crate::generate::{Exits, gen_stmt, gen_stmts};
use crate::parts::free;
use std::alloc::Global;
use sz_core::{Function, Item, Program, Static};
use sz_gen_expr::{Builder, gen_closed, small};
use sz_instr::{Code, Instr, Routine};
use sz_types::{BinOp, Place, TableDecls, copy_table};
use sz_value::{NoMemory, Value};

/// The code of a program: that of its functions, of its statics and of the record, one after the other. It counts lines where the
/// program is to be an ignoring one.
pub fn gen_program(alloc: Global, program: &Program, ignore: bool) -> Result<Code, NoMemory>
    ensures value { IfOk result (λ code. IsCodeOf (marked program.now ignore) code) }
    ensures sound { IsSound program.now }
{
    let items = program.items();
    let mut into = Builder::new(alloc);
    gen_functions(items, &mut into)?;
    gen_statics(items, &mut into)?;
    let entry = into.here();
    gen_statements(items, &mut into)?;
    free(Instr::EndRecord, &mut into)?;
    let main = Routine {
        entry,
        params: 0,
        locals: small(program.locals().len())?,
    };
    let mut tables = copied_tables(alloc, items)?;
    let counting = count_lines(alloc, ignore, &mut tables)?;
    finished(into, main, tables, counting)
}

// The code that was made.
fn finished(
    into: Builder,
    main: Routine,
    tables: TableDecls,
    counting: Option<u32>,
) -> Result<Code, NoMemory>
    ensures value { IfOk result (λ code. code ≡ record {
      lines = into.lines;
      functions = into.functions;
      statics = into.statics;
      main = main;
      constants = into.constants;
      types = into.types;
      tables = tables;
      ignore = counting;
    }) }
{
    let constants = into.constants.copied()?;
    let Builder {
        lines,
        functions,
        statics,
        constants: _,
        types,
    } = into;
    Ok(Code {
        lines,
        functions,
        statics,
        main,
        constants,
        types,
        tables,
        ignore: counting,
    })
}

// Appends the code of the functions among items, each with its routine.
fn gen_functions(items: &[Item], into: &mut Builder) -> Result<(), NoMemory>
    ensures made { OnOk result (ExtendsFunctions into.old into.new (functions_of (map item_of items.now))) }
{
    for item in items {
        let Item::Function(function) = item else {
            continue;
        };
        gen_function(function, into)?;
    }
    Ok(())
}

// Appends the code of a function, with its routine.
fn gen_function(function: &Function, into: &mut Builder) -> Result<(), NoMemory>
    ensures made { OnOk result (ExtendsFunction into.old into.new (function_of function.now)) }
{
    let params = small(function.signature.parameters.len())?;
    let locals = small(function.locals.len())?;
    into.begin_function(params, locals)?;
    let outside = Exits {
        on_break: 0,
        on_continue: 0,
        flags: 0,
    };
    gen_stmts(function.body.as_slice(), outside, into)?;
    gen_undefined(into)
}

// Appends the return of undefined, which is what zero divided by zero is.
fn gen_undefined(into: &mut Builder) -> Result<(), NoMemory>
    ensures made { OnOk result (Appends into.old into.new (λ tables at. returns_undefined tables) (λ tables. HasConstant tables (Datum.int (pos 0)))) }
{
    let place = Place { line: 1, column: 1 };
    into.push_constant(&Value::Int(0), 0, place)?;
    into.push_constant(&Value::Int(0), 0, place)?;
    free(Instr::Binary(BinOp::Div), into)?;
    free(Instr::Return, into)
}

// Appends the code of the statics among items, each with its routine.
fn gen_statics(items: &[Item], into: &mut Builder) -> Result<(), NoMemory>
    ensures made { OnOk result (ExtendsStatics into.old into.new (length into.old.statics) (statics_of (map item_of items.now))) }
{
    for item in items {
        let Item::Static(held) = item else {
            continue;
        };
        gen_static(held, into)?;
    }
    Ok(())
}

// Appends the code of a static, with its routine.
fn gen_static(held: &Static, into: &mut Builder) -> Result<(), NoMemory>
    ensures made { OnOk result (ExtendsStatic into.old into.new (length into.old.statics) (static_of held.now)) }
{
    let number = into.begin_static()?;
    gen_closed(&held.value, Instr::KeepStatic(number), held.place, into)?;
    free(Instr::EndRecord, into)
}

// Appends the code of the statements among items.
fn gen_statements(items: &[Item], into: &mut Builder) -> Result<(), NoMemory>
    ensures made { OnOk result (AppendsStms into.old into.new (stms_of (statements_of (map item_of items.now))) no_exits) }
{
    let outside = Exits {
        on_break: 0,
        on_continue: 0,
        flags: 0,
    };
    for item in items {
        let Item::Statement(statement) = item else {
            continue;
        };
        gen_stmt(statement, outside, into)?;
    }
    Ok(())
}

// The declarations of tables among items, each copied.
fn copied_tables(alloc: Global, items: &[Item]) -> Result<TableDecls, NoMemory>
    ensures value { IfOk result (λ tables. tables ≡ tables_of (map item_of items.now)) }
{
    let mut tables = TableDecls::new(alloc);
    for item in items {
        let Item::Table(table) = item else {
            continue;
        };
        let made = copy_table(alloc, table)?;
        tables.push(made)?;
    }
    Ok(tables)
}
