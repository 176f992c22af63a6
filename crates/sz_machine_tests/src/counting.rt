//! That the line of each use of an undefined value is counted, where the code counts lines.
ghost use Rattle.std.specs.Prelude.{◌≡◌, [], ◌∷◌, ◌++◌, IfOk};
ghost use Rattle.sz_types.specs.SeenTables.{seen_table};
ghost use Rattle.sz_instr.specs.declared.line.Line.{Line};
ghost use Rattle.sz_instr.specs.Example.{line_of};
ghost use Rattle.sz_machine_tests.specs.Counting.{quotient, counts, counting};

use crate::example::{line, one_table};
use std::alloc::Global;
use std::test::Fail;
use sz_instr::{Code, Instr, Line, Lines, Routine, Routines, Steps};
use sz_machine::{RunEnd, run};
use sz_types::{BinOp, NoMemory, TableDecl, TableDecls, TableKind, Text, Ty, Tys};
use sz_value::{List, Slots, Value, equal};

fn quotient(alloc: Global, row: u32) -> Result<Vec<Line>, NoMemory>
    ensures value { IfOk result (λ made. made.items ≡ quotient row) }
{
    Ok(vec![in alloc;
        line(Instr::Push(0), 0, row, 1),
        line(Instr::Push(1), 0, row, 1),
        line(Instr::Binary(BinOp::Div), 0, row, 1),
    ]?)
}

// A quotient by 0, and what uses it.
fn used(alloc: Global, row: u32, by: Instr) -> Result<Vec<Line>, NoMemory>
    ensures value { IfOk result (λ made. made.items ≡ quotient row ++ line_of by 0 row 1 ∷ []) }
{
    let mut made = quotient(alloc, row)?;
    made.push(line(by, 0, row, 1))?;
    Ok(made)
}

fn lines_of_counting(alloc: Global) -> Result<Lines, NoMemory>
    ensures value { IfOk result (λ made. made ≡ counting.lines) }
{
    let mut made = used(alloc, 1, Instr::Emit(0, 0, false))?;
    let mut second = used(alloc, 2, Instr::Discard)?;
    let mut third = used(alloc, 3, Instr::Test(16, 12))?;
    let mut fourth = used(alloc, 4, Instr::Store(0, Steps::new(alloc)))?;
    made.append(&mut second)?;
    made.append(&mut third)?;
    made.append(&mut fourth)?;
    made.push(line(Instr::EndRecord, 0, 1, 1))?;
    Ok(Lines::from_vec(made))
}

fn numbers(alloc: Global) -> Result<List, NoMemory>
    ensures value { IfOk result (λ made. made ≡ counting.constants) }
{
    let mut made = List::new(alloc);
    made.push(Value::Int(5))?;
    made.push(Value::Int(0))?;
    Ok(made)
}

fn counts(alloc: Global) -> Result<TableDecl, NoMemory>
    ensures value { IfOk result (λ table. seen_table table ≡ counts) }
{
    let mut indexes = Tys::new(alloc);
    indexes.push(Ty::Int)?;
    Ok(TableDecl {
        name: Text::from_str(alloc, "_undefs")?,
        kind: TableKind::Sum,
        limit: 0,
        indexes,
        element: Ty::Int,
        weight: None,
    })
}

fn two_tables(alloc: Global) -> Result<TableDecls, NoMemory>
    ensures value { IfOk result (λ made. made ≡ counting.tables) }
{
    let mut made = one_table(alloc)?;
    made.push(counts(alloc)?)?;
    Ok(made)
}

fn code_of_counting(alloc: Global) -> Result<Code, NoMemory>
    ensures value { IfOk result (λ code. code ≡ counting) }
{
    Ok(Code {
        lines: lines_of_counting(alloc)?,
        functions: Routines::new(alloc),
        statics: Routines::new(alloc),
        main: Routine {
            entry: 0,
            params: 0,
            locals: 1,
        },
        constants: numbers(alloc)?,
        types: Tys::new(alloc),
        tables: two_tables(alloc)?,
        ignore: Some(1),
    })
}

// The end of the run for a record.
#[tactic(auto, using(crate::proofs::CountingLemmas::formed, crate::proofs::CountingLemmas::run_ends))]
fn end_of(alloc: Global, code: &Code, statics: &Slots, input: &[u8]) -> Result<RunEnd, NoMemory>
    requires counting { code.now ≡ counting }
    requires statics { statics.now ≡ [] }
{
    run(alloc, code, input, statics, 1)
}

const WANTED: &[i64] = &[1, 2, 3, 4];

fn wanted() -> &'static [i64] {
    WANTED
}

#[test]
fn each_use_is_counted_by_its_line(rt: HostRuntime) -> Result<(), Fail> {
    let code = code_of_counting(rt.alloc())?;
    let statics = Slots::new(rt.alloc());
    match end_of(rt.alloc(), &code, &statics, b"abc")? {
        RunEnd::Done(emits) => {
            assert_eq!(rt; emits.len(), 4);
            for (emit, number) in emits.as_slice().iter().zip(wanted()) {
                assert_eq!(rt; (emit.table, emit.indexes.len()), (1, 1));
                assert!(rt; equal(emit.indexes.get(0), &Value::Int(*number)));
                assert!(rt; equal(&emit.value, &Value::Int(1)));
            }
        }
        RunEnd::Fault(_) => Err("a fault")?,
    }
    Ok(())
}
