//! That `run` and `run_statics` answer where there is memory.
ghost use Rattle.std.specs.Prelude.{◌≡◌, [], ◌∷◌, pos, IfOk, Some};
ghost use Rattle.sz_types.specs.SeenTables.{seen_table};
ghost use Rattle.sz_value.specs.Data.{int};
ghost use Rattle.sz_instr.specs.Example.{line_of, sum_named};
ghost use Rattle.sz_machine_tests.specs.Example.{lines, begins_at, example};

use std::alloc::Global;
use std::test::Fail;
use sz_instr::{Code, Instr, Line, Lines, Routine, Routines};
use sz_machine::{RunEnd, StaticsEnd, run, run_statics};
use sz_types::{NoMemory, Place, TableDecl, TableDecls, TableKind, Text, Ty, Tys};
use sz_value::{List, Slot, Slots, Value, equal};

pub(crate) fn line(instr: Instr, charge: u32, row: u32, column: u32) -> Line
    ensures value { result ≡ line_of instr charge row column }
{
    Line {
        instr,
        charge,
        place: Place { line: row, column },
    }
}

fn lines_of_example(alloc: Global) -> Result<Lines, NoMemory>
    ensures value { IfOk result (λ made. made ≡ lines) }
{
    let made = vec![in alloc;
        line(Instr::Push(0), 1, 2, 20),
        line(Instr::KeepStatic(0), 1, 2, 1),
        line(Instr::EndRecord, 0, 2, 1),
        line(Instr::Static(0), 1, 3, 15),
        line(Instr::Emit(0, 0, false), 1, 3, 1),
        line(Instr::EndRecord, 0, 1, 1),
    ]?;
    Ok(Lines::from_vec(made))
}

fn begins_at(entry: usize) -> Routine
    ensures value { result ≡ begins_at entry }
{
    Routine {
        entry,
        params: 0,
        locals: 0,
    }
}

fn one_static(alloc: Global) -> Result<Routines, NoMemory>
    ensures value { IfOk result (λ made. made ≡ example.statics) }
{
    let mut made = Routines::new(alloc);
    made.push(begins_at(0))?;
    Ok(made)
}

fn five(alloc: Global) -> Result<List, NoMemory>
    ensures value { IfOk result (λ made. made ≡ example.constants) }
{
    let mut made = List::new(alloc);
    made.push(Value::Int(5))?;
    Ok(made)
}

/// The declaration of a sum of whole numbers of this name, without indexes.
pub(crate) fn sum(alloc: Global, name: &str) -> Result<TableDecl, NoMemory>
    ensures value { IfOk result (λ table. seen_table table ≡ sum_named name.now) }
{
    let name = Text::from_str(alloc, name)?;
    Ok(TableDecl {
        name,
        kind: TableKind::Sum,
        limit: 0,
        indexes: Tys::new(alloc),
        element: Ty::Int,
        weight: None,
    })
}

pub(crate) fn one_table(alloc: Global) -> Result<TableDecls, NoMemory>
    ensures value { IfOk result (λ made. made ≡ example.tables) }
{
    let mut made = TableDecls::new(alloc);
    made.push(sum(alloc, "total")?)?;
    Ok(made)
}

fn code_of_example(alloc: Global) -> Result<Code, NoMemory>
    ensures value { IfOk result (λ code. code ≡ example) }
{
    Ok(Code {
        lines: lines_of_example(alloc)?,
        functions: Routines::new(alloc),
        statics: one_static(alloc)?,
        main: begins_at(3),
        constants: five(alloc)?,
        types: Tys::new(alloc),
        tables: one_table(alloc)?,
        ignore: None,
    })
}

// The statics of the example.
#[tactic(auto, using(crate::proofs::ExampleLemmas::formed, crate::proofs::ExampleLemmas::statics_end))]
fn statics_of(alloc: Global, code: &Code) -> Result<StaticsEnd, NoMemory>
    requires example { code.now ≡ example }
{
    run_statics(alloc, code, 2)
}

// The end of the example's run for a record, with its static.
#[tactic(auto, using(crate::proofs::ExampleLemmas::formed, crate::proofs::ExampleLemmas::run_ends))]
fn end_of(alloc: Global, code: &Code, statics: &Slots, input: &[u8]) -> Result<RunEnd, NoMemory>
    requires example { code.now ≡ example }
    requires statics { statics.now ≡ Some (int (pos 5)) ∷ [] }
{
    run(alloc, code, input, statics, 3)
}

fn one_slot(alloc: Global) -> Result<Slots, NoMemory>
    ensures value { IfOk result (λ slots. slots ≡ Some (int (pos 5)) ∷ []) }
{
    let mut slots = Slots::new(alloc);
    slots.push(Slot::Defined(Value::Int(5)))?;
    Ok(slots)
}

fn is_five(slots: &Slots) -> bool {
    if slots.len() != 1 {
        return false;
    }
    match slots.get(0) {
        Slot::Defined(value) => equal(value, &Value::Int(5)),
        Slot::Undefined => false,
    }
}

#[test]
fn a_static_is_computed(rt: HostRuntime) -> Result<(), Fail> {
    let code = code_of_example(rt.alloc())?;
    match statics_of(rt.alloc(), &code)? {
        StaticsEnd::Done(slots) => assert!(rt; is_five(&slots)),
        StaticsEnd::Fault(_) => Err("a fault")?,
    }
    Ok(())
}

#[test]
fn a_record_emits_the_static(rt: HostRuntime) -> Result<(), Fail> {
    let code = code_of_example(rt.alloc())?;
    let statics = one_slot(rt.alloc())?;
    match end_of(rt.alloc(), &code, &statics, b"abc")? {
        RunEnd::Done(emits) => {
            assert_eq!(rt; emits.len(), 1);
            for emit in emits.as_slice() {
                assert!(rt; equal(&emit.value, &Value::Int(5)));
            }
        }
        RunEnd::Fault(_) => Err("a fault")?,
    }
    Ok(())
}
