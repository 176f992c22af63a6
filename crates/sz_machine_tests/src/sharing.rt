//! That an element is changed in one local alone where two hold one array, and that numbers are emitted.
ghost use Rattle.std.specs.Prelude.{◌≡◌, [], ◌∷◌, IfOk};
ghost use Rattle.sz_instr.specs.declared.step.Step.TheVariants as steps;
ghost use Rattle.sz_machine_tests.specs.Sharing.{assignments, emits, numbers, sharing};

use crate::example::{line, one_table};
use std::alloc::Global;
use std::test::Fail;
use sz_instr::{Code, Instr, Lines, Routine, Routines, Step, Steps};
use sz_machine::{RunEnd, run};
use sz_types::{BinOp, NoMemory, Tys};
use sz_value::{List, Slots, Value, equal};

fn one_index(alloc: Global) -> Result<Steps, NoMemory>
    ensures value { IfOk result (λ made. made ≡ steps.Index ∷ []) }
{
    let mut made = Steps::new(alloc);
    made.push(Step::Index)?;
    Ok(made)
}

fn assignments(alloc: Global) -> Result<Lines, NoMemory>
    ensures value { IfOk result (λ made. made ≡ assignments) }
{
    let path = one_index(alloc)?;
    let made = vec![in alloc;
        line(Instr::Push(0), 0, 1, 1),
        line(Instr::MakeArray(1), 0, 1, 1),
        line(Instr::Store(0, Steps::new(alloc)), 0, 1, 1),
        line(Instr::Local(0), 0, 2, 1),
        line(Instr::Store(1, Steps::new(alloc)), 0, 2, 1),
        line(Instr::Push(1), 0, 3, 1),
        line(Instr::Push(2), 0, 3, 1),
        line(Instr::Store(0, path), 0, 3, 1),
    ]?;
    Ok(Lines::from_vec(made))
}

fn emits(alloc: Global) -> Result<Lines, NoMemory>
    ensures value { IfOk result (λ made. made ≡ emits) }
{
    let made = vec![in alloc;
        line(Instr::Local(1), 0, 4, 1),
        line(Instr::Push(1), 0, 4, 1),
        line(Instr::Index, 0, 4, 1),
        line(Instr::Emit(0, 0, false), 0, 4, 1),
        line(Instr::Local(0), 0, 5, 1),
        line(Instr::Push(1), 0, 5, 1),
        line(Instr::Index, 0, 5, 1),
        line(Instr::Emit(0, 0, false), 0, 5, 1),
        line(Instr::Push(2), 0, 6, 1),
        line(Instr::Push(0), 0, 6, 1),
        line(Instr::Binary(BinOp::Rem), 0, 6, 1),
        line(Instr::Emit(0, 0, false), 0, 6, 1),
        line(Instr::Push(0), 0, 7, 1),
        line(Instr::Push(2), 0, 7, 1),
        line(Instr::Binary(BinOp::Shl), 0, 7, 1),
        line(Instr::Emit(0, 0, false), 0, 7, 1),
        line(Instr::EndRecord, 0, 1, 1),
    ]?;
    Ok(Lines::from_vec(made))
}

fn lines_of_sharing(alloc: Global) -> Result<Lines, NoMemory>
    ensures value { IfOk result (λ made. made ≡ sharing.lines) }
{
    let mut made = assignments(alloc)?.into_vec();
    let mut rest = emits(alloc)?.into_vec();
    made.append(&mut rest)?;
    Ok(Lines::from_vec(made))
}

fn numbers(alloc: Global) -> Result<List, NoMemory>
    ensures value { IfOk result (λ made. made ≡ numbers) }
{
    let mut made = List::new(alloc);
    made.push(Value::Int(5))?;
    made.push(Value::Int(0))?;
    made.push(Value::Int(7))?;
    Ok(made)
}

fn code_of_sharing(alloc: Global) -> Result<Code, NoMemory>
    ensures value { IfOk result (λ code. code ≡ sharing) }
{
    Ok(Code {
        lines: lines_of_sharing(alloc)?,
        functions: Routines::new(alloc),
        statics: Routines::new(alloc),
        main: Routine {
            entry: 0,
            params: 0,
            locals: 2,
        },
        constants: numbers(alloc)?,
        types: Tys::new(alloc),
        tables: one_table(alloc)?,
        ignore: None,
    })
}

// The end of the run for a record.
#[tactic(auto, using(crate::proofs::SharingLemmas::formed, crate::proofs::SharingLemmas::run_ends))]
fn end_of(alloc: Global, code: &Code, statics: &Slots, input: &[u8]) -> Result<RunEnd, NoMemory>
    requires sharing { code.now ≡ sharing }
    requires statics { statics.now ≡ [] }
{
    run(alloc, code, input, statics, 6)
}

const WANTED: &[i64] = &[5, 7, 2, 640];

fn wanted() -> &'static [i64] {
    WANTED
}

#[test]
fn the_other_local_keeps_its_array(rt: HostRuntime) -> Result<(), Fail> {
    let code = code_of_sharing(rt.alloc())?;
    let statics = Slots::new(rt.alloc());
    match end_of(rt.alloc(), &code, &statics, b"abc")? {
        RunEnd::Done(emits) => {
            assert_eq!(rt; emits.len(), 4);
            for (emit, number) in emits.as_slice().iter().zip(wanted()) {
                assert!(rt; equal(&emit.value, &Value::Int(*number)));
            }
        }
        RunEnd::Fault(_) => Err("a fault")?,
    }
    Ok(())
}
