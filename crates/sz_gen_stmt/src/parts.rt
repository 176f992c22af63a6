//! The code of what stands in statements and holds no statement.
ghost use Rattle.std.specs.Prelude.{◌≡◌, length, map, OnOk, IfOk, IfSome};
ghost use Rattle.std.specs.Option.{option_map};
ghost use Rattle.sz_core.specs.Nodes.{nodes_of};
ghost use Rattle.sz_core.specs.Statements.{store, emit};
ghost use Rattle.sz_core.specs.View.{node_of, step_of, quantified_of};
ghost use Rattle.sz_instr.specs.declared.instr.Instr.TheVariants.{Push, Jump};
ghost use Rattle.sz_value.specs.Data.{truth};
ghost use Rattle.sz_gen_rules.specs.Tables.{constant_number, HasConstant};
ghost use Rattle.sz_gen_rules.specs.ExpressionCode.{code_if_some};
ghost use Rattle.sz_gen_rules.specs.Named.{HasNames};
ghost use Rattle.sz_gen_rules.specs.FreeLines.{no_place};
ghost use Rattle.sz_gen_rules.specs.StatementCode.{no_exits, discards, bare_step};
ghost use Rattle.sz_gen_expr.specs.Building.{Appends, AppendsLine, Nothing};
ghost use Rattle.sz_gen_stmt.specs.Making.{node_if_some, AppendsStm, AppendsTest, AppendsCandidates, AppendsIndexes};

use std::alloc::Global;
use sz_core::{CoreExpr, CoreStep, Quantified};
use sz_gen_expr::{Builder, count, gen_all, gen_closed, gen_expr};
use sz_instr::{Instr, Step, Steps};
use sz_types::Place;
use sz_value::{NoMemory, Value};

/// Appends a line that takes no ticks and never faults.
pub fn free(instr: Instr, into: &mut Builder) -> Result<(), NoMemory>
    ensures made { OnOk result (AppendsLine into.old into.new (λ tables. instr) 0 no_place Nothing) }
{
    into.append(instr, 0, Place { line: 1, column: 1 })
}

/// Appends a jump to a line that isn't known yet, and gives its place.
pub fn jump(into: &mut Builder) -> Result<usize, NoMemory>
    ensures at { IfOk result (λ at. at ≡ length into.old.lines) }
    ensures made { OnOk result (AppendsLine into.old into.new (λ tables. Jump 0) 0 no_place Nothing) }
{
    into.push(Instr::Jump(0), 0, Place { line: 1, column: 1 })
}

/// Appends a line that pushes the flag of a variable for each candidate.
pub fn gen_flag(flag: bool, into: &mut Builder) -> Result<(), NoMemory>
    ensures made { OnOk result (AppendsLine into.old into.new (λ tables. Push (constant_number tables (truth flag))) 0
        no_place (λ tables. HasConstant tables (truth flag))) }
{
    into.push_constant(&Value::Bool(flag), 0, Place { line: 1, column: 1 })
}

/// Appends lines that take so many flags off the stack.
pub fn gen_discards(count: u32, into: &mut Builder) -> Result<(), NoMemory>
    ensures made { OnOk result (Appends into.old into.new (λ tables at. discards count) Nothing) }
{
    for _ in 0..count {
        free(Instr::Discard, into)?;
    }
    Ok(())
}

/// Appends the code of a test of a loop, which goes to a line where it isn't true. A missing one takes its tick alone.
pub fn gen_test(
    place: Place,
    test: Option<&CoreExpr>,
    away: usize,
    into: &mut Builder,
) -> Result<(), NoMemory>
    ensures made { OnOk result (AppendsTest into.old into.new place (node_if_some test.entry) away) }
{
    match test {
        Some(test) => gen_closed(test, Instr::Test(away, away), place, into),
        None => into.close(Instr::Tick, place),
    }
}

/// Appends the code of the list of a variable's candidates.
pub fn gen_candidates(variable: &Quantified, into: &mut Builder) -> Result<(), NoMemory>
    ensures made { OnOk result (AppendsCandidates into.old into.new (quantified_of variable.now)) }
{
    gen_expr(&variable.base, into)?;
    free(Instr::Enter(variable.slice), into)
}

/// Appends the code of an emit: the indexes, the value, and the weight where there is one.
pub fn gen_emit(
    place: Place,
    table: u32,
    indexes: &[CoreExpr],
    value: &CoreExpr,
    weight: &Option<CoreExpr>,
    into: &mut Builder,
) -> Result<(), NoMemory>
    ensures made { OnOk result (AppendsStm into.old into.new
        (emit place table (nodes_of (map node_of indexes.now)) (node_of value.now) (option_map node_of weight.now)) no_exits) }
{
    let count = count(indexes)?;
    gen_all(indexes, into)?;
    gen_expr(value, into)?;
    gen_if_some(weight, into)?;
    into.close(Instr::Emit(table, count, weight.is_some()), place)
}

// Appends the code of an expression, where there is one.
fn gen_if_some(e: &Option<CoreExpr>, into: &mut Builder) -> Result<(), NoMemory>
    ensures made { OnOk result (Appends into.old into.new (λ tables at. code_if_some tables (option_map node_of e.now) at)
        (λ tables. IfSome (option_map node_of e.now) (HasNames tables))) }
{
    match e {
        Some(e) => gen_expr(e, into),
        None => Ok(()),
    }
}

/// Appends the code of a store: the indexes on its way, and the value.
pub fn gen_store(
    place: Place,
    n: u32,
    path: &[CoreStep],
    value: &CoreExpr,
    into: &mut Builder,
) -> Result<(), NoMemory>
    ensures made { OnOk result (AppendsStm into.old into.new (store place n (map step_of path.now) (node_of value.now)) no_exits) }
{
    let steps = bare_steps(into.allocator(), path)?;
    gen_indexes(path, into)?;
    gen_closed(value, Instr::Store(n, steps), place, into)
}

// Appends the code of the indexes among steps.
fn gen_indexes(path: &[CoreStep], into: &mut Builder) -> Result<(), NoMemory>
    ensures made { OnOk result (AppendsIndexes into.old into.new (map step_of path.now)) }
{
    for step in path {
        let CoreStep::Index(index) = step else {
            continue;
        };
        gen_expr(index, into)?;
    }
    Ok(())
}

// The steps without their indexes.
fn bare_steps(alloc: Global, path: &[CoreStep]) -> Result<Steps, NoMemory>
    ensures value { IfOk result (λ steps. steps ≡ map bare_step (map step_of path.now)) }
{
    let mut steps = Steps::new(alloc);
    for step in path {
        steps.push(bare(step))?;
    }
    Ok(steps)
}

// The step without its index.
fn bare(step: &CoreStep) -> Step
    ensures value { result ≡ bare_step (step_of step.now) }
{
    match step {
        CoreStep::Index(_) => Step::Index,
        CoreStep::Field(n) => Step::Field(*n),
    }
}
