//! The code of statements.
ghost use Rattle.std.specs.Prelude.{◌≡◌, ◌∷◌, map, OnOk};
ghost use Rattle.sz_core.specs.Statements.{branch, do_while, when, some, each, stms_of};
ghost use Rattle.sz_core.specs.View.{node_of, quantity_of, quantified_of, stm_of};
ghost use Rattle.sz_gen_stmt.specs.Making.{exits_of, node_if_some, stm_if_some, AppendsStm, AppendsStms, AppendsLoop, AppendsIfAny, AppendsSearch, AppendsHolds};

use crate::parts::{
    free, gen_candidates, gen_discards, gen_emit, gen_flag, gen_store, gen_test, jump,
};
use sz_core::{CoreExpr, CoreQuantity, CoreStmt, Quantified};
use sz_gen_expr::{Builder, gen_closed, gen_expr, small};
use sz_instr::Instr;
use sz_types::Place;
use sz_value::NoMemory;

/// Where a statement's code is left: the lines that `break` and `continue` go to, and how many flags of searches are on the stack.
#[derive(Clone, Copy)]
pub struct Exits {
    pub on_break: usize,
    pub on_continue: usize,
    pub flags: u32,
}

/// Appends the code of a statement, with the exits around it.
#[cycle(statements)]
pub fn gen_stmt(s: &CoreStmt, out: Exits, into: &mut Builder) -> Result<(), NoMemory>
    ensures made { OnOk result (AppendsStm into.old into.new (stm_of s.now) (exits_of out)) }
{
    match s {
        CoreStmt::Block(statements) => gen_stmts(statements.as_slice(), out, into),
        CoreStmt::Clear(n) => free(Instr::Clear(*n), into),
        CoreStmt::Keep(place, n, value) => gen_closed(value, Instr::Keep(*n), *place, into),
        CoreStmt::Store(place, n, path, value) => {
            gen_store(*place, *n, path.as_slice(), value, into)
        }
        CoreStmt::Evaluate(place, call) => {
            gen_expr(call, into)?;
            into.append(Instr::Discard, 0, *place)
        }
        CoreStmt::Branch(place, test, first, second) => {
            gen_branch(*place, test, first, second, out, into)
        }
        CoreStmt::While(place, test, body) => {
            gen_loop(*place, Some(test), None, body, out, into)
        }
        CoreStmt::DoWhile(place, body, test) => gen_do_while(*place, body, test, out, into),
        CoreStmt::For(place, test, between, body) => {
            gen_loop(*place, test.as_ref(), Some(between), body, out, into)
        }
        CoreStmt::Break => free(Instr::Jump(out.on_break), into),
        CoreStmt::Continue => free(Instr::Jump(out.on_continue), into),
        CoreStmt::Return(place, value) => {
            gen_discards(out.flags, into)?;
            gen_closed(value, Instr::Return, *place, into)
        }
        CoreStmt::EndRecord(place) => into.close(Instr::EndRecord, *place),
        CoreStmt::Emit(place, table, indexes, value, weight) => {
            gen_emit(*place, *table, indexes.as_slice(), value, weight, into)
        }
        CoreStmt::When(place, variables, condition, body) => {
            gen_when(*place, variables.as_slice(), condition, body, out, into)
        }
    }
}

// Appends the code of a branch.
#[cycle(statements)]
fn gen_branch(
    place: Place,
    test: &CoreExpr,
    first: &CoreStmt,
    second: &CoreStmt,
    out: Exits,
    into: &mut Builder,
) -> Result<(), NoMemory>
    ensures made { OnOk result (AppendsStm into.old into.new
        (branch place (node_of test.now) (stm_of first.now) (stm_of second.now)) (exits_of out)) }
{
    gen_expr(test, into)?;
    let skip = into.push(Instr::Test(0, 0), 1, place)?;
    gen_stmt(first, out, into)?;
    let over = jump(into)?;
    into.land(skip);
    gen_stmt(second, out, into)?;
    into.land(over);
    into.land_past(skip);
    Ok(())
}

// Appends the code of a loop that is tested before each turn. A missing test is true, and there may be something to do between turns.
#[cycle(statements)]
fn gen_loop(
    place: Place,
    test: Option<&CoreExpr>,
    between: Option<&CoreStmt>,
    body: &CoreStmt,
    out: Exits,
    into: &mut Builder,
) -> Result<(), NoMemory>
    ensures made { OnOk result (AppendsLoop into.old into.new place (node_if_some test.entry) (stm_if_some between.entry)
        (stm_of body.now) (exits_of out)) }
{
    let entry = jump(into)?;
    let past = jump(into)?;
    let again = into.here();
    gen_if_any(between, out, into)?;
    into.close(Instr::Tick, place)?;
    into.land(entry);
    gen_test(place, test, past, into)?;
    let inside = Exits {
        on_break: past,
        on_continue: again,
        flags: out.flags,
    };
    gen_stmt(body, inside, into)?;
    free(Instr::Jump(again), into)?;
    into.land(past);
    Ok(())
}

// Appends the code of a statement, where there is one.
#[cycle(statements)]
fn gen_if_any(s: Option<&CoreStmt>, out: Exits, into: &mut Builder) -> Result<(), NoMemory>
    ensures made { OnOk result (AppendsIfAny into.old into.new (stm_if_some s.entry) (exits_of out)) }
{
    match s {
        Some(s) => gen_stmt(s, out, into),
        None => Ok(()),
    }
}

// Appends the code of a loop that is tested after each turn.
#[cycle(statements)]
fn gen_do_while(
    place: Place,
    body: &CoreStmt,
    test: &CoreExpr,
    out: Exits,
    into: &mut Builder,
) -> Result<(), NoMemory>
    ensures made { OnOk result (AppendsStm into.old into.new (do_while place (stm_of body.now) (node_of test.now)) (exits_of out)) }
{
    let entry = jump(into)?;
    let past = jump(into)?;
    let to_test = jump(into)?;
    let again = into.here();
    into.land(entry);
    let inside = Exits {
        on_break: past,
        on_continue: to_test,
        flags: out.flags,
    };
    gen_stmt(body, inside, into)?;
    into.land(to_test);
    gen_test(place, Some(test), past, into)?;
    into.close(Instr::Tick, place)?;
    free(Instr::Jump(again), into)?;
    into.land(past);
    Ok(())
}

// Appends the code of a search, and of what is done where it succeeds.
#[cycle(statements)]
fn gen_when(
    place: Place,
    variables: &[Quantified],
    condition: &CoreExpr,
    body: &CoreStmt,
    out: Exits,
    into: &mut Builder,
) -> Result<(), NoMemory>
    ensures made { OnOk result (AppendsStm into.old into.new
        (when place (map quantified_of variables.now) (node_of condition.now) (stm_of body.now)) (exits_of out)) }
{
    let entry = jump(into)?;
    let past = jump(into)?;
    into.land(entry);
    let search = Search {
        place,
        condition,
        body,
    };
    gen_search(variables, search, out, past, into)?;
    into.land(past);
    Ok(())
}

// What the code of all variables of a `when` is made with: the place of the statement, its condition, and the statement inside.
#[derive(Clone, Copy)]
struct Search<'a> {
    place: Place,
    condition: &'a CoreExpr,
    body: &'a CoreStmt,
}

// Appends the code of a search over these variables, which goes to a line where it fails. The exits have the flags that are on the stack.
#[cycle(statements)]
fn gen_search(
    variables: &[Quantified],
    search: Search<'_>,
    out: Exits,
    fail: usize,
    into: &mut Builder,
) -> Result<(), NoMemory>
    ensures made { OnOk result (AppendsSearch into.old into.new search.entry.place (map quantified_of variables.now)
        (node_of search.entry.condition.now) (stm_of search.entry.body.now) (exits_of out) fail) }
{
    let [variable, rest @ ..] = variables else {
        gen_expr(search.condition, into)?;
        free(Instr::Meets(fail), into)?;
        return gen_stmt(search.body, out, into);
    };
    match variable.quantity {
        CoreQuantity::Some => gen_some(variable, rest, search, out, fail, into),
        CoreQuantity::Each => gen_each(variable, rest, search, out, fail, into),
        CoreQuantity::All => {
            gen_holds(variables, search.place, search.condition, fail, into)?;
            gen_stmt(search.body, out, into)
        }
    }
}

// Appends the code of a search for some candidate of this variable, with the rest of the variables.
#[cycle(statements)]
fn gen_some(
    variable: &Quantified,
    rest: &[Quantified],
    search: Search<'_>,
    out: Exits,
    fail: usize,
    into: &mut Builder,
) -> Result<(), NoMemory>
    requires some { quantity_of variable.now.quantity ≡ some }
    ensures made { OnOk result (AppendsSearch into.old into.new search.entry.place (quantified_of variable.now ∷ map quantified_of rest.now)
        (node_of search.entry.condition.now) (stm_of search.entry.body.now) (exits_of out) fail) }
{
    gen_candidates(variable, into)?;
    let top = into.push(Instr::Next(variable.local, fail), 1, search.place)?;
    gen_search(rest, search, out, top, into)?;
    free(Instr::Leave, into)
}

// Appends the code of a search for each candidate of this variable, with the rest of the variables.
#[cycle(statements)]
fn gen_each(
    variable: &Quantified,
    rest: &[Quantified],
    search: Search<'_>,
    out: Exits,
    fail: usize,
    into: &mut Builder,
) -> Result<(), NoMemory>
    requires each { quantity_of variable.now.quantity ≡ each }
    ensures made { OnOk result (AppendsSearch into.old into.new search.entry.place (quantified_of variable.now ∷ map quantified_of rest.now)
        (node_of search.entry.condition.now) (stm_of search.entry.body.now) (exits_of out) fail) }
{
    gen_candidates(variable, into)?;
    gen_flag(false, into)?;
    let top = into.push(Instr::Next(variable.local, 0), 1, search.place)?;
    let flags = small(out.flags as usize + 1)?;
    let flagged = Exits {
        on_break: out.on_break,
        on_continue: out.on_continue,
        flags,
    };
    gen_search(rest, search, flagged, top, into)?;
    free(Instr::Discard, into)?;
    gen_flag(true, into)?;
    free(Instr::Jump(top), into)?;
    into.land(top);
    free(Instr::Meets(fail), into)
}

// Appends the code of whether the condition is true or undefined for all candidates of these variables, which goes to a line where it is
// false for one.
#[cycle(holds)]
fn gen_holds(
    variables: &[Quantified],
    place: Place,
    condition: &CoreExpr,
    fail: usize,
    into: &mut Builder,
) -> Result<(), NoMemory>
    ensures made { OnOk result (AppendsHolds into.old into.new place (map quantified_of variables.now) (node_of condition.now) fail) }
{
    let [variable, rest @ ..] = variables else {
        gen_expr(condition, into)?;
        return free(Instr::Fails(fail), into);
    };
    gen_every(variable, rest, place, condition, fail, into)
}

// Appends the same code, of this variable and the rest of the variables.
#[cycle(holds)]
fn gen_every(
    variable: &Quantified,
    rest: &[Quantified],
    place: Place,
    condition: &CoreExpr,
    fail: usize,
    into: &mut Builder,
) -> Result<(), NoMemory>
    ensures made { OnOk result (AppendsHolds into.old into.new place (quantified_of variable.now ∷ map quantified_of rest.now)
        (node_of condition.now) fail) }
{
    gen_candidates(variable, into)?;
    let entry = jump(into)?;
    let away = into.here();
    free(Instr::Leave, into)?;
    free(Instr::Jump(fail), into)?;
    into.land(entry);
    let next = into.push(Instr::Next(variable.local, 0), 1, place)?;
    gen_holds(rest, place, condition, away, into)?;
    free(Instr::Jump(next), into)?;
    into.land(next);
    Ok(())
}

/// Appends the code of statements, one after the other.
#[cycle(statements)]
pub fn gen_stmts(statements: &[CoreStmt], out: Exits, into: &mut Builder) -> Result<(), NoMemory>
    ensures made { OnOk result (AppendsStms into.old into.new (stms_of (map stm_of statements.now)) (exits_of out)) }
{
    for statement in statements {
        gen_stmt(statement, out, into)?;
    }
    Ok(())
}
