//! The code of expressions, made.
ghost use Rattle.std.specs.Prelude.{◌≡◌, map, IfOk, OnOk};
ghost use Rattle.sz_core.specs.Nodes.{nodes_of, pairings_of};
ghost use Rattle.sz_core.specs.View.{node_of, pairing_of};
ghost use Rattle.sz_instr.specs.declared.instr.Instr.TheVariants.{MakeArray, MakeTuple};
ghost use Rattle.sz_gen_rules.specs.ExpressionCode.{count_of, pair_count_of};
ghost use Rattle.sz_gen_expr.specs.Building.{AppendsNode, AppendsClosed, AppendsDecided, AppendsNodes, AppendsList, AppendsPairings, AppendsMap, StillGoesOn};

use crate::NoMemory;
use crate::builder::Builder;
use crate::width::small;
use sz_core::{CoreExpr, CorePair, Form};
use sz_instr::Instr;
use sz_types::Place;

/// Appends the code of an expression.
#[cycle(expr)]
pub(crate) fn append_expr(e: &CoreExpr, into: &mut Builder) -> Result<(), NoMemory>
    ensures made { OnOk result (AppendsNode into.old into.new (node_of e.now)) }
    ensures kept { StillGoesOn into.old into.new }
{
    match &e.form {
        Form::Constant(value) => into.add_constant(value, 1, e.place),
        Form::Local(n) => into.close(Instr::Local(*n), e.place),
        Form::Static(n) => into.close(Instr::Static(*n), e.place),
        Form::Input => into.close(Instr::Input, e.place),
        Form::Call(f, parts) => append_list(parts.as_slice(), Instr::Call(*f), e.place, into),
        Form::Builtin(f, parts) => append_list(parts.as_slice(), Instr::Apply(*f), e.place, into),
        Form::Def(part) => append_closed(part, Instr::Def, e.place, into),
        Form::Convert(part) => {
            append_expr(part, into)?;
            into.add_conversion(&part.ty, &e.ty, e.place)
        }
        Form::Array(parts) => append_array(parts.as_slice(), e.place, into),
        Form::Tuple(parts) => append_tuple(parts.as_slice(), e.place, into),
        Form::Map(pairs) => append_map(pairs.as_slice(), e.place, into),
        Form::Index(whole, index) => {
            append_expr(whole, into)?;
            append_closed(index, Instr::Index, e.place, into)
        }
        Form::Slice(whole, from, to) => {
            append_expr(whole, into)?;
            append_expr(from, into)?;
            append_closed(to, Instr::Slice, e.place, into)
        }
        Form::Field(whole, n) => append_closed(whole, Instr::Field(*n), e.place, into),
        Form::Unary(operator, part) => append_closed(part, Instr::Unary(*operator), e.place, into),
        Form::Binary(operator, left, right) => {
            append_expr(left, into)?;
            append_closed(right, Instr::Binary(*operator), e.place, into)
        }
        Form::And(left, right) => {
            append_expr(left, into)?;
            append_decided(right, Instr::AndTest(0), e.place, into)
        }
        Form::Or(left, right) => {
            append_expr(left, into)?;
            append_decided(right, Instr::OrTest(0), e.place, into)
        }
    }
}

/// Appends the code of an expression, and the line that closes it.
#[cycle(expr)]
pub(crate) fn append_closed(
    e: &CoreExpr,
    instr: Instr,
    place: Place,
    into: &mut Builder,
) -> Result<(), NoMemory>
    ensures made { OnOk result (AppendsClosed into.old into.new (node_of e.now) instr place) }
    ensures kept { StillGoesOn into.old into.new }
{
    append_expr(e, into)?;
    into.close(instr, place)
}

// Appends the code of the right operand of `&&` or `||`, which the test in front of it passes over to the tick of the whole.
#[cycle(expr)]
fn append_decided(
    right: &CoreExpr,
    test: Instr,
    place: Place,
    into: &mut Builder,
) -> Result<(), NoMemory>
    ensures made { OnOk result (AppendsDecided into.old into.new test place (node_of right.now)) }
    ensures kept { StillGoesOn into.old into.new }
{
    let at = into.push(test, 0, place)?;
    append_expr(right, into)?;
    into.land(at);
    into.close(Instr::Tick, place)
}

/// How many expressions there are.
#[tactic(auto, using(crate::proofs::Builds::count_is))]
pub fn count(es: &[CoreExpr]) -> Result<u32, NoMemory>
    ensures value { IfOk result (λ n. n ≡ count_of (nodes_of (map node_of es.now))) }
{
    small(es.len())
}

// How many pairs of a key and a value there are.
#[tactic(auto, using(crate::proofs::Builds::pair_count_is))]
fn count_pairs(pairs: &[CorePair]) -> Result<u32, NoMemory>
    ensures value { IfOk result (λ n. n ≡ pair_count_of (pairings_of (map pairing_of pairs.now))) }
{
    small(pairs.len())
}

// Appends the code of expressions, one after the other, and the line that closes it.
#[cycle(expr)]
fn append_list(
    es: &[CoreExpr],
    instr: Instr,
    place: Place,
    into: &mut Builder,
) -> Result<(), NoMemory>
    ensures made { OnOk result (AppendsList into.old into.new (nodes_of (map node_of es.now)) instr place) }
    ensures kept { StillGoesOn into.old into.new }
{
    append_all(es, into)?;
    into.close(instr, place)
}

// Appends the code of the array of these expressions.
#[cycle(expr)]
fn append_array(es: &[CoreExpr], place: Place, into: &mut Builder) -> Result<(), NoMemory>
    ensures made { OnOk result (AppendsList into.old into.new (nodes_of (map node_of es.now)) (MakeArray (count_of (nodes_of (map node_of es.now)))) place) }
    ensures kept { StillGoesOn into.old into.new }
{
    let count = count(es)?;
    append_list(es, Instr::MakeArray(count), place, into)
}

// Appends the code of the tuple of these expressions.
#[cycle(expr)]
fn append_tuple(es: &[CoreExpr], place: Place, into: &mut Builder) -> Result<(), NoMemory>
    ensures made { OnOk result (AppendsList into.old into.new (nodes_of (map node_of es.now)) (MakeTuple (count_of (nodes_of (map node_of es.now)))) place) }
    ensures kept { StillGoesOn into.old into.new }
{
    let count = count(es)?;
    append_list(es, Instr::MakeTuple(count), place, into)
}

/// Appends the code of expressions, one after the other.
#[cycle(expr)]
pub(crate) fn append_all(es: &[CoreExpr], into: &mut Builder) -> Result<(), NoMemory>
    ensures made { OnOk result (AppendsNodes into.old into.new (nodes_of (map node_of es.now))) }
    ensures kept { StillGoesOn into.old into.new }
{
    for e in es {
        append_expr(e, into)?;
    }
    Ok(())
}

// Appends the code of the map of these keys and values.
#[cycle(expr)]
fn append_map(pairs: &[CorePair], place: Place, into: &mut Builder) -> Result<(), NoMemory>
    ensures made { OnOk result (AppendsMap into.old into.new (pairings_of (map pairing_of pairs.now)) place) }
    ensures kept { StillGoesOn into.old into.new }
{
    let count = count_pairs(pairs)?;
    append_pairs(pairs, into)?;
    into.close(Instr::MakeMap(count), place)
}

// Appends the code of keys and values, by turns.
#[cycle(expr)]
fn append_pairs(pairs: &[CorePair], into: &mut Builder) -> Result<(), NoMemory>
    ensures made { OnOk result (AppendsPairings into.old into.new (pairings_of (map pairing_of pairs.now))) }
    ensures kept { StillGoesOn into.old into.new }
{
    for pair in pairs {
        append_expr(&pair.key, into)?;
        append_expr(&pair.value, into)?;
    }
    Ok(())
}
