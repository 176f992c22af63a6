//! Declarations of functions.
ghost use Rattle.std.specs.Prelude.{◌≡◌, ◌++◌, ◌∷◌, [], length, IfOk, map as each};
ghost use Rattle.sz_types.specs.Seen.{seen};
ghost use Rattle.sz_tree.specs.Types.{params_of};
ghost use Rattle.sz_tree.specs.Statements.{stms_of};
ghost use Rattle.sz_tree.specs.View.{type_of, param_of, stm_of};
ghost use Rattle.sz_core.specs.View.{signature_of};
ghost use Rattle.sz_check_rules.specs.Names.{declare, function};
ghost use Rattle.sz_check_rules.specs.JudgingPrograms.{judge_parameters, judge_function};
ghost use Rattle.sz_check_names.specs.Knowledge.{blocks_of, scene_of};
ghost use Rattle.sz_check.specs.Functions.{declare_parameters, judge_header, judge_body, finished};
ghost use Rattle.sz_check.specs.FunctionParts.{body_of};
ghost use Rattle.sz_check.specs.Top.{found_one, top_of};
ghost use Rattle.sz_check_names.specs.Outcome.{Judges};

use crate::stmt::{Around, judge_stms};
use crate::top::Top;
use std::alloc::{AllocError, Global};
use sz_check_emits::body_emits;
use sz_check_names::{Known, Meaning, Verdict, judge_type, small};
use sz_core::{CoreStmt, Function, Item, Signature};
use sz_tree::{Name, Param, Stmt, TypeTree};
use sz_types::{Ty, Tys, copy_ty, copy_tys};

// A copy of a signature.
fn copy_signature(alloc: Global, signature: &Signature) -> Result<Signature, AllocError>
    ensures value { IfOk result (λ made. signature_of made ≡ signature_of signature.now) }
{
    let parameters = copy_tys(alloc, &signature.parameters)?;
    let result = copy_ty(alloc, &signature.result)?;
    Ok(Signature {
        parameters,
        result,
        emits: signature.emits,
    })
}

// The parameters of a function, each a variable of it; a parameter is declared before the next one is judged.
fn judge_parameters(known: &mut Known, trees: &[Param]) -> Verdict<()>
    ensures value { Judges (λ _. scene_of known.new) result (judge_parameters (scene_of known.old) (params_of (each param_of trees.now))) }
    ensures outside { IfOk result (λ _. known.new.outside ≡ known.old.outside) }
{
    for tree in trees {
        let ty = judge_type(known, &tree.of)?;
        let _number = known.declare_variable(&tree.name, ty)?;
    }
    Ok(())
}

// The same once the types of the parameters are known.
fn declare_parameters(known: &mut Known, trees: &[Param], types: &[Ty]) -> Verdict<()>
    ensures value { Judges (λ _. scene_of known.new) result
        (declare_parameters (scene_of known.old) (params_of (each param_of trees.now)) (each seen types.now)) }
    ensures outside { IfOk result (λ _. known.new.outside ≡ known.old.outside) }
{
    for i in 0..trees.len().min(types.len()) {
        let ty = copy_ty(known.alloc(), &types[i])?;
        let _number = known.declare_variable(&trees[i].name, ty)?;
    }
    Ok(())
}

// The parameters of a function and the type of its result, and whether it emits by its text.
fn judge_header(
    known: &mut Known,
    name: &Name,
    params: &[Param],
    of: &TypeTree,
    trees: &[Stmt],
) -> Verdict<Signature>
    ensures value { Judges signature_of result
        (judge_header (blocks_of known.old) name.now (params_of (each param_of params.now)) (type_of of.now) (stms_of (each stm_of trees.now))) }
    ensures kept { IfOk result (λ _. known.new ≡ known.old) }
{
    let aside = known.enter_function()?;
    judge_parameters(known, params)?;
    let result = judge_type(known, of)?;
    let emits = body_emits(known, name, trees)?;
    let parameters = known.leave_function(aside);
    Ok(Signature {
        parameters,
        result,
        emits,
    })
}

// The next function, under its name.
fn declare_function(top: &mut Top, name: &Name, signature: &Signature) -> Verdict<()>
    ensures value { Judges (λ _. blocks_of top.new.known) result
        (declare name.now (function (length top.old.functions.items) (signature_of signature.now)) (blocks_of top.old.known)) }
    ensures outside { top.new.known.outside ≡ top.old.known.outside }
    ensures locals { top.new.known.locals ≡ top.old.known.locals }
    ensures tables { top.new.tables ≡ top.old.tables }
    ensures statics { top.new.statics ≡ top.old.statics }
    ensures functions { top.new.functions ≡ top.old.functions }
{
    let number = small(top.functions.len())?;
    let meaning = Meaning::Function(number, copy_signature(top.known.alloc(), signature)?);
    top.known.declare(name, meaning)
}

// The statements of a function, and the types of its variables by number.
#[derive(Drop)]
pub struct Body {
    pub locals: Tys,
    pub statements: Vec<CoreStmt>,
}

// The statements of a function, whose own name is known.
fn judge_body(
    known: &mut Known,
    params: &[Param],
    signature: &Signature,
    trees: &[Stmt],
) -> Verdict<Body>
    ensures value { Judges body_of result
        (judge_body (blocks_of known.old) (params_of (each param_of params.now)) (signature_of signature.now)
        (stms_of (each stm_of trees.now))) }
    ensures kept { IfOk result (λ _. known.new ≡ known.old) }
{
    let aside = known.enter_function()?;
    declare_parameters(known, params, signature.parameters.as_slice())?;
    let around = Around {
        result: Some(&signature.result),
        in_loop: false,
    };
    let statements = judge_stms(known, around, trees)?;
    let locals = known.leave_function(aside);
    Ok(Body { locals, statements })
}

// Takes over a copy of a signature.
fn push_signature(signatures: &mut Vec<Signature>, signature: &Signature) -> Result<(), AllocError>
    ensures value { IfOk result
        (λ _. each signature_of signatures.new.items ≡ each signature_of signatures.old.items ++ signature_of signature.now ∷ []) }
{
    let copy = copy_signature(*signatures.allocator(), signature)?;
    signatures.push(copy)?;
    Ok(())
}

// What the statements of a function make of it, whose own name is known.
fn finished(top: &mut Top, signature: Signature, body: Body) -> Result<Item, AllocError>
    ensures value { IfOk result
        (λ i. found_one top.new i ≡ finished (top_of top.old) (blocks_of top.old.known) (signature_of signature) (body_of body)) }
{
    push_signature(&mut top.functions, &signature)?;
    Ok(Item::Function(Function {
        signature,
        locals: body.locals,
        body: body.statements,
    }))
}

// `name: function(parameters): type {statements}`: the parameters and the type of the result, then the function's own name, and
// then its statements, which see it.
pub fn judge_function(
    top: &mut Top,
    name: &Name,
    params: &[Param],
    of: &TypeTree,
    trees: &[Stmt],
) -> Verdict<Item>
    ensures value { Judges (λ i. found_one top.new i) result
        (judge_function (top_of top.old) name.now (params_of (each param_of params.now)) (type_of of.now)
        (stms_of (each stm_of trees.now))) }
{
    let signature = judge_header(&mut top.known, name, params, of, trees)?;
    declare_function(top, name, &signature)?;
    let body = judge_body(&mut top.known, params, &signature, trees)?;
    Ok(finished(top, signature, body)?)
}
