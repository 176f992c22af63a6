//! Literals.
ghost use Rattle.std.specs.Prelude.{◌≡◌, IfOk};
ghost use Rattle.sz_tree.specs.View.{literal_of};
ghost use Rattle.sz_core.specs.View.{node_of};
ghost use Rattle.sz_check_rules.specs.JudgingExpressions.{literal_node};

use std::alloc::{AllocError, Global};
use sz_core::{CoreExpr, Form};
use sz_tree::Literal;
use sz_types::{Place, Ty};
use sz_value::{Octets, Text, Value};

// A literal: a character is the number of its code.
pub fn literal_node(alloc: Global, place: Place, literal: &Literal) -> Result<CoreExpr, AllocError>
    ensures value { IfOk result (λ node. node_of node ≡ literal_node place (literal_of literal.now)) }
{
    let (ty, value) = match literal {
        Literal::Number(number) => (Ty::Int, Value::Int(*number)),
        Literal::Str(text) => {
            let string = String::from_str(alloc, text.as_str())?;
            (Ty::Str, Value::Str(Text::from_string(string)))
        }
        Literal::Bytes(bytes) => {
            let octets = Octets::from_slice(alloc, bytes.as_slice())?;
            (Ty::Bytes, Value::Bytes(octets))
        }
        Literal::Character(character) => (Ty::Int, Value::Int(i64::from(u32::from(*character)))),
        Literal::Bool(truth) => (Ty::Bool, Value::Bool(*truth)),
    };
    let form = Form::Constant(value);
    Ok(CoreExpr { place, ty, form })
}
