//! The code of expressions, made as a whole or not at all.
ghost use Rattle.std.specs.Prelude.{◌≡◌, map, OnOk, OnErr};
ghost use Rattle.sz_core.specs.Nodes.{nodes_of};
ghost use Rattle.sz_core.specs.View.{node_of};
ghost use Rattle.sz_gen_expr.specs.Building.{AppendsNode, AppendsClosed, AppendsNodes};

use crate::NoMemory;
use crate::builder::Builder;
use crate::expr::{append_all, append_closed, append_expr};
use sz_core::CoreExpr;
use sz_instr::Instr;
use sz_types::Place;

/// Appends the code of an expression.
pub fn gen_expr(e: &CoreExpr, into: &mut Builder) -> Result<(), NoMemory>
    ensures made { OnOk result (AppendsNode into.old into.new (node_of e.now)) }
    ensures err { OnErr result (into.new ≡ into.old) }
{
    let mark = into.mark();
    match append_expr(e, into) {
        Ok(()) => Ok(()),
        Err(error) => {
            into.cut(mark);
            Err(error)
        }
    }
}

/// Appends the code of an expression, and the line that closes it.
pub fn gen_closed(
    e: &CoreExpr,
    instr: Instr,
    place: Place,
    into: &mut Builder,
) -> Result<(), NoMemory>
    ensures made { OnOk result (AppendsClosed into.old into.new (node_of e.now) instr place) }
    ensures err { OnErr result (into.new ≡ into.old) }
{
    let mark = into.mark();
    match append_closed(e, instr, place, into) {
        Ok(()) => Ok(()),
        Err(error) => {
            into.cut(mark);
            Err(error)
        }
    }
}

/// Appends the code of expressions, one after the other.
pub fn gen_all(es: &[CoreExpr], into: &mut Builder) -> Result<(), NoMemory>
    ensures made { OnOk result (AppendsNodes into.old into.new (nodes_of (map node_of es.now))) }
    ensures err { OnErr result (into.new ≡ into.old) }
{
    let mark = into.mark();
    match append_all(es, into) {
        Ok(()) => Ok(()),
        Err(error) => {
            into.cut(mark);
            Err(error)
        }
    }
}
