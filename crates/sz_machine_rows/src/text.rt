//! Bytes that become a text where they lie, or else in memory of their own.
ghost use Rattle.std.specs.Prelude.{◌≡◌, ◌<◌, ◌∷◌, length, drop, Some, IfSome, true};
ghost use Rattle.std.specs.Str.{is_utf8};
ghost use Rattle.sz_instr.specs.declared.code.Code.{Code};
ghost use Rattle.sz_instr.specs.declared.instr.Instr.TheVariants as instr;
ghost use Rattle.sz_value.specs.Data.{bytes, str};
ghost use Rattle.sz_value.specs.Weight.{weight_of};
ghost use Rattle.sz_machine_rows.specs.Acting.{DoesIf, weighs_and_acts};

use crate::run_state::RunState;
use std::alloc::Global;
use sz_instr::Code;
use sz_machine_cells::{Cell, Operands};
use sz_types::Ty;
use sz_value::{Text, Value};

impl<'a> RunState<'a> {
    /// Puts the text that the topmost bytes are in their stead, if the type is that of texts, the bytes are UTF-8, there is memory, and the ticks for
    /// it are left.
    #[inline(never)]
    pub fn read_text(&mut self, alloc: Global, code: &Code, ty: u32) -> bool
        requires within { ty < length code.now.types }
        requires some { 0 < length self.old.operands }
        ensures value { DoesIf result (weighs_and_acts code.now (instr.Convert ty)) self.old self.new }
    {
        let Ty::Str = code.types.get(ty as usize) else {
            return false;
        };
        let Some(octets) = self.operands.top_octets() else {
            return false;
        };
        let weight = text_weight(octets);
        if weight > self.left {
            return false;
        }
        let Some(made) = text_cell(alloc, &self.operands, octets) else {
            return false;
        };
        self.left -= weight;
        self.operands.put_on_top(made);
        true
    }
}

// What a text of these bytes weighs.
#[inline(always)]
fn text_weight(octets: &[u8]) -> u64
    ensures value { result ≡ weight_of (str octets.now) }
{
    (octets.len() as u64).saturating_add(1)
}

// The cell of the text that the topmost bytes are, if they are UTF-8 and there is memory. Such in a buffer, all of which are ASCII, lie as a
// text where they do.
#[inline(always)]
fn text_cell<'a>(alloc: Global, operands: &Operands<'a>, octets: &[u8]) -> Option<Cell<'a>>
    requires some { 0 < length operands.now }
    requires same { operands.now ≡ Some (bytes octets.now) ∷ drop 1 operands.now }
    ensures value { IfSome result (λ made. made ≡ Some (str octets.now)) }
    ensures utf8 { IfSome result (λ made. is_utf8 octets.now ≡ true) }
{
    match operands.top_text() {
        Some(made) => Some(made),
        None => text_anew(alloc, octets),
    }
}

// The same in memory of its own.
#[inline(always)]
#[tactic(auto, using(crate::proofs::TextLemmas::is_text))]
fn text_anew<'a>(alloc: Global, octets: &[u8]) -> Option<Cell<'a>>
    ensures value { IfSome result (λ made. made ≡ Some (str octets.now)) }
    ensures utf8 { IfSome result (λ made. is_utf8 octets.now ≡ true) }
{
    let Ok(read) = simdutf8::basic::from_utf8(octets) else {
        return None;
    };
    let Ok(text) = Text::new(alloc, read) else {
        return None;
    };
    match Cell::of_value(alloc, Value::Str(text)) {
        Ok(cell) => Some(cell),
        Err(_) => None,
    }
}
