//! Instructions.

use crate::step::Steps;
use sz_types::{BinOp, Builtin, UnOp};

/// An instruction of the machine, which works on a stack of slots. A slot is a value, or undefined.
///
/// All numbers count from 0. A place is that of a line in its code. A local is one of the routine that runs, and constants,
/// statics, types, functions and tables are those of the code. What is pushed is undefined where an operand or a part was
/// undefined, or where the operation has no result. Candidate lists belong to the routine that runs, the innermost first.
///
/// Where the code names a table that counts lines, an undefined value that is used is no fault of a run: the line of the
/// program's text is emitted to that table. So is the line of an emit that has an undefined part.
pub enum Instr {
    /// Pushes the constant.
    Push(u32),
    /// Pushes a copy of the local.
    Local(u32),
    /// Pushes a copy of the static.
    Static(u32),
    /// Pushes the bytes of the record.
    Input,
    /// Pops a slot into the local, undefined too.
    Keep(u32),
    /// Pops a slot into the static, undefined too.
    KeepStatic(u32),
    /// Makes the local undefined.
    Clear(u32),
    /// Pops a value, and then an index or key for each such step of the path, the last one first, and puts the value into the
    /// local, or where the path leads in it. Where one of them is undefined, nothing is put anywhere: that is a fault, unless lines
    /// are counted. A path that leads outside is a fault.
    Store(u32, Steps),
    /// Pops the operand and pushes what the operator makes of it.
    Unary(UnOp),
    /// Pops the right operand and then the left one, and pushes what the operator makes of them.
    Binary(BinOp),
    /// Pops the arguments, the last one first, and pushes what the function makes of them.
    Apply(Builtin),
    /// Pops a slot and pushes it converted to the type, which is no proto type.
    Convert(u32),
    /// Pops bytes and pushes the message that they are by the type, which is a proto type.
    Decode(u32),
    /// Pops this many elements, the last one first, and pushes the array of them.
    MakeArray(u32),
    /// Pops this many parts, the last one first, and pushes the tuple of them.
    MakeTuple(u32),
    /// Pops this many pairs, the last one first and of each the value before its key, and pushes the map of them.
    MakeMap(u32),
    /// Pops an index or a key, then what it leads into, and pushes the element.
    Index,
    /// Pops the end and then the beginning of a part, then what it is a part of, and pushes the part.
    Slice,
    /// Pops a tuple or a message and pushes its part at this place.
    Field(u32),
    /// Pops a slot and pushes whether it was defined.
    Def,
    /// Does nothing: the line has its charge alone.
    Tick,
    /// Goes to the place.
    Jump(usize),
    /// Pops a slot and goes to the first place where it is false. An undefined one is a fault; where lines are counted, the run
    /// goes to the second place.
    Test(usize, usize),
    /// Goes to the place where the slot on top is false or undefined, and leaves it; else pops it.
    AndTest(usize),
    /// Goes to the place where the slot on top is true or undefined, and leaves it; else pops it.
    OrTest(usize),
    /// Pops the arguments, the last one first, and enters the function, with locals of its own. Where an argument is undefined
    /// it pushes undefined instead. A call while 128 are open is a fault.
    Call(u32),
    /// Pops a slot, leaves the function with its candidate lists, and pushes the slot for the routine that called it.
    Return,
    /// Ends the run.
    EndRecord,
    /// Pops a slot. An undefined one is a fault, unless lines are counted.
    Discard,
    /// Of a table, how many indexes there are, and whether there is a weight: pops the weight if there is one, the value, and
    /// the indexes, the last one first, and emits them to the table if all are defined.
    Emit(u32, u32, bool),
    /// Pops a base and adds the list of its candidates: the bounds of its slices if this is true, else its indexes or keys.
    Enter(bool),
    /// Takes the next candidate of the innermost list into the local. Where none is left it drops the list, without the charge
    /// of its line, and goes to the place.
    Next(u32, usize),
    /// Drops the innermost candidate list.
    Leave,
    /// Pops a slot, and goes to the place unless it is true.
    Meets(usize),
    /// Pops a slot, and goes to the place where it is false.
    Fails(usize),
}

impl Drop for Instr {
    fn drop(self) {
        match self {
            Instr::Push(_)
            | Instr::Local(_)
            | Instr::Static(_)
            | Instr::Input
            | Instr::Keep(_)
            | Instr::KeepStatic(_)
            | Instr::Clear(_)
            | Instr::Store(_, _)
            | Instr::Unary(_)
            | Instr::Binary(_)
            | Instr::Apply(_)
            | Instr::Convert(_)
            | Instr::Decode(_)
            | Instr::MakeArray(_)
            | Instr::MakeTuple(_)
            | Instr::MakeMap(_)
            | Instr::Index
            | Instr::Slice
            | Instr::Field(_)
            | Instr::Def
            | Instr::Tick
            | Instr::Jump(_)
            | Instr::Test(_, _)
            | Instr::AndTest(_)
            | Instr::OrTest(_)
            | Instr::Call(_)
            | Instr::Return
            | Instr::EndRecord
            | Instr::Discard
            | Instr::Emit(_, _, _)
            | Instr::Enter(_)
            | Instr::Next(_, _)
            | Instr::Leave
            | Instr::Meets(_)
            | Instr::Fails(_) => {}
        }
    }
}
