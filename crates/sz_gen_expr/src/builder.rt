//! Code in the making.
ghost use Rattle.std.specs.Prelude.{◌≡◌, ◌<◌, [], ◌∷◌, ◌++◌, length, IfOk, OnOk, OnErr};
ghost use Rattle.sz_types.specs.Same.{alike};
ghost use Rattle.sz_types.specs.Seen.{seen as shape_of};
ghost use Rattle.sz_value.specs.Seen.{seen};
ghost use Rattle.sz_instr.specs.declared.instr.Instr.TheVariants.{Push};
ghost use Rattle.sz_gen_rules.specs.Tables.{line, constant_number, type_number_in, HasConstant};
ghost use Rattle.sz_gen_rules.specs.ExpressionCode.{changing, conversion};
ghost use Rattle.sz_gen_rules.specs.Named.{HasTarget};
ghost use Rattle.sz_gen_expr.specs.Building.{with_type, with_target, with_past, changed, patched, Lands, LandsPast, AppendsLine, Nothing, StillGoesOn};

use crate::NoMemory;
use crate::constants::Constants;
use crate::width::small;
use std::alloc::Global;
use sz_instr::{Instr, Line, Lines, Routine, Routines};
use sz_types::{Place, Ty, Tys, copy_ty, same};
use sz_value::Value;

/// Code in the making: its lines so far, its routines, and what its lines name by numbers from 0.
///
/// Contracts see the record of these lists, each as they see the list alone.
#[derive(Drop)]
pub struct Builder {
    pub lines: Lines,
    pub functions: Routines,
    pub statics: Routines,
    pub constants: Constants,
    pub types: Tys,
}

impl Builder {
    /// No code, which takes no memory.
    pub fn new(alloc: Global) -> Builder
        ensures lines { result.lines ≡ [] }
        ensures functions { result.functions ≡ [] }
        ensures statics { result.statics ≡ [] }
        ensures constants { result.constants ≡ [] }
        ensures types { result.types ≡ [] }
    {
        Builder {
            lines: Lines::new(alloc),
            functions: Routines::new(alloc),
            statics: Routines::new(alloc),
            constants: Constants::new(alloc),
            types: Tys::new(alloc),
        }
    }

    /// The place of the next line.
    pub fn here(&self) -> usize
        ensures value { result ≡ length self.now.lines }
    {
        self.lines.len()
    }

    /// Appends a line, and gives its place.
    #[tactic(auto, using(crate::proofs::Builds::pushed, crate::proofs::Undone::as_before, crate::proofs::Undone::still_same, crate::proofs::Undone::still_longer))]
    pub fn push(&mut self, instr: Instr, charge: u32, place: Place) -> Result<usize, NoMemory>
        ensures lines { OnOk result (self.new.lines ≡ self.old.lines ++ line instr charge place ∷ []) }
        ensures at { IfOk result (λ at. at ≡ length self.old.lines) }
        ensures made { OnOk result (AppendsLine self.old self.new (λ tables. instr) charge place Nothing) }
        ensures err { OnErr result (self.new ≡ self.old) }
        ensures kept { StillGoesOn self.old self.new }
        ensures functions { self.new.functions ≡ self.old.functions }
        ensures statics { self.new.statics ≡ self.old.statics }
        ensures constants { self.new.constants ≡ self.old.constants }
        ensures types { self.new.types ≡ self.old.types }
    {
        let at = self.lines.len();
        self.lines.push(Line {
            instr,
            charge,
            place,
        })?;
        Ok(at)
    }

    /// Appends a line.
    pub fn append(&mut self, instr: Instr, charge: u32, place: Place) -> Result<(), NoMemory>
        ensures made { OnOk result (AppendsLine self.old self.new (λ tables. instr) charge place Nothing) }
        ensures err { OnErr result (self.new ≡ self.old) }
        ensures kept { StillGoesOn self.old self.new }
    {
        self.push(instr, charge, place)?;
        Ok(())
    }

    /// Gives the line at a place another target. A line without a target stays as it is.
    pub fn patch(&mut self, at: usize, to: usize)
        requires within { at < length self.old.lines }
        ensures lines { self.new.lines ≡ patched self.old.lines at to }
        ensures functions { self.new.functions ≡ self.old.functions }
        ensures statics { self.new.statics ≡ self.old.statics }
        ensures constants { self.new.constants ≡ self.old.constants }
        ensures types { self.new.types ≡ self.old.types }
    {
        let line = self.lines.get(at);
        let (charge, place) = (line.charge, line.place);
        if let Some(instr) = aimed(&line.instr, to) {
            self.lines.set(
                at,
                Line {
                    instr,
                    charge,
                    place,
                },
            );
        }
    }

    /// Appends a line with a tick of its own, which closes the code of what stands at the place.
    pub fn close(&mut self, instr: Instr, place: Place) -> Result<(), NoMemory>
        ensures made { OnOk result (AppendsLine self.old self.new (λ tables. instr) 1 place Nothing) }
        ensures err { OnErr result (self.new ≡ self.old) }
        ensures kept { StillGoesOn self.old self.new }
    {
        self.append(instr, 1, place)
    }

    /// Gives the line at a place the next line as its target.
    pub fn land(&mut self, at: usize)
        requires within { at < length self.old.lines }
        ensures made { Lands self.old self.new at }
    {
        let to = self.here();
        self.patch(at, to);
    }

    /// Gives the test at a place another place for where it is undefined. Another line stays as it is.
    pub fn patch_past(&mut self, at: usize, past: usize)
        requires within { at < length self.old.lines }
        ensures lines { self.new.lines ≡ changed with_past self.old.lines at past }
        ensures functions { self.new.functions ≡ self.old.functions }
        ensures statics { self.new.statics ≡ self.old.statics }
        ensures constants { self.new.constants ≡ self.old.constants }
        ensures types { self.new.types ≡ self.old.types }
    {
        let line = self.lines.get(at);
        let (charge, place) = (line.charge, line.place);
        if let Some(instr) = passing(&line.instr, past) {
            self.lines.set(
                at,
                Line {
                    instr,
                    charge,
                    place,
                },
            );
        }
    }

    /// Gives the test at a place the next line for where it is undefined.
    pub fn land_past(&mut self, at: usize)
        requires within { at < length self.old.lines }
        ensures made { LandsPast self.old self.new at }
    {
        let past = self.here();
        self.patch_past(at, past);
    }

    /// The allocator of the lists.
    pub fn allocator(&self) -> Global {
        self.constants.allocator()
    }

    /// Appends a line that pushes the constant.
    pub fn push_constant(
        &mut self,
        value: &Value,
        charge: u32,
        place: Place,
    ) -> Result<(), NoMemory>
        ensures made { OnOk result (AppendsLine self.old self.new (λ tables. Push
            (constant_number tables (seen value.now))) charge place (λ tables. HasConstant tables (seen value.now))) }
        ensures err { OnErr result (self.new ≡ self.old) }
    {
        let mark = self.mark();
        match self.add_constant(value, charge, place) {
            Ok(()) => Ok(()),
            Err(error) => {
                self.cut(mark);
                Err(error)
            }
        }
    }

    /// The same, but where there is no memory the constant may be left.
    pub(crate) fn add_constant(
        &mut self,
        value: &Value,
        charge: u32,
        place: Place,
    ) -> Result<(), NoMemory>
        ensures made { OnOk result (AppendsLine self.old self.new (λ tables. Push
            (constant_number tables (seen value.now))) charge place (λ tables. HasConstant tables (seen value.now))) }
        ensures kept { StillGoesOn self.old self.new }
    {
        let number = small(self.constants.number(value)?)?;
        self.append(Instr::Push(number), charge, place)
    }

    /// The next line begins a function with so many parameters and locals.
    #[tactic(auto, using(crate::proofs::Undone::as_before))]
    pub fn begin_function(&mut self, params: u32, locals: u32) -> Result<(), NoMemory>
        ensures err { OnErr result (self.new ≡ self.old) }
        ensures functions { OnOk result (self.new.functions
            ≡ self.old.functions ++ record { entry = length self.old.lines; params = params; locals = locals } ∷ []) }
        ensures lines { self.new.lines ≡ self.old.lines }
        ensures statics { self.new.statics ≡ self.old.statics }
        ensures constants { self.new.constants ≡ self.old.constants }
        ensures types { self.new.types ≡ self.old.types }
    {
        let entry = self.lines.len();
        self.functions.push(Routine {
            entry,
            params,
            locals,
        })
    }

    /// The next line begins the code of a static, whose number is given.
    #[tactic(auto, using(crate::proofs::Undone::as_before))]
    pub fn begin_static(&mut self) -> Result<u32, NoMemory>
        ensures number { IfOk result (λ n. n ≡ length self.old.statics) }
        ensures err { OnErr result (self.new ≡ self.old) }
        ensures statics { OnOk result (self.new.statics ≡ self.old.statics ++ record { entry = length self.old.lines; params = 0; locals = 0 } ∷ []) }
        ensures lines { self.new.lines ≡ self.old.lines }
        ensures functions { self.new.functions ≡ self.old.functions }
        ensures constants { self.new.constants ≡ self.old.constants }
        ensures types { self.new.types ≡ self.old.types }
    {
        let number = small(self.statics.len())?;
        let entry = self.lines.len();
        self.statics.push(Routine {
            entry,
            params: 0,
            locals: 0,
        })?;
        Ok(number)
    }

    // The number of the type, which comes to the end where it isn't there yet.
    fn type_number(&mut self, ty: &Ty) -> Result<usize, NoMemory>
        ensures number { IfOk result (λ n. n ≡ type_number_in self.old.types (shape_of ty.now)) }
        ensures kept { OnOk result (self.new.types ≡ with_type self.old.types (shape_of ty.now)) }
        ensures err { OnErr result (self.new.types ≡ self.old.types) }
        ensures constants { self.new.constants ≡ self.old.constants }
        ensures lines { self.new.lines ≡ self.old.lines }
        ensures functions { self.new.functions ≡ self.old.functions }
        ensures statics { self.new.statics ≡ self.old.statics }
    {
        let number = place_of(&self.types, ty);
        if number == self.types.len() {
            self.types.push(copy_ty(self.constants.allocator(), ty)?)?;
        }
        Ok(number)
    }

    /// Appends a line that converts from the one type to the other.
    pub fn convert(&mut self, from: &Ty, to: &Ty, place: Place) -> Result<(), NoMemory>
        ensures made { OnOk result
            (AppendsLine self.old self.new (λ tables. conversion tables (shape_of from.now) (shape_of to.now)) 1 place
            (λ tables. HasTarget tables (alike (shape_of from.now) (shape_of to.now)) (shape_of to.now))) }
        ensures err { OnErr result (self.new ≡ self.old) }
    {
        let mark = self.mark();
        match self.add_conversion(from, to, place) {
            Ok(()) => Ok(()),
            Err(error) => {
                self.cut(mark);
                Err(error)
            }
        }
    }

    /// The same, but where there is no memory the type may be left.
    pub(crate) fn add_conversion(
        &mut self,
        from: &Ty,
        to: &Ty,
        place: Place,
    ) -> Result<(), NoMemory>
        ensures made { OnOk result
            (AppendsLine self.old self.new (λ tables. conversion tables (shape_of from.now) (shape_of to.now)) 1 place
            (λ tables. HasTarget tables (alike (shape_of from.now) (shape_of to.now)) (shape_of to.now))) }
        ensures kept { StillGoesOn self.old self.new }
    {
        if same(from, to) {
            return self.close(Instr::Tick, place);
        }
        let number = small(self.type_number(to)?)?;
        self.close(changing(to, number), place)
    }
}

// The instruction that makes a value of another type one of this type, which has this number.
fn changing(to: &Ty, number: u32) -> Instr
    ensures value { result ≡ changing (shape_of to.now) number }
{
    match to {
        Ty::Proto(_) => Instr::Decode(number),
        Ty::Bool => Instr::Convert(number),
        Ty::Int => Instr::Convert(number),
        Ty::Time => Instr::Convert(number),
        Ty::Str => Instr::Convert(number),
        Ty::Bytes => Instr::Convert(number),
        Ty::Array(_) => Instr::Convert(number),
        Ty::Map(_, _) => Instr::Convert(number),
        Ty::Tuple(_) => Instr::Convert(number),
    }
}

// The place of the type, or the number of types where it isn't there.
fn place_of(types: &Tys, ty: &Ty) -> usize
    ensures value { result ≡ type_number_in types.now (shape_of ty.now) }
{
    for at in 0..types.len() {
        if same(types.get(at), ty) {
            return at;
        }
    }
    types.len()
}

// The instruction with another target, if it has one.
fn aimed(instr: &Instr, to: usize) -> Option<Instr>
    ensures value { result ≡ with_target instr.now to }
{
    match instr {
        Instr::Jump(_) => Some(Instr::Jump(to)),
        Instr::Test(_, past) => Some(Instr::Test(to, *past)),
        Instr::AndTest(_) => Some(Instr::AndTest(to)),
        Instr::OrTest(_) => Some(Instr::OrTest(to)),
        Instr::Next(local, _) => Some(Instr::Next(*local, to)),
        Instr::Meets(_) => Some(Instr::Meets(to)),
        Instr::Fails(_) => Some(Instr::Fails(to)),
        _ => None,
    }
}

// The test with another place for where it is undefined, if it is a test.
fn passing(instr: &Instr, past: usize) -> Option<Instr>
    ensures value { result ≡ with_past instr.now past }
{
    match instr {
        Instr::Test(to, _) => Some(Instr::Test(*to, past)),
        _ => None,
    }
}
