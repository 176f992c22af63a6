//! Laws of the definitions, each a function that does nothing and whose contract is the law.
ghost use Rattle.std.specs.Prelude.{◌≡◌, ℕ, All, IsTrue, nat_lt, slice_get, Some};
ghost use Rattle.std.specs.List.{list_any};
ghost use Rattle.sz_instr.specs.declared.instr.Instr.TheVariants.{Local};
ghost use Rattle.sz_instr.specs.declared.line.Line.{Line};
ghost use Rattle.sz_instr.specs.declared.code.Code.{Code};
ghost use Rattle.sz_instr.specs.WellFormed.{routines_of, is_in_range, is_routine, is_well_formed};
ghost use Rattle.sz_instr.specs.Example.{example};

/// There is well-formed code: `example` of `specs/Example.antt`.
pub fn the_example_is_well_formed()
    ensures value { IsTrue (is_well_formed example) }
{}

/// In well-formed code the instruction at each place is in range, and all routines are routines in it.
pub fn well_formed_code_is_in_range()
    ensures lines { (code : Code) (at : ℕ) (line : Line) → IsTrue (is_well_formed code)
        → slice_get code.lines at ≡ Some line → IsTrue (is_in_range code line.instr) }
    ensures routines { (code : Code) → IsTrue (is_well_formed code)
        → All (λ r. IsTrue (is_routine code r)) (routines_of code) }
{}

/// A local is in range exactly where some routine of the code has it.
pub fn a_local_in_range_is_one_of_a_routine()
    ensures value { (code : Code) (n : ℕ)
        → is_in_range code (Local n) ≡ list_any (λ r. nat_lt n r.locals) (routines_of code) }
{}
