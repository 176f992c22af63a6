//! The laws.
ghost use Rattle.std.specs.Prelude.{◌≡◌, [], ◌∷◌};
ghost use Rattle.sz_core.specs.Programs.{core_of};
ghost use Rattle.sz_core.specs.Sound.{IsSound};
ghost use Rattle.sz_instr.specs.declared.code.Code.{Code};
ghost use Rattle.sz_instr.specs.declared.instr.Instr.TheVariants.{EndRecord};
ghost use Rattle.sz_mean.specs.Marked.{Marked};
ghost use Rattle.sz_gen_rules.specs.Tables.{Tables};
ghost use Rattle.sz_gen_rules.specs.ExpressionCode.{expression_code};
ghost use Rattle.sz_gen_rules.specs.Runs.{CodeDoesWhatIsMeant};
ghost use Rattle.sz_gen_rules.specs.Example.{example, example_tables, example_code};
ghost use Rattle.sz_gen_rules.specs.FreeLines.{free};
ghost use Rattle.sz_gen_rules.specs.ProgramCode.{IsCodeOf, record_code};
ghost use Rattle.sz_gen_rules.specs.Compiled.{IsCompiled};

/// The code of the example in `specs/Example.antt` of `sz_gen_rules`, from line 5 on, is that which is written out there.
pub fn the_example_has_its_code()
    ensures value { expression_code example_tables example 5 ≡ example_code }
{}

/// The code of an expression does what the expression means, with the same ticks, on every state where what it sees is there.
#[tactic(auto, using(crate::proofs::Forward::code_does_what_is_meant))]
pub fn the_code_does_what_is_meant()
    ensures runs { CodeDoesWhatIsMeant }
{}

/// The code of a record that nothing is done for is the end of the run alone.
pub fn an_empty_program_has_code()
    ensures value { (tables : Tables) → record_code tables (core_of [] []) 0 ≡ free EndRecord ∷ [] }
{}

/// The code of a sound program is the program compiled: it simulates the program, and it is well formed.
pub fn code_of_a_sound_program_is_compiled()
    ensures value { (program : Marked) (code : Code) → IsSound program.core → IsCodeOf program code → IsCompiled program code }
{}
