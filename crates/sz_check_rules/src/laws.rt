//! The laws.
ghost use Rattle.std.specs.Prelude.{◌≡◌, ◌↔◌, IsTrue, List, Some, Ok, [], map};
ghost use Rattle.sz_types.specs.Data.{Shape};
ghost use Rattle.sz_types.specs.Rows.{binary_row, index_row, haskey_row, strfind_row};
ghost use Rattle.sz_types.specs.declared.operator.BinOp.{BinOp};
ghost use Rattle.sz_tree.specs.Statements.{Stm, Stms};
ghost use Rattle.sz_core.specs.Programs.{Core, core_of};
ghost use Rattle.sz_core.specs.WellFormed.{are_well_formed, are_distinct_texts};
ghost use Rattle.sz_core.specs.Example.{small_items};
ghost use Rattle.sz_core.specs.Sound.{IsSound};
ghost use Rattle.sz_check_rules.specs.Agreeing.{is_map, is_searched_for};
ghost use Rattle.sz_check_rules.specs.JudgingParts.{has_index};
ghost use Rattle.sz_check_rules.specs.JudgingOperators.{takes_left};
ghost use Rattle.sz_check_rules.specs.JudgingPrograms.{judge_program};
ghost use Rattle.sz_check_rules.specs.Example.{small_tree};
ghost use Rattle.sz_check_rules.specs.JudgingWithTypes.{NamedShape, judge_program_with};
ghost use Rattle.sz_check_rules.specs.TypeStatements.{DeclareTypes, DeclaresNone, written_first};

/// The checked program that a tree is judged to be is sound, whatever the tree.
pub fn judged_programs_are_sound()
    ensures value { (tree : Stms) (program : Core) → judge_program tree ≡ Ok program → IsSound program }
    // So it is where well formed types are known round it.
    ensures with_types { (types : List NamedShape) → IsTrue (are_well_formed (map (λ (t : NamedShape). t.1) types)) → (tree : Stms) (program : Core)
        → judge_program_with types tree ≡ Ok program → IsSound program }
{}

/// Types that are known round a program may be declared by it instead: where it declares none of their names at its top level, it is judged as
/// with statements in front that declare them, each type written out. So the two have one checked program, or one refusal.
pub fn types_may_be_written_first()
    ensures value { (types : List NamedShape) (statements : List Stm) (program : Stms) → DeclareTypes statements types
        → IsTrue (are_well_formed (map (λ (t : NamedShape). t.1) types)) → IsTrue (are_distinct_texts (map (λ (t : NamedShape). t.0) types))
        → DeclaresNone (map (λ (t : NamedShape). t.0) types) program → judge_program_with types program ≡ judge_program (written_first statements program) }
    // No types leave the judgement as it is.
    ensures no_types { (program : Stms) → judge_program_with [] program ≡ judge_program program }
{}

/// The tree of a small program is judged to be just that program.
pub fn a_small_program_is_judged()
    ensures value { judge_program small_tree ≡ Ok (core_of small_items []) }
{}

/// Which of two operands is blamed is decided by the table of types alone: a left type is taken exactly where it has a row
/// with some right type. So it is with what is indexed, and with the first argument of a predeclared function of two.
pub fn first_types_are_those_of_the_rows()
    ensures operators { (o : BinOp) (s : Shape) → IsTrue (takes_left o s) ↔ ((t u : Shape) × (binary_row o s t ≡ Some u)) }
    ensures indexes { (s : Shape) → IsTrue (has_index s) ↔ ((t u : Shape) × (index_row s t ≡ Some u)) }
    ensures maps { (s : Shape) → IsTrue (is_map s) ↔ ((t u : Shape) × (haskey_row s t ≡ Some u)) }
    ensures texts { (s : Shape) → IsTrue (is_searched_for s) ↔ ((t u : Shape) × (strfind_row s t ≡ Some u)) }
{}
