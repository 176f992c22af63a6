//! Compiled programs.
ghost use Rattle.std.specs.Prelude.{◌≡◌, IfOk};
ghost use Rattle.sz_mean.specs.Marked.{marked, all_tables};
ghost use Rattle.sz_gen_rules.specs.Compiled.{IsCompiled};

use crate::program::gen_program;
use std::alloc::Global;
use std::marker::Model;
use std::snapshot::Snapshot;
use sz_core::Program;
use sz_gen_rules::code_of_a_sound_program_is_compiled;
use sz_instr::Code;
use sz_types::TableDecls;
use sz_value::NoMemory;

/// The code of a program, which does what the program means, as `IsCompiled` of `sz_gen_rules` says.
///
/// At run time there is the code alone, with the declarations of the tables. Contracts see the program, and whether it is ignoring.
pub struct Compiled {
    code: Code,
    program: Snapshot<Program>,
    ignore: Snapshot<bool>,
}

impl Drop for Compiled {
    fn drop(self) {
        let Compiled {
            code: _,
            program: _,
            ignore: _,
        } = self;
    }
}

impl Model for Compiled {
    ghost use Rattle.sz_mean.specs.Marked.{Marked, marked};
    ghost use Rattle.sz_gen_stmt.specs.MarkedCode.{marked_code};
    ghost use Rattle.sz_gen_rules.specs.Compiled.{IsCompiled};

    ghost Value = { Marked };

    ghost coded = { marked_code };

    ghost view = { λ c. marked c.program.value c.ignore.value };

    ghost invariant = { λ c. IsCompiled (marked c.program.value c.ignore.value) c.code };
}

impl Compiled {
    /// The code.
    pub fn code(&self) -> &Code
        ensures value { IsCompiled self.now result.now }
    {
        &self.code
    }

    /// The declarations of the tables, in order, and that of the table of lines last, where the program is ignoring.
    pub fn tables(&self) -> &TableDecls
        ensures value { result.now ≡ all_tables self.now }
    {
        &self.code.tables
    }
}

/// The code of a program, which is to be an ignoring one or not. That it is the program compiled is a law of its definition.
pub fn compile(alloc: Global, program: Program, ignore: bool) -> Result<Compiled, NoMemory>
    ensures value { IfOk result (λ compiled. compiled ≡ marked program ignore) }
{
    let code = gen_program(alloc, &program, ignore)?;
    code_of_a_sound_program_is_compiled();
    Ok(Compiled {
        code,
        program: Snapshot::of(&program),
        ignore: Snapshot::of(&ignore),
    })
}
