//! Files with which nothing is wrong.
ghost use Rattle.std.specs.Prelude.{◌≡◌, ◌≤◌, List, length, IfOk, IfErr, MatchResult};
ghost use Rattle.sz_protofile.specs.declared.line.Line.{Line as Part};
ghost use Rattle.sz_protofile.specs.declared.fault.Fault.{Fault as Wrong};
ghost use Rattle.sz_protofile.specs.Types.{IsSound, IsFaulty};
ghost use Rattle.sz_protofile_names.specs.declared.error.ProtoError.TheVariants.{NoMemory as no_memory};
ghost use Rattle.sz_protofile_names.specs.Outcome.{OrNoMemory, file_refusal};

use crate::error::ProtoError;
use crate::fault::file_fault;
use std::alloc::Global;
use sz_protofile::{FileError, Line, lines};

// The refusal of a file that has no lines.
fn refused(error: FileError) -> ProtoError
    ensures value { result ≡ file_refusal error }
{
    match error {
        FileError::Syntax(place) => ProtoError::Refused {
            number: 2,
            place,
            name: None,
        },
        FileError::NoMemory => ProtoError::NoMemory,
    }
}

/// The lines of a `.proto` file of at most 1,048,576 bytes with which nothing is wrong.
///
/// The numbers of its refusals, of which the first counts: 2, where the file isn't in the grammar; 3, where a message, an enum or a
/// field has a name that is there before; 4, where a field's number is out of range or there before; 5, where a word for a type means
/// nothing.
pub fn sound_lines(alloc: Global, bytes: &[u8]) -> Result<Vec<Line>, ProtoError>
    requires { length bytes.now ≤ 1048576 }
    // What is found are the lines of the file, and nothing is wrong with it.
    ensures found { IfOk result (λ v. IsSound bytes.now v.items) }
    // These are found, unless memory runs out.
    ensures only_found { (all : List Part) → IsSound bytes.now all → MatchResult result (λ v. v.items ≡ all) (λ e. e ≡ no_memory) }

    // A refusal is the file's, unless memory ran out.
    ensures refused { IfErr result (λ e. OrNoMemory e (IsFaulty bytes.now)) }
    // What the file is refused for is the answer, unless memory runs out.
    ensures only_refused { (f : Wrong) → IsFaulty bytes.now f → MatchResult result (λ _. ⊥) (λ e. OrNoMemory e (λ g. g ≡ f)) }
{
    match lines(alloc, bytes) {
        Ok(all) => match file_fault(alloc, bytes, all.as_slice())? {
            Some(fault) => Err(ProtoError::from(fault)),
            None => Ok(all),
        },
        Err(error) => Err(refused(error)),
    }
}
