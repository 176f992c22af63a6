//! The `.proto` file of a command line: its types, or why it is refused.
ghost use Rattle.std.specs.Prelude.{◌≡◌, ◌<◌, ◌≤◌, [], length, IfOk, IfSome, OnOk, slice_index_or};
ghost use Rattle.sz_io.specs.Rose.{Rose};
ghost use Rattle.sz_io.specs.Opened.{KeepsFiles};
ghost use Rattle.sz_io.specs.Calls.{NamesGain, OpensOne, ReadToEnd};
ghost use Rattle.sz_protofile_types.specs.Sound.{AreSound};
ghost use Rattle.szl.specs.Opening.{ReadsText, ran_out, status_of_answer};
ghost use Rattle.szl.specs.Promise.{IfRead};
ghost use Rattle.szl.specs.ProgramRuns.{vec_items_of};
ghost use Rattle.sz_protofile_types.specs.Readings.{with_types};
ghost use Rattle.szl.specs.ProtoFiles.{most_file_bytes, file_texts, bad_file_line, IsFileRead, IsOfFile};
ghost use Rattle.szl.specs.ProtoReads.{past_file, HaveTypeBytes, TellsTypes, ReadsTypes, GivesTypes, types_of};

use crate::failure::Failure;
use crate::heights::Stack;
use crate::opening::read_text;
use std::alloc::{AllocError, Global};
use sz_io::Files;
use sz_protofile::Fault as FileFault;
use sz_protofile_types::{
    NamedTypes, ProtoError, field_names_are_names, file_types_are_sound, read_proto,
};
use sz_refusals::{FIRST_PLACE, push_name, push_place};
use sz_types::Text;

/// The most bytes of the file.
const MOST_FILE_BYTES: usize = 1_048_576;

/// The number of the refusal of a file with more bytes.
const TOO_LONG: u8 = 1;

/// A `.proto` file: its bytes and its types.
#[derive(Drop)]
pub struct TypesFile {
    pub bytes: Vec<u8>,
    pub types: NamedTypes,
}

/// The failure for a file with more bytes.
fn too_long() -> Failure
    ensures value { result ≡ past_file }
{
    Failure::BadProtoFile(FileFault {
        number: TOO_LONG,
        place: FIRST_PLACE,
        name: None,
    })
}

/// The types of the file of these bytes, which have different names and are well formed.
fn types_in(alloc: Global, bytes: &[u8]) -> Result<NamedTypes, Failure>
    requires { length bytes.now ≤ most_file_bytes }
    ensures value { TellsTypes bytes.now ⊥ result }
    ensures sound { IfOk result (λ types. AreSound types) }
    ensures named { IfOk result (λ types. HaveTypeBytes types) }
{
    file_types_are_sound();
    field_names_are_names();
    match read_proto(alloc, bytes) {
        Ok(types) => Ok(types),
        Err(
            ProtoError::Refused {
                number,
                place,
                name,
            },
        ) => Err(Failure::BadProtoFile(FileFault {
            number,
            place,
            name,
        })),
        Err(ProtoError::NoMemory) => Err(Failure::NoMemory),
    }
}

/// The bytes of the file under a name.
fn read_file<F: Files>(alloc: Global, name: &str, files: &mut F) -> Result<Vec<u8>, Failure>
    requires few { length (F.names files.old) < 128 }
    ensures text { ReadsText (F.held files.old name.now) most_file_bytes past_file
        (Rose (F.faults files.old) (F.faults files.new)) (vec_items_of result) }
    ensures names { NamesGain (ran_out (vec_items_of result)) (F.names files.old) (F.names files.new) name.now }
    ensures opened { IfRead (status_of_answer (vec_items_of result)) (OpensOne F.Files files.old files.new) }
    ensures end { OnOk result (ReadToEnd F.Files files.old files.new name.now) }
    ensures kept { KeepsFiles F.held F.left F.given F.faults files.old files.new }
{
    read_text(alloc, files, name, MOST_FILE_BYTES, too_long())
}

/// The types of these bytes. Where the stack isn't enough for them, that counts as want of memory.
fn types_held(alloc: Global, bytes: &[u8], stack: Stack) -> Result<NamedTypes, Failure>
    requires { length bytes.now ≤ most_file_bytes }
    ensures value { TellsTypes bytes.now ⊥ result }
    ensures sound { IfOk result (λ types. AreSound types) }
    ensures named { IfOk result (λ types. HaveTypeBytes types) }
{
    let types = types_in(alloc, bytes)?;
    if stack.holds_types(types.as_slice()) {
        Ok(types)
    } else {
        Err(Failure::NoMemory)
    }
}

/// The bytes of the file under a name, and their types.
fn file_with_types<F: Files>(
    alloc: Global,
    name: &str,
    files: &mut F,
    stack: Stack,
) -> Result<TypesFile, Failure>
    requires few { length (F.names files.old) < 128 }
    ensures value { ReadsTypes F.Files name.now files.old files.new (types_of result) }
    ensures held { IfOk result (λ file. IfSome (F.held files.old name.now) (λ told. told ≡ file.bytes.items)) }
    ensures read { IfOk result (λ file. IsFileRead file.bytes.items (with_types file.types)) }
    ensures sound { IfOk result (λ file. AreSound file.types) }
    ensures named { IfOk result (λ file. HaveTypeBytes file.types) }
    ensures end { OnOk result (ReadToEnd F.Files files.old files.new name.now) }
    ensures kept { KeepsFiles F.held F.left F.given F.faults files.old files.new }
{
    let bytes = read_file(alloc, name, files)?;
    let types = types_held(alloc, &bytes, stack)?;
    Ok(TypesFile { bytes, types })
}

/// The bytes of the file of this name and their types; without a name no bytes and no types.
pub fn file_named<F: Files>(
    alloc: Global,
    name: &Option<Text>,
    files: &mut F,
    stack: Stack,
) -> Result<TypesFile, Failure>
    requires few { length (F.names files.old) < 128 }
    ensures value { GivesTypes F.Files name.now files.old files.new (types_of result) }
    ensures held { IfOk result (λ file. IsOfFile name.now (F.held files.old) file.bytes.items) }
    ensures read { IfOk result (λ file. IsFileRead file.bytes.items (with_types file.types)) }
    ensures sound { IfOk result (λ file. AreSound file.types) }
    ensures named { IfOk result (λ file. HaveTypeBytes file.types) }
    ensures end { OnOk result (IfSome name.now (λ name. ReadToEnd F.Files files.old files.new name)) }
    ensures kept { KeepsFiles F.held F.left F.given F.faults files.old files.new }
{
    match name {
        Some(name) => file_with_types(alloc, name.as_str(), files, stack),
        None => Ok(no_file(alloc)),
    }
}

/// Without a name: no bytes and no types.
fn no_file(alloc: Global) -> TypesFile
    ensures bytes { result.bytes.items ≡ [] }
    ensures types { result.types ≡ [] }
{
    TypesFile {
        bytes: Vec::new(alloc),
        types: NamedTypes::new(alloc),
    }
}

/// The types of the file of this name, if there is one, and else none.
pub fn types_named<F: Files>(
    alloc: Global,
    name: &Option<Text>,
    files: &mut F,
    stack: Stack,
) -> Result<NamedTypes, Failure>
    requires few { length (F.names files.old) < 128 }
    ensures value { GivesTypes F.Files name.now files.old files.new result }
    ensures sound { IfOk result (λ types. AreSound types) }
    ensures named { IfOk result (λ types. HaveTypeBytes types) }
    ensures end { OnOk result (IfSome name.now (λ name. ReadToEnd F.Files files.old files.new name)) }
    ensures kept { KeepsFiles F.held F.left F.given F.faults files.old files.new }
{
    let TypesFile { bytes: _, types } = file_named(alloc, name, files, stack)?;
    Ok(types)
}

/// The text of a refusal, by its number.
fn file_text(number: u8) -> &'static str
    ensures value { result.now ≡ slice_index_or file_texts number [] }
{
    match number {
        TOO_LONG => "too long",
        2 => "syntax",
        3 => "declared twice",
        4 => "bad field number",
        5 => "unknown type",
        6 => "too many fields",
        _ => "",
    }
}

/// The line of a file that is refused, with its newline.
pub fn bad_file_line(alloc: Global, fault: &FileFault) -> Result<Vec<u8>, AllocError>
    ensures value { IfOk result (λ line. line.items ≡ bad_file_line fault.now) }
{
    let mut line = Vec::new(alloc);
    line.extend_from_slice(b"proto file: ")?;
    line.extend_from_slice(file_text(fault.number).as_bytes())?;
    push_name(&mut line, &fault.name)?;
    line.extend_from_slice(b" at ")?;
    push_place(&mut line, fault.place)?;
    line.push(b'\n')?;
    Ok(line)
}
