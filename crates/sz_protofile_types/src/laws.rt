//! What holds of the types of each file.
ghost use Rattle.std.specs.Prelude.{ℕ, List};
ghost use Rattle.sz_protofile.specs.Types.{TypeShape, HasTypes};
ghost use Rattle.sz_protofile_types.specs.Sound.{AreSound};
ghost use Rattle.sz_protofile_types.specs.Named.{FieldsHaveNames};
ghost use Rattle.sz_protofile_types.specs.Readings.{EveryFileIsRead, HasOneReading};

/// The types of a `.proto` file have different names, and each is a well formed proto type: at every level the names and the numbers of its
/// fields differ, the numbers are within bounds, the types are such as messages can hold, and each takes its encoding.
pub fn file_types_are_sound()
    ensures value { (bytes : List ℕ) (types : List TypeShape) → HasTypes bytes types → AreSound types }
{}

/// A file has just one reading: its types, or what it is refused for.
pub fn readings_are_unique()
    ensures some { EveryFileIsRead }
    ensures one { HasOneReading }
{}

/// The fields of a file's types have names that a program can have, at every level.
pub fn field_names_are_names()
    ensures value { FieldsHaveNames }
{}
