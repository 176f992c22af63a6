//! Laws of the definitions, each a function that does nothing and whose contract is the law.
ghost use Rattle.sz_proto.specs.Laws.{HaveTheirType};

/// The value that bytes are by a type has this type, whatever the type and the bytes.
pub fn what_is_decoded_has_its_type()
    ensures typed { HaveTheirType }
{}
