//! The words by which the parts of a file are known.
ghost use Rattle.std.specs.Prelude.{◌≡◌};
ghost use Rattle.sz_protofile.specs.Keywords.{keyword_text};

/// A word by which a part of a file is known. Each of them may be a name as well.
#[derive(Clone, Copy, Debug, PartialEq, Eq)]
pub enum Keyword {
    Syntax,
    Package,
    Import,
    Public,
    Weak,
    Option,
    Message,
    Enum,
    Service,
    Extend,
    Reserved,
    Extensions,
    Oneof,
    Group,
    Map,
    Optional,
    Required,
    Repeated,
}

impl Keyword {
    /// How the word is spelled.
    pub fn text(self) -> &'static [u8]
        ensures value { result.now ≡ keyword_text self }
    {
        match self {
            Keyword::Syntax => b"syntax",
            Keyword::Package => b"package",
            Keyword::Import => b"import",
            Keyword::Public => b"public",
            Keyword::Weak => b"weak",
            Keyword::Option => b"option",
            Keyword::Message => b"message",
            Keyword::Enum => b"enum",
            Keyword::Service => b"service",
            Keyword::Extend => b"extend",
            Keyword::Reserved => b"reserved",
            Keyword::Extensions => b"extensions",
            Keyword::Oneof => b"oneof",
            Keyword::Group => b"group",
            Keyword::Map => b"map",
            Keyword::Optional => b"optional",
            Keyword::Required => b"required",
            Keyword::Repeated => b"repeated",
        }
    }
}
