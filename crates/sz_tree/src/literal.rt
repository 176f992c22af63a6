//! Literals.
use sz_types::Text;

/// A literal, by its value: of a string the text that it stands for, of a character its code point.
#[derive(Debug)]
pub enum Literal {
    Number(i64),
    Str(Text),
    Bytes(Vec<u8>),
    Character(char),
    Bool(bool),
}

impl Drop for Literal {
    fn drop(self) {
        match self {
            Literal::Number(_)
            | Literal::Str(_)
            | Literal::Bytes(_)
            | Literal::Character(_)
            | Literal::Bool(_) => {}
        }
    }
}
