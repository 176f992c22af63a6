//! The signs.
ghost use Rattle.std.specs.Prelude.{◌≡◌};
ghost use Rattle.sz_lex.specs.Signs.{sign_text};
ghost use Rattle.sz_lex.specs.Lookup.{pair_sign, single_sign, sign_at};

/// An operator or a mark of punctuation.
#[derive(Clone, Copy, Debug, PartialEq, Eq)]
pub enum Sign {
    Arrow,
    LessEqual,
    ShiftLeft,
    Less,
    GreaterEqual,
    ShiftRight,
    Greater,
    EqualEqual,
    Assign,
    NotEqual,
    Not,
    AndAnd,
    And,
    OrOr,
    Or,
    Increment,
    Plus,
    Decrement,
    Minus,
    Define,
    Colon,
    Star,
    Slash,
    Percent,
    Caret,
    Tilde,
    OpenParen,
    CloseParen,
    OpenBracket,
    CloseBracket,
    OpenBrace,
    CloseBrace,
    Comma,
    Semicolon,
    Dot,
    At,
}

impl Sign {
    /// How the sign is spelled.
    pub fn text(self) -> &'static [u8]
        ensures value { result.now ≡ sign_text self }
    {
        match self {
            Sign::Arrow => b"<-",
            Sign::LessEqual => b"<=",
            Sign::ShiftLeft => b"<<",
            Sign::Less => b"<",
            Sign::GreaterEqual => b">=",
            Sign::ShiftRight => b">>",
            Sign::Greater => b">",
            Sign::EqualEqual => b"==",
            Sign::Assign => b"=",
            Sign::NotEqual => b"!=",
            Sign::Not => b"!",
            Sign::AndAnd => b"&&",
            Sign::And => b"&",
            Sign::OrOr => b"||",
            Sign::Or => b"|",
            Sign::Increment => b"++",
            Sign::Plus => b"+",
            Sign::Decrement => b"--",
            Sign::Minus => b"-",
            Sign::Define => b":=",
            Sign::Colon => b":",
            Sign::Star => b"*",
            Sign::Slash => b"/",
            Sign::Percent => b"%",
            Sign::Caret => b"^",
            Sign::Tilde => b"~",
            Sign::OpenParen => b"(",
            Sign::CloseParen => b")",
            Sign::OpenBracket => b"[",
            Sign::CloseBracket => b"]",
            Sign::OpenBrace => b"{",
            Sign::CloseBrace => b"}",
            Sign::Comma => b",",
            Sign::Semicolon => b";",
            Sign::Dot => b".",
            Sign::At => b"@",
        }
    }
}

// The sign that these two bytes spell.
fn pair_sign(first: u8, second: u8) -> Option<Sign>
    ensures { result ≡ pair_sign first second }
{
    match (first, second) {
        (b'<', b'-') => Some(Sign::Arrow),
        (b'<', b'=') => Some(Sign::LessEqual),
        (b'<', b'<') => Some(Sign::ShiftLeft),
        (b'>', b'=') => Some(Sign::GreaterEqual),
        (b'>', b'>') => Some(Sign::ShiftRight),
        (b'=', b'=') => Some(Sign::EqualEqual),
        (b'!', b'=') => Some(Sign::NotEqual),
        (b'&', b'&') => Some(Sign::AndAnd),
        (b'|', b'|') => Some(Sign::OrOr),
        (b'+', b'+') => Some(Sign::Increment),
        (b'-', b'-') => Some(Sign::Decrement),
        (b':', b'=') => Some(Sign::Define),
        _ => None,
    }
}

// The sign that this byte spells.
fn single_sign(byte: u8) -> Option<Sign>
    ensures { result ≡ single_sign byte }
{
    match byte {
        b'<' => Some(Sign::Less),
        b'>' => Some(Sign::Greater),
        b'=' => Some(Sign::Assign),
        b'!' => Some(Sign::Not),
        b'&' => Some(Sign::And),
        b'|' => Some(Sign::Or),
        b'+' => Some(Sign::Plus),
        b'-' => Some(Sign::Minus),
        b':' => Some(Sign::Colon),
        b'*' => Some(Sign::Star),
        b'/' => Some(Sign::Slash),
        b'%' => Some(Sign::Percent),
        b'^' => Some(Sign::Caret),
        b'~' => Some(Sign::Tilde),
        b'(' => Some(Sign::OpenParen),
        b')' => Some(Sign::CloseParen),
        b'[' => Some(Sign::OpenBracket),
        b']' => Some(Sign::CloseBracket),
        b'{' => Some(Sign::OpenBrace),
        b'}' => Some(Sign::CloseBrace),
        b',' => Some(Sign::Comma),
        b';' => Some(Sign::Semicolon),
        b'.' => Some(Sign::Dot),
        b'@' => Some(Sign::At),
        _ => None,
    }
}

// The longest sign at the front of bytes that begin with these two, and its length.
pub fn sign_at(first: u8, second: u8) -> Option<(Sign, usize)>
    ensures { result ≡ sign_at first second }
{
    match pair_sign(first, second) {
        Some(sign) => Some((sign, 2)),
        None => match single_sign(first) {
            Some(sign) => Some((sign, 1)),
            None => None,
        },
    }
}
