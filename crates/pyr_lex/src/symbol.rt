// Brackets, operators and signs.
ghost use Rattle.std.specs.Prelude.{◌≡◌};
ghost use Rattle.pyr_lex.specs.Symbol.{symbol_text, front_symbol};

/// A token that is neither a name nor a number nor a reserved word.
#[derive(Clone, Copy, Debug, PartialEq, Eq)]
pub enum Symbol {
    /// `(`
    ParenOpen,
    /// `)`
    ParenClose,
    /// `[`
    BracketOpen,
    /// `]`
    BracketClose,
    /// `+`
    Plus,
    /// `-`
    Minus,
    /// `*`
    Star,
    /// `/`
    Slash,
    /// `%`
    Percent,
    /// `&`
    Amp,
    /// `|`
    Bar,
    /// `^`
    Caret,
    /// `<<`
    ShiftLeft,
    /// `>>`
    ShiftRight,
    /// `<`
    Less,
    /// `==`
    EqualEqual,
    /// `=`
    Equal,
    /// `?`
    Question,
    /// `:`
    Colon,
}

impl Symbol {
    /// The longest symbol that the bytes begin with, and `None` exactly where they begin with none.
    pub(crate) fn at_front(bytes: &[u8]) -> Option<Symbol>
        ensures { result ≡ front_symbol bytes.now }
    {
        match bytes {
            [b'(', ..] => Some(Symbol::ParenOpen),
            [b')', ..] => Some(Symbol::ParenClose),
            [b'[', ..] => Some(Symbol::BracketOpen),
            [b']', ..] => Some(Symbol::BracketClose),
            [b'+', ..] => Some(Symbol::Plus),
            [b'-', ..] => Some(Symbol::Minus),
            [b'*', ..] => Some(Symbol::Star),
            [b'/', ..] => Some(Symbol::Slash),
            [b'%', ..] => Some(Symbol::Percent),
            [b'&', ..] => Some(Symbol::Amp),
            [b'|', ..] => Some(Symbol::Bar),
            [b'^', ..] => Some(Symbol::Caret),
            [b'<', b'<', ..] => Some(Symbol::ShiftLeft),
            [b'>', b'>', ..] => Some(Symbol::ShiftRight),
            [b'<', ..] => Some(Symbol::Less),
            [b'=', b'=', ..] => Some(Symbol::EqualEqual),
            [b'=', ..] => Some(Symbol::Equal),
            [b'?', ..] => Some(Symbol::Question),
            [b':', ..] => Some(Symbol::Colon),
            _ => None,
        }
    }

    /// The symbol as it is written.
    pub fn text(self) -> &'static [u8]
        ensures { result.now ≡ symbol_text self }
    {
        match self {
            Symbol::ParenOpen => b"(",
            Symbol::ParenClose => b")",
            Symbol::BracketOpen => b"[",
            Symbol::BracketClose => b"]",
            Symbol::Plus => b"+",
            Symbol::Minus => b"-",
            Symbol::Star => b"*",
            Symbol::Slash => b"/",
            Symbol::Percent => b"%",
            Symbol::Amp => b"&",
            Symbol::Bar => b"|",
            Symbol::Caret => b"^",
            Symbol::ShiftLeft => b"<<",
            Symbol::ShiftRight => b">>",
            Symbol::Less => b"<",
            Symbol::EqualEqual => b"==",
            Symbol::Equal => b"=",
            Symbol::Question => b"?",
            Symbol::Colon => b":",
        }
    }
}
