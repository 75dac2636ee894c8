// A place among the tokens of a line.
ghost use Rattle.std.specs.Prelude.{◌≡◌, ◌≤◌, [], ◌∷◌, List, length, drop, MatchOption, MatchBool};
ghost use Rattle.pyr_lex.specs.declared.token.Token.{Token};
ghost use Rattle.pyr_lex.specs.Token.{tokens_in};
ghost use Rattle.pyr_body.specs.Spelling.{bracket_open, IsNotOpened};

use pyr_lex::{SpannedToken, Symbol, Token};
use std::marker::Model;

/// The tokens of a line that are still to come.
#[derive(Drop)]
pub struct Cursor<'a> {
    tokens: &'a [SpannedToken],
    at: usize,
}

impl<'a> Model for Cursor<'a> {
    ghost Value = { List Token };

    ghost view = { λ c. tokens_in (drop c.at c.tokens.now) };

    ghost invariant = { λ c. c.at ≤ length c.tokens.now };
}

impl<'a> Cursor<'a> {
    /// All of these tokens.
    pub fn new(tokens: &'a [SpannedToken]) -> Cursor<'a>
        ensures { result ≡ tokens_in tokens.now }
    {
        Cursor { tokens, at: 0 }
    }

    /// Takes the next token.
    pub fn next(&mut self) -> Option<Token>
        ensures { MatchOption result ((self.old ≡ []) × (self.new ≡ []))
            (λ t. self.old ≡ t ∷ self.new) }
    {
        let spanned = self.tokens.get(self.at)?;
        self.at += 1;
        Some(spanned.token)
    }

    /// Takes the next token where it is `[`.
    pub fn take_bracket(&mut self) -> bool
        ensures { MatchBool result (self.old ≡ bracket_open ∷ self.new)
            ((self.new ≡ self.old) × IsNotOpened self.old) }
    {
        let Some(spanned) = self.tokens.get(self.at) else {
            return false;
        };
        match spanned.token {
            Token::Symbol(Symbol::BracketOpen) => {
                self.at += 1;
                true
            }
            _ => false,
        }
    }
}
