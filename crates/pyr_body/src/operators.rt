// The tokens of the operators.
ghost use Rattle.std.specs.Prelude.{◌≡◌};
ghost use Rattle.pyr_body.specs.Operator.{operator_token, token_operator, symbol_operator};

use pyr_lex::{Symbol, Token, Word};
use pyr_num::Bin;

/// The operator that a token stands for.
pub fn token_operator(token: Token) -> Option<Bin>
    ensures { result ≡ token_operator token }
{
    match token {
        Token::Symbol(symbol) => symbol_operator(symbol),
        Token::Word(Word::Min) => Some(Bin::Min),
        Token::Word(Word::Max) => Some(Bin::Max),
        _ => None,
    }
}

fn symbol_operator(symbol: Symbol) -> Option<Bin>
    ensures { result ≡ symbol_operator symbol }
{
    match symbol {
        Symbol::Plus => Some(Bin::Add),
        Symbol::Minus => Some(Bin::Sub),
        Symbol::Star => Some(Bin::Mul),
        Symbol::Slash => Some(Bin::Div),
        Symbol::Percent => Some(Bin::Rem),
        Symbol::Amp => Some(Bin::And),
        Symbol::Bar => Some(Bin::Or),
        Symbol::Caret => Some(Bin::Xor),
        Symbol::ShiftLeft => Some(Bin::Shl),
        Symbol::ShiftRight => Some(Bin::Shr),
        Symbol::EqualEqual => Some(Bin::Eq),
        Symbol::Less => Some(Bin::Lt),
        _ => None,
    }
}

/// The token of an operator.
pub fn operator_token(operator: Bin) -> Token
    ensures { result ≡ operator_token operator }
{
    match operator {
        Bin::Add => Token::Symbol(Symbol::Plus),
        Bin::Sub => Token::Symbol(Symbol::Minus),
        Bin::Mul => Token::Symbol(Symbol::Star),
        Bin::Div => Token::Symbol(Symbol::Slash),
        Bin::Rem => Token::Symbol(Symbol::Percent),
        Bin::And => Token::Symbol(Symbol::Amp),
        Bin::Or => Token::Symbol(Symbol::Bar),
        Bin::Xor => Token::Symbol(Symbol::Caret),
        Bin::Shl => Token::Symbol(Symbol::ShiftLeft),
        Bin::Shr => Token::Symbol(Symbol::ShiftRight),
        Bin::Min => Token::Word(Word::Min),
        Bin::Max => Token::Word(Word::Max),
        Bin::Eq => Token::Symbol(Symbol::EqualEqual),
        Bin::Lt => Token::Symbol(Symbol::Less),
    }
}
