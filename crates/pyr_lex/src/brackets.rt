// How deep the brackets of a line are.
ghost use Rattle.std.specs.Prelude.{◌≡◌, ◌+◌, ◌<◌, ◌^◌, length};
ghost use Rattle.pyr_lex.specs.Token.{tokens_in};
ghost use Rattle.pyr_lex.specs.Depth.{count_after, depth_of};

use crate::{SpannedToken, Symbol, Token};

// The counter of open brackets behind a token.
fn count_after(token: Token, count: u32) -> u32
    requires { count + 1 < 2 ^ 32 }
    ensures { result ≡ count_after token count }
{
    match token {
        Token::Symbol(Symbol::ParenOpen | Symbol::BracketOpen) => count + 1,
        Token::Symbol(Symbol::ParenClose | Symbol::BracketClose) => count.saturating_sub(1),
        _ => count,
    }
}

/// How many brackets are open at once, at most: the greatest value of a counter, 0 before the first
/// token, that `(` and `[` raise by one and `)` and `]` lower by one, but never below 0. It takes
/// no memory.
pub fn depth(tokens: &[SpannedToken]) -> u32
    requires { length tokens.now < 2 ^ 32 }
    ensures { result ≡ depth_of (tokens_in tokens.now) }
{
    let mut count = 0;
    let mut deepest: u32 = 0;
    for spanned in tokens {
        count = count_after(spanned.token, count);
        deepest = deepest.max(count);
    }
    deepest
}
