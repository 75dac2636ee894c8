//! The lexer: the tokens of a line of a graph text, with the place of each, or the answer that the
//! line has none; how many of its brackets are open at once; and tokens written out as canonical
//! text. What a line's tokens are stands in `specs/Line.antt`, and that this decides them is a law.
#![tactic(auto)]

mod brackets;
mod laws;
mod lex_fault;
mod lexer;
mod line_writing;
mod spanned_token;
mod symbol;
mod token;
mod word;

pub use brackets::depth;
pub use laws::{reading_is_exact, reading_is_unique, words_are_reserved, written_is_read};
pub use lex_fault::LexFault;
pub use lexer::tokens;
pub use line_writing::write_line;
pub use spanned_token::SpannedToken;
pub use symbol::Symbol;
pub use token::Token;
pub use word::Word;
