// The laws of tokens, for the crates above. A law is a function with no code, whose contract is it.
ghost use Rattle.pyr_lex.specs.Laws.{ReadingIsUnique, ReadingIsExact};
ghost use Rattle.pyr_lex.specs.Laws.{WrittenIsRead, WordsAreReserved};

/// A line has one list of tokens at most, and no other places for them.
pub fn reading_is_unique()
    ensures { ReadingIsUnique }
{}

/// What is computed of a line is its tokens.
pub fn reading_is_exact()
    ensures { ReadingIsExact }
{}

/// The words are those that no name is.
pub fn words_are_reserved()
    ensures { WordsAreReserved }
{}

/// Tokens that are written out with one space between each two, or with the spacing of canonical
/// texts, are read again.
pub fn written_is_read()
    ensures { WrittenIsRead }
{}
