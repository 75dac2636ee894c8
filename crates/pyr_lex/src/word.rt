// The reserved words.
ghost use Rattle.std.specs.Prelude.{◌≡◌};
ghost use Rattle.pyr_lex.specs.Word.{word_text, word_of};

/// A word with a meaning of its own, which therefore is no name.
#[derive(Clone, Copy, Debug, PartialEq, Eq)]
pub enum Word {
    /// `data`
    Data,
    /// `task`
    Task,
    /// `reads`
    Reads,
    /// `writes`
    Writes,
    /// `set`
    Set,
    /// `put`
    Put,
    /// `for`
    For,
    /// `done`
    Done,
    /// `end`
    End,
    /// `print`
    Print,
    /// `frame`
    Frame,
    /// `min`
    Min,
    /// `max`
    Max,
}

const WORDS: [Word; 13] = [
    Word::Data,
    Word::Task,
    Word::Reads,
    Word::Writes,
    Word::Set,
    Word::Put,
    Word::For,
    Word::Done,
    Word::End,
    Word::Print,
    Word::Frame,
    Word::Min,
    Word::Max,
];

impl Word {
    /// The reserved word with this text, and `None` exactly where there is none.
    pub fn from_text(text: &[u8]) -> Option<Word>
        ensures { result ≡ word_of text.now }
    {
        WORDS.iter().copied().find(|word| word.text() == text)
    }

    /// The word as it is written.
    pub fn text(self) -> &'static [u8]
        ensures { result.now ≡ word_text self }
    {
        match self {
            Word::Data => b"data",
            Word::Task => b"task",
            Word::Reads => b"reads",
            Word::Writes => b"writes",
            Word::Set => b"set",
            Word::Put => b"put",
            Word::For => b"for",
            Word::Done => b"done",
            Word::End => b"end",
            Word::Print => b"print",
            Word::Frame => b"frame",
            Word::Min => b"min",
            Word::Max => b"max",
        }
    }
}
