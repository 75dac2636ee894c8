// The words that begin lines.
ghost use Rattle.std.specs.Prelude.{◌≡◌};
ghost use Rattle.pyr_bundletext.specs.Text.{operator_word};
ghost use Rattle.pyr_bundletext.specs.Reading.{keyword_text, keyword_of};

use pyr_num::Bin;

/// The first word of a line, of which numbers alone follow.
#[derive(Clone, Copy)]
pub enum Keyword {
    Pyrros,
    Processors,
    Task,
    Reads,
    Writes,
    Push,
    Load,
    Store,
    Frame,
    Get,
    Put,
    Bin(Bin),
    Sel,
    Loop,
    Done,
    End,
    Print,
    Channel,
    Processor,
    Recv,
    Exec,
    Send,
    Stop,
}

// The most frequent ones stand first.
const KEYWORDS: [Keyword; 36] = [
    Keyword::Push,
    Keyword::Load,
    Keyword::Store,
    Keyword::Frame,
    Keyword::Get,
    Keyword::Put,
    Keyword::Bin(Bin::Add),
    Keyword::Bin(Bin::Sub),
    Keyword::Bin(Bin::Mul),
    Keyword::Bin(Bin::Div),
    Keyword::Bin(Bin::Rem),
    Keyword::Bin(Bin::And),
    Keyword::Bin(Bin::Or),
    Keyword::Bin(Bin::Xor),
    Keyword::Bin(Bin::Shl),
    Keyword::Bin(Bin::Shr),
    Keyword::Bin(Bin::Min),
    Keyword::Bin(Bin::Max),
    Keyword::Bin(Bin::Eq),
    Keyword::Bin(Bin::Lt),
    Keyword::Sel,
    Keyword::Loop,
    Keyword::Done,
    Keyword::Recv,
    Keyword::Exec,
    Keyword::Send,
    Keyword::Task,
    Keyword::Reads,
    Keyword::Writes,
    Keyword::End,
    Keyword::Print,
    Keyword::Channel,
    Keyword::Processor,
    Keyword::Processors,
    Keyword::Pyrros,
    Keyword::Stop,
];

/// The word of an operator.
pub fn operator_word(operator: Bin) -> &'static [u8]
    ensures { result.now ≡ operator_word operator }
{
    match operator {
        Bin::Add => b"add",
        Bin::Sub => b"sub",
        Bin::Mul => b"mul",
        Bin::Div => b"div",
        Bin::Rem => b"rem",
        Bin::And => b"and",
        Bin::Or => b"or",
        Bin::Xor => b"xor",
        Bin::Shl => b"shl",
        Bin::Shr => b"shr",
        Bin::Min => b"min",
        Bin::Max => b"max",
        Bin::Eq => b"eq",
        Bin::Lt => b"lt",
    }
}

impl Keyword {
    /// The keyword with this text, and `None` exactly where there is none.
    pub fn from_text(text: &[u8]) -> Option<Keyword>
        ensures { result ≡ keyword_of text.now }
    {
        KEYWORDS
            .iter()
            .copied()
            .find(|keyword| keyword.text() == text)
    }

    /// The keyword as it is written.
    pub fn text(self) -> &'static [u8]
        ensures { result.now ≡ keyword_text self }
    {
        match self {
            Keyword::Pyrros => b"pyrros",
            Keyword::Processors => b"processors",
            Keyword::Task => b"task",
            Keyword::Reads => b"reads",
            Keyword::Writes => b"writes",
            Keyword::Push => b"push",
            Keyword::Load => b"load",
            Keyword::Store => b"store",
            Keyword::Frame => b"frame",
            Keyword::Get => b"get",
            Keyword::Put => b"put",
            Keyword::Bin(operator) => operator_word(operator),
            Keyword::Sel => b"sel",
            Keyword::Loop => b"loop",
            Keyword::Done => b"done",
            Keyword::End => b"end",
            Keyword::Print => b"print",
            Keyword::Channel => b"channel",
            Keyword::Processor => b"processor",
            Keyword::Recv => b"recv",
            Keyword::Exec => b"exec",
            Keyword::Send => b"send",
            Keyword::Stop => b"stop",
        }
    }
}
