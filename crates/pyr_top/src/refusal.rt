// Why a command isn't answered.
ghost use Rattle.std.specs.Prelude.{◌≡◌, IfSome, IfNone};
ghost use Rattle.pyr_top.specs.Refusals.{status_of, line_of, refusal_of, refusal_by, refusal_to_load, IsMade};
ghost use Rattle.pyr_top.specs.declared.refusal.Refusal.TheVariants.{Memory as MemoryRefusal};

use crate::Status;
use pyr_graphtext::ProgramFault;
use pyr_loader::LoadFault;
use pyr_port::ReadFault;
use std::alloc::AllocError;

/// Why a command isn't answered.
#[derive(Drop)]
pub enum Refusal {
    /// The words are no command.
    Usage,
    /// The source failed.
    Source,
    /// The sink failed.
    Sink,
    /// Memory ran out.
    Memory,
    /// The input is longer than its limit.
    TooLong,
    /// The input is a graph text that stands for no program.
    Program(ProgramFault),
    /// The input is no text of a bundle that can be run.
    Load(LoadFault),
}

impl Refusal {
    /// The status that the call ends with.
    pub fn status(&self) -> Status
        ensures { result ≡ status_of self.now }
    {
        match self {
            Refusal::Usage => Status::Usage,
            Refusal::Source => Status::Source,
            Refusal::Sink => Status::Sink,
            Refusal::Memory => Status::Memory,
            Refusal::TooLong => Status::Limit,
            Refusal::Program(fault) => match fault {
                ProgramFault::BadText { .. } => Status::Text,
                ProgramFault::Limit { .. } => Status::Limit,
                ProgramFault::Names { .. } | ProgramFault::NoTask | ProgramFault::NoWriter { .. } =>
                    Status::Names,
                ProgramFault::Cycle { .. } => Status::Cycle,
                ProgramFault::Memory => Status::Memory,
            },
            Refusal::Load(fault) => match fault {
                LoadFault::BadText { .. } => Status::Text,
                LoadFault::Limit { .. } => Status::Limit,
                LoadFault::Law { .. } => Status::Law,
                LoadFault::Stuck { .. } => Status::Stuck,
                LoadFault::Leftover { .. } => Status::Leftover,
                LoadFault::Memory => Status::Memory,
            },
        }
    }

    /// The line that tells the cause, with its line feed, where that line is always the same.
    pub fn fixed_line(&self) -> Option<&'static [u8]>
        ensures some { IfSome result (λ line. line.now ≡ line_of self.now) }
        ensures fixed { IfNone result (IsMade self.now) }
    {
        match self {
            Refusal::Usage => Some(b"usage\n"),
            Refusal::Source => Some(b"source failed\n"),
            Refusal::Sink => Some(b"sink failed\n"),
            Refusal::Memory => Some(b"no memory\n"),
            Refusal::TooLong => Some(b"limit input\n"),
            Refusal::Program(_) | Refusal::Load(_) => None,
        }
    }
}

impl From<ReadFault> for Refusal {
    ghost from_gives = { λ fault refusal. refusal ≡ refusal_of fault };

    fn from(fault: ReadFault) -> Self {
        match fault {
            ReadFault::SourceFault => Refusal::Source,
            ReadFault::TooLong => Refusal::TooLong,
            ReadFault::Memory => Refusal::Memory,
        }
    }
}

impl From<ProgramFault> for Refusal {
    ghost from_gives = { λ fault refusal. refusal ≡ refusal_by fault };

    fn from(fault: ProgramFault) -> Self {
        match fault {
            ProgramFault::Memory => Refusal::Memory,
            fault => Refusal::Program(fault),
        }
    }
}

impl From<LoadFault> for Refusal {
    ghost from_gives = { λ fault refusal. refusal ≡ refusal_to_load fault };

    fn from(fault: LoadFault) -> Self {
        match fault {
            LoadFault::Memory => Refusal::Memory,
            fault => Refusal::Load(fault),
        }
    }
}

impl From<AllocError> for Refusal {
    ghost from_gives = { λ _ refusal. refusal ≡ MemoryRefusal };

    fn from(_: AllocError) -> Self {
        Refusal::Memory
    }
}
