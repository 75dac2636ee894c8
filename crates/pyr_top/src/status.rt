// The statuses of the program.
ghost use Rattle.std.specs.Prelude.{◌≡◌};
ghost use Rattle.pyr_top.specs.Status.{code_of};

/// How a call of the program ends.
#[derive(Clone, Copy, Debug, PartialEq, Eq)]
pub enum Status {
    /// The whole output was written.
    Ok,
    /// The words are no command.
    Usage,
    /// The source failed.
    Source,
    /// The sink failed.
    Sink,
    /// Memory ran out.
    Memory,
    /// The input isn't a text of the command's form.
    Text,
    /// A limit was passed.
    Limit,
    /// A name or a task is missing, or stands twice.
    Names,
    /// The tasks wait for one another in a cycle.
    Cycle,
    /// A bundle breaks a law.
    Law,
    /// A bundle comes to a state in which no processor can go on.
    Stuck,
    /// A bundle leaves a parcel behind.
    Leftover,
}

impl Status {
    /// The number with which the program exits: 0 where all went well, else 2 to 12.
    pub fn code(self) -> u8
        ensures { result ≡ code_of self }
    {
        match self {
            Status::Ok => 0,
            Status::Usage => 2,
            Status::Source => 3,
            Status::Sink => 4,
            Status::Memory => 5,
            Status::Text => 6,
            Status::Limit => 7,
            Status::Names => 8,
            Status::Cycle => 9,
            Status::Law => 10,
            Status::Stuck => 11,
            Status::Leftover => 12,
        }
    }
}
