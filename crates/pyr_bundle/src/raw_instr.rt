ghost use Rattle.std.specs.Prelude.{◌≡◌};
ghost use Rattle.pyr_bundle.specs.Tables.{received, executed, sent};

/// An instruction as it is handed in.
#[derive(Clone, Copy, PartialEq, Eq)]
pub enum RawInstr {
    /// Waits for a datum from a processor.
    Recv { from: u64, datum: u64 },
    /// Executes a task.
    Exec { task: u64 },
    /// Sends a datum to a processor.
    Send { to: u64, datum: u64 },
}

impl RawInstr {
    /// The datum that is received.
    pub(crate) fn received(self) -> Option<u64>
        ensures { result ≡ received self }
    {
        match self {
            RawInstr::Recv { datum, .. } => Some(datum),
            RawInstr::Exec { .. } | RawInstr::Send { .. } => None,
        }
    }

    /// The task that is executed.
    pub(crate) fn executed(self) -> Option<u64>
        ensures { result ≡ executed self }
    {
        match self {
            RawInstr::Exec { task } => Some(task),
            RawInstr::Recv { .. } | RawInstr::Send { .. } => None,
        }
    }

    /// The destination and the datum of a send.
    pub(crate) fn sent(self) -> Option<(u64, u64)>
        ensures { result ≡ sent self }
    {
        match self {
            RawInstr::Send { to, datum } => Some((to, datum)),
            RawInstr::Recv { .. } | RawInstr::Exec { .. } => None,
        }
    }
}
