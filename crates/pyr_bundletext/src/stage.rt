// Where a line stands.
ghost use Rattle.std.specs.Prelude.{◌≡◌};
ghost use Rattle.pyr_bundletext.specs.Faults as spec;

/// What came last.
#[derive(Clone, Copy)]
pub enum Stage {
    /// No line.
    Start,
    /// The first line.
    Versioned,
    /// The number of processors, or a datum.
    Data,
    /// The begin of a task.
    TaskBegun,
    /// What a task reads.
    TaskReads,
    /// What a task writes, or a line of its code.
    Code,
    /// The end of a task.
    Tasks,
    /// A printed datum.
    Prints,
    /// A channel.
    Channels,
    /// The begin of a processor's instructions, or one of them.
    Processor,
    /// The last line.
    Stopped,
}

impl Stage {
    pub fn is_start(self) -> bool
        ensures { result ≡ spec.is_start self }
    {
        matches!(self, Stage::Start)
    }

    pub fn is_versioned(self) -> bool
        ensures { result ≡ spec.is_versioned self }
    {
        matches!(self, Stage::Versioned)
    }

    pub fn is_data(self) -> bool
        ensures { result ≡ spec.is_data self }
    {
        matches!(self, Stage::Data)
    }

    pub fn is_task_begun(self) -> bool
        ensures { result ≡ spec.is_task_begun self }
    {
        matches!(self, Stage::TaskBegun)
    }

    pub fn is_task_reads(self) -> bool
        ensures { result ≡ spec.is_task_reads self }
    {
        matches!(self, Stage::TaskReads)
    }

    pub fn is_code(self) -> bool
        ensures { result ≡ spec.is_code self }
    {
        matches!(self, Stage::Code)
    }

    pub fn is_processor(self) -> bool
        ensures { result ≡ spec.is_processor self }
    {
        matches!(self, Stage::Processor)
    }

    pub fn is_stopped(self) -> bool
        ensures { result ≡ spec.is_stopped self }
    {
        matches!(self, Stage::Stopped)
    }

    /// Whether a task may begin here.
    pub fn has_tasks(self) -> bool
        ensures { result ≡ spec.has_tasks self }
    {
        matches!(self, Stage::Data | Stage::Tasks)
    }

    /// Whether a printed datum may stand here.
    pub fn has_prints(self) -> bool
        ensures { result ≡ spec.has_prints self }
    {
        matches!(self, Stage::Data | Stage::Tasks | Stage::Prints)
    }

    /// Whether a channel may stand here.
    pub fn has_channels(self) -> bool
        ensures { result ≡ spec.has_channels self }
    {
        matches!(
            self,
            Stage::Data | Stage::Tasks | Stage::Prints | Stage::Channels
        )
    }

    /// Whether a processor may begin here.
    pub fn has_processors(self) -> bool
        ensures { result ≡ spec.has_processors self }
    {
        matches!(
            self,
            Stage::Data | Stage::Tasks | Stage::Prints | Stage::Channels | Stage::Processor
        )
    }
}
