// Where a line stands.
ghost use Rattle.std.specs.Prelude.{◌≡◌};
ghost use Rattle.pyr_graphtext.specs.Faults as spec;

/// Which lines of a task have come.
#[derive(Clone, Copy)]
pub enum Stage {
    /// No task is open.
    Outside,
    /// The line `task` came last.
    AfterTask,
    /// The line `reads` came last.
    AfterReads,
    /// The lines of the body follow.
    InBody,
}

impl Stage {
    /// Whether lines outside tasks may stand here.
    pub fn is_outside(self) -> bool
        ensures { result ≡ spec.is_outside self }
    {
        matches!(self, Stage::Outside)
    }

    /// Whether a line `reads` may stand here.
    pub fn may_read(self) -> bool
        ensures { result ≡ spec.may_read self }
    {
        matches!(self, Stage::AfterTask)
    }

    /// Whether a line `writes` may stand here.
    pub fn may_write(self) -> bool
        ensures { result ≡ spec.may_write self }
    {
        matches!(self, Stage::AfterTask | Stage::AfterReads)
    }
}
