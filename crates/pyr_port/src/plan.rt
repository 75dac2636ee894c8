// How an object in memory answers its calls.
ghost use Rattle.std.specs.Prelude.{◌≡◌, ◌-◌, ◌+◌, ◌^◌, ◌≤◌, min};
ghost use Rattle.pyr_port.specs.Plans.{is_planned, next_call};

/// How a source or a sink in memory answers its calls.
#[derive(Drop)]
pub struct CallPlan {
    /// The most bytes that one call moves, at least 1.
    pub most: usize,
    /// The numbers of the calls, from 1, that are to fail.
    pub fail: Vec<u32>,
    ghost some: { 1 ≤ most },
}

impl CallPlan {
    // Whether the call of this number is to fail.
    pub(crate) fn fails(&self, number: u64) -> bool
        ensures { result ≡ is_planned self.now.fail.items number }
    {
        self.fail
            .iter()
            .any(|planned| u64::from(*planned) == number)
    }
}

// The number of the call after so many.
pub(crate) fn next_call(calls: u64) -> u64
    ensures { result ≡ next_call calls }
{
    calls.saturating_add(1)
}
