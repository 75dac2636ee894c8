// What holds of the values that processors send and keep. A law takes nothing, does nothing and
// answers nothing.
ghost use Rattle.pyr_proc.specs.Laws.{RoundsSettle, FeedsAreTraffic, EndsHaveValues};

/// The traffic that wires are made for is told without an order of the tasks. It is the traffic
/// that any order tells.
pub fn feeds_are_traffic()
    ensures rounds { RoundsSettle }
    ensures feeds { FeedsAreTraffic }
{}

/// A processor at the end of its local run has in its store, for each datum that a task writes
/// which it executes, the value that any order of the tasks tells. So the outputs of a bundle are in
/// the stores of its processors once each has run.
pub fn ends_have_values()
    ensures { EndsHaveValues }
{}
