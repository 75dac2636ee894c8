// A law over the definitions alone. It takes nothing, does nothing and answers nothing.

ghost use Rattle.pyr_verify.specs.Summary.{OneSummary};

/// For a number of tasks and of processors there is one summary.
pub fn one_summary()
    ensures { OneSummary }
{}
