// A law over the definitions alone. It takes nothing, does nothing and answers nothing.

ghost use Rattle.pyr_size.specs.Sizes.{SizedCompletes};

/// A complete run that follows a schedule is one too where each channel holds no more than the
/// greatest number of parcels that it has in it along this run.
pub fn sized_completes()
    ensures { SizedCompletes }
{}
