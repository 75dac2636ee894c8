// A law over the definitions alone. It takes nothing, does nothing and answers nothing.

ghost use Rattle.pyr_emit.specs.Meaning.{EmissionsKeepTheMeaning};

/// The bundle of a plan means what its program means, whoever made it: its tasks can run one by one
/// in the same orders, and give each datum the same value in every frame.
pub fn emissions_keep_the_meaning()
    ensures { EmissionsKeepTheMeaning }
{}
