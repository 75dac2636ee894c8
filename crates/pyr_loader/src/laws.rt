//! Laws over the definitions alone. A law takes nothing, does nothing and answers nothing.

ghost use Rattle.pyr_loader.specs.Laws.{OneAnswerIsTold, GoodBundlesAreSafe};
ghost use Rattle.pyr_loader.specs.Stops.{ReasonsAreTrue};

/// One text has one loaded bundle at most, has one refusal at most, and not both, want of memory
/// apart: so what `load` says of its answers says exactly when each of them comes.
pub fn one_answer_is_told()
    ensures { OneAnswerIsTold }
{}

/// Every bundle of which a complete run exists is safe: in every interleaving of its processors'
/// steps and in every frame, each unfinished state that is reached has an enabled step, no run is
/// longer than the complete one, no channel passes its capacity, and the outputs of the finished
/// state are those of the tasks run one by one in any topological order.
pub fn loaded_bundles_are_safe()
    ensures { GoodBundlesAreSafe }
{}

/// Where no processor can make a step, each stands as its stop says: at its code's end, at a receive
/// whose channel is empty, at a send whose channel is full, or where a datum isn't in its store.
pub fn reasons_are_true()
    ensures { ReasonsAreTrue }
{}
