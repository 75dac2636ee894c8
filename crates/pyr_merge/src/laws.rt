// A law over the definitions alone. It takes nothing, does nothing and answers nothing.

ghost use Rattle.pyr_merge.specs.Laws.{OnePlacement};

/// A clustering in which every task stands in one cluster has one placement on a number of
/// processors.
pub fn a_clustering_has_one_placement()
    ensures { OnePlacement }
{}
