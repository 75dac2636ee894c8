// Laws over the definitions alone. A law takes nothing, does nothing and answers nothing.

ghost use Rattle.pyr_graph.specs.Laws.{SmallestFirstIsTopological, OrderedGraphsHaveNoCycle};
ghost use Rattle.pyr_graph.specs.Laws.{OneFaultIsTold};

/// An order of all tasks that always takes the smallest task whose predecessors are all out holds
/// each task once and has each task before its successors.
pub fn smallest_first_is_topological()
    ensures { SmallestFirstIsTopological }
{}

/// Where the tasks have a topological order, the edges have no cycle, of whatever length.
pub fn graphs_have_no_cycle()
    ensures { OrderedGraphsHaveNoCycle }
{}

/// Of one system one fault is told at most, want of memory apart, and none where the system is
/// sound: so what `Graph::build` says of its answers says exactly when each of them comes.
pub fn one_fault_is_told()
    ensures { OneFaultIsTold }
{}
