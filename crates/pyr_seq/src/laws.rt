//! Laws over the definitions alone. A law takes nothing, does nothing and answers nothing.

ghost use Rattle.pyr_seq.specs.Laws.{OrderedRelationsHaveNoCycle, OrderedTasksHaveNoCycle};
ghost use Rattle.pyr_seq.specs.Laws.{AnyOrderGivesTheValues, ValuesSolveEachTask, ValuesHaveLengths};

/// A relation with a topological order has no cycle, of whatever length.
pub fn ordered_relations_have_no_cycle()
    ensures { OrderedRelationsHaveNoCycle }
{}

/// Tasks with a topological order have no cycle of edges, of whatever length.
pub fn ordered_tasks_have_no_cycle()
    ensures { OrderedTasksHaveNoCycle }
{}

/// Where no two tasks write one datum, any two topological orders give the same values.
pub fn any_order_gives_the_values()
    ensures { AnyOrderGivesTheValues }
{}

/// Where no two tasks write one datum, the values that a topological order leaves solve the
/// equation of each task: what it writes there is what it makes of what it reads there.
pub fn values_solve_each_task()
    ensures { ValuesSolveEachTask }
{}

/// Where no two tasks write one datum, each datum that is written ends up with as many words as its
/// length says.
pub fn values_have_lengths()
    ensures { ValuesHaveLengths }
{}
