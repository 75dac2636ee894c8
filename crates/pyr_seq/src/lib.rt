//! Definitions and laws of tasks that are run one by one: walks, cycles and topological orders of a
//! relation on tasks, and the values that the tasks of an order leave. There is no code to run:
//! each function is a law, and its contract says it.
#![tactic(auto)]

mod laws;

pub use laws::{
    any_order_gives_the_values, ordered_relations_have_no_cycle, ordered_tasks_have_no_cycle,
    values_have_lengths, values_solve_each_task,
};
