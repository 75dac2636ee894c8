// The rule of the generated graph: weights, and which tasks stand before a task.
ghost use Rattle.std.specs.Prelude.{◌≡◌, ◌-◌, ◌*◌, ◌≤◌, ◌<◌, ◌↔◌, IsTrue};
ghost use Rattle.pyr_make.specs.Layered.{layer_of, layered_task, layered_datum, first_predecessor, second_predecessor};

use pyr_num::Limits;

/// The number of tasks of a layer; the last one may have fewer.
pub const LAYER: u32 = 64;

/// The computation weight of a task, in abstract time units, from 1 to 97.
pub fn cost_of(task: u32) -> u32
    requires { task ≤ Limits.TASKS }
    ensures { result ≡ (layered_task task).cost }
{
    1 + (37 * task) % 97
}

/// The communication weight of a datum, in abstract time units, at most 60.
pub fn comm_of(datum: u32) -> u32
    requires { datum ≤ Limits.TASKS }
    ensures { result ≡ (layered_datum datum).comm }
{
    (53 * datum) % 61
}

/// Whether a task stands in the first layer, where tasks read nothing.
pub fn is_first_layer(task: u32) -> bool
    ensures { IsTrue result ↔ (task < 64) }
{
    task < LAYER
}

/// The task of the same column in the layer before.
pub fn first_predecessor(task: u32) -> u32
    requires { 64 ≤ task }
    ensures { result ≡ first_predecessor task }
{
    task - LAYER
}

/// The other predecessor: a task of the layer before, whose column goes by the layer and the column
/// of this one.
pub fn second_predecessor(task: u32) -> u32
    requires behind { 64 ≤ task }
    requires few { task ≤ Limits.TASKS }
    ensures { result ≡ second_predecessor task }
{
    let layer = task / LAYER;
    let column = task % LAYER;
    LAYER * (layer - 1) + (5 * column + layer) % LAYER
}

/// The first task of the last layer, where there are so many tasks.
pub fn last_layer(tasks: u32) -> u32
    requires { 0 < tasks }
    ensures { result ≡ 64 * layer_of (tasks - 1) }
{
    LAYER * ((tasks - 1) / LAYER)
}
