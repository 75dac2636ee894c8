// What is left of the weight of an edge along a path.

ghost use Rattle.std.specs.Prelude.{◌≡◌, ℕ, ◌<◌, length};
ghost use Rattle.pyr_levels.specs.Levels.{whole, between_processors};

use pyr_graph::Placement;
use pyr_num::TaskId;

/// How much of the weight of an edge counts along a path.
pub trait Weighing {
    /// Whether it can tell of this task.
    ghost knows: { Self → ℕ → Type 0 };

    /// What is left of a weight from one task to another.
    ghost left: { Self → ℕ → ℕ → ℕ → ℕ };

    /// What is left of a weight from one task to another, in abstract time units.
    fn weigh(&self, from: TaskId, to: TaskId, weight: u64) -> u64
        requires from { knows self.now from.0 }
        requires to { knows self.now to.0 }
        ensures { result ≡ left self.now from.0 to.0 weight };
}

/// Every weight counts whole.
pub(crate) struct Whole;

impl Weighing for Whole {
    ghost knows = { λ w t. Unit {0} };

    ghost left = { λ w. whole };

    fn weigh(&self, _from: TaskId, _to: TaskId, weight: u64) -> u64 {
        weight
    }
}

/// The weights between processors count, and nothing inside one.
impl Weighing for Placement {
    ghost knows = { λ placement t. t < length placement.of };

    ghost left = { between_processors };

    fn weigh(&self, from: TaskId, to: TaskId, weight: u64) -> u64 {
        let processors = self.of.as_slice();
        if processors[from.0 as usize].0 == processors[to.0 as usize].0 {
            0
        } else {
            weight
        }
    }
}
