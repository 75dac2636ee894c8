// The lines of durations.
use pyr_num::Name;

/// What a line of durations says.
#[derive(Clone, Copy)]
pub enum DurationLine {
    /// Nothing: it has no token.
    Blank,
    /// The time of the task of this name.
    Time(Name, u64),
    /// The delay of the datum of this name.
    Delay(Name, u64),
}
