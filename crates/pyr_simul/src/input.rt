// The two parts of an input.
ghost use Rattle.std.specs.Prelude.{◌≡◌, ◌+◌, ◌≤◌, length};
ghost use Rattle.pyr_simul.specs.Input.{graph_text, later_text, later_line};

use pyr_graphtext::first_line;
use pyr_num::Limits;

/// An input in two parts, as they stand in it.
#[derive(Clone, Copy)]
pub struct InputParts<'a> {
    /// The graph text: what stands before the first line whose bytes are exactly `durations`, or the
    /// whole input where there is no such line.
    pub graph: &'a [u8],
    /// The lines behind that line.
    pub later: &'a [u8],
    /// The number of the first of these in the whole input.
    pub line: u32,
}

/// Cuts an input at its first line `durations`. It takes no memory.
pub fn cut_input(input: &[u8]) -> InputParts<'_>
    requires { length input.now ≤ Limits.INPUT }
    ensures graph { result.graph.now ≡ graph_text input.now }
    ensures later { result.later.now ≡ later_text input.now }
    ensures line { result.line ≡ later_line input.now }
    // the conditions of `read_program` and of `read_durations`
    ensures graph_fits { length result.graph.now ≤ Limits.INPUT }
    ensures later_fits { length result.later.now ≤ Limits.INPUT }
    ensures line_fits { result.line ≤ Limits.INPUT + 2 }
{
    let mut rest = input;
    let mut number = 1u32;
    while !rest.is_empty() {
        let (line, behind) = first_line(rest);
        if line == b"durations".as_slice() {
            return InputParts {
                graph: &input[..input.len() - rest.len()],
                later: behind,
                line: number + 1,
            };
        }
        rest = behind;
        number += 1;
    }
    InputParts {
        graph: input,
        later: &[],
        line: number + 1,
    }
}
