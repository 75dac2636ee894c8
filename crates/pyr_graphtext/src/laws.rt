// Laws over the definitions alone. A law takes nothing, does nothing and answers nothing.

ghost use Rattle.pyr_graphtext.specs.Answer.{OneAnswerIsTold};
ghost use Rattle.pyr_graphtext.specs.Sequential.{AnyOrderGivesTheValues};

/// Any two topological orders of a program's graph give each datum the same value.
pub fn any_order_gives_the_values()
    ensures { AnyOrderGivesTheValues }
{}

/// One text stands for one program at most, has one fault at most, and not both, want of memory
/// apart: so what `read_program` says of its answers says exactly when each of them comes.
pub fn one_answer_is_told()
    ensures { OneAnswerIsTold }
{}
