// Laws over the definitions alone. A law takes nothing, does nothing and answers nothing.

ghost use Rattle.pyr_bundletext.specs.Answer.{OneAnswerIsTold};

/// One text stands for one bundle at most, has one fault at most, and not both, want of memory
/// apart: so what `read_bundle` says of its answers says exactly when each of them comes.
pub fn one_answer_is_told()
    ensures { OneAnswerIsTold }
{}
