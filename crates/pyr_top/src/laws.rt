//! Laws over the definitions alone. A law takes nothing, does nothing and answers nothing.

ghost use Rattle.pyr_top.specs.Laws.{WordsSpellOneCommand, OneAnswerIsDefined};

/// Words spell one command at most.
pub fn words_spell_one_command()
    ensures { WordsSpellOneCommand }
{}

/// A command has one defined answer at most for an input, so what a call says of its answer says
/// which one comes.
pub fn one_answer_is_defined()
    ensures { OneAnswerIsDefined }
{}
