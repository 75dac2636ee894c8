// The laws of the lines of bodies. A law is a function with no code, whose contract is it.
ghost use Rattle.pyr_body.specs.Spelling.{IsUniquelyReadable};
ghost use Rattle.pyr_body.specs.Laws.{LineIsUnique, LineIsDecided, LinesAreOneTree, LinesTakenStand};

/// Tokens are those of one expression at most, also where others follow.
pub fn expressions_are_uniquely_readable()
    ensures { IsUniquelyReadable }
{}

/// Tokens are those of one line at most.
pub fn line_is_unique()
    ensures { LineIsUnique }
{}

/// Tokens are those of a line or of none.
pub fn line_is_decided()
    ensures { LineIsDecided }
{}

/// Lines are those of one body's statements at most.
pub fn lines_are_one_tree()
    ensures { LinesAreOneTree }
{}

/// Lines that were taken are, with their names put back, the lines that were written.
pub fn lines_taken_stand()
    ensures { LinesTakenStand }
{}
