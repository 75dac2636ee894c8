//! Laws over the definitions alone. A law takes nothing, does nothing and answers nothing.
ghost use Rattle.pyr_bodygen.specs.Laws.{CodeRunsAsItsBody, CodeOfABodyIsVerified};

/// The code of a body, whoever made it, leaves in the cells exactly what the body leaves there, for
/// every frame.
pub fn code_runs_as_its_body()
    ensures { CodeRunsAsItsBody }
{}

/// The code of a body, whoever made it, is well-formed and within the limits.
pub fn code_of_a_body_is_verified()
    ensures { CodeOfABodyIsVerified }
{}
