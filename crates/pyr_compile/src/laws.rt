// A law over the definitions alone. It takes nothing, does nothing and answers nothing.

ghost use Rattle.pyr_compile.specs.PlanRun.{PlansComplete, SizedPlansComplete};

/// The run of every plan is complete: where, in the plan's order, each task's processor makes all
/// steps of the task's block, each step can be made when its turn comes, and in the end every
/// processor is at its code's end, and all channels and stashes are empty. It is so where each channel
/// has room for all its sends, and also where it holds no more than it has in it along this run.
pub fn plans_complete()
    ensures roomy { PlansComplete }
    ensures sized { SizedPlansComplete }
{}
