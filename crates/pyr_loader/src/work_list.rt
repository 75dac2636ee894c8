// A longest run, by a work list.
ghost use Rattle.std.specs.Prelude.{◌≡◌, [], ◌∷◌, ◌++◌, IfOk, OnOk};
ghost use Rattle.pyr_net.specs.Net.{IsEnabled, action_at, next};
ghost use Rattle.pyr_net.specs.Run.{IsOutcome};
ghost use Rattle.pyr_bundle.specs.Parts.{processor_count};
ghost use Rattle.pyr_machine.specs.Machine.{tag_rules, start};
ghost use Rattle.pyr_machine.specs.Station.{world_of};
ghost use Rattle.pyr_loader.specs.WorkList.{partner_of, with_partner, AreBelow};

use pyr_bundle::Bundle;
use pyr_machine::Tags;
use pyr_net::{Action, Net};
use std::alloc::{AllocError, Global};

// The processor at the other end of the channel that a step changes. It alone, beside the one that
// makes the step, may come to be able to go on by it.
fn partner(action: Action) -> Option<u32>
    ensures { result ≡ partner_of action }
{
    match action {
        Action::Send { to } => Some(to),
        Action::Take { from } => Some(from),
        Action::Internal | Action::Ended | Action::Lacks => None,
    }
}

// The processors, each once.
fn everyone(alloc: Global, bundle: &Bundle) -> Result<Vec<u32>, AllocError>
    ensures { IfOk result (λ all. AreBelow (processor_count bundle.now) all.items) }
{
    let mut all = Vec::new(alloc);
    for p in 0..bundle.processors() {
        all.push(p)?;
    }
    Ok(all)
}

// Makes the step of a processor, which can make one, and puts into the work list the processor
// itself and the one that may come to be able to go on.
fn go_on(tags: &mut Tags<'_>, p: u32, waiting: &mut Vec<u32>) -> Result<(), AllocError>
    requires { IsEnabled (tag_rules tags.old.bundle) (world_of tags.old.posts) p }
    ensures fixed { tag_rules tags.new.bundle ≡ tag_rules tags.old.bundle }
    ensures step { world_of tags.new.posts
        ≡ next (tag_rules tags.old.bundle) (world_of tags.old.posts) p }
    ensures waiting { OnOk result (waiting.new.items ≡ with_partner
        (partner_of (action_at (tag_rules tags.old.bundle) (world_of tags.old.posts) p))
        (waiting.old.items ++ p ∷ [])) }
{
    let partner = partner(tags.action(p));
    tags.step(p);
    waiting.push(p)?;
    if let Some(q) = partner {
        waiting.push(q)?;
    }
    Ok(())
}

/// Makes steps until no processor can make one, and tells how many were made.
///
/// A processor that can make a step is always in the work list. Each turn takes one out of it, and
/// each step puts two into it at most, so that there are at most two turns for each step, beside
/// one for each processor.
pub fn run_out(alloc: Global, bundle: &Bundle, tags: &mut Tags<'_>) -> Result<u64, AllocError>
    requires rules { tag_rules tags.old.bundle ≡ tag_rules bundle.now }
    requires start { world_of tags.old.posts ≡ start }
    ensures rules { tag_rules tags.new.bundle ≡ tag_rules bundle.now }
    ensures outcome { IfOk result (λ steps.
        IsOutcome (tag_rules bundle.now) start steps (world_of tags.new.posts)) }
{
    bundle.well_formed();
    let mut waiting = everyone(alloc, bundle)?;
    let mut steps = 0;
    'turns: while let Some(p) = waiting.pop() {
        if !tags.enabled(p) {
            continue;
        }
        go_on(tags, p, &mut waiting)?;
        steps += 1;
    }
    Ok(steps)
}
