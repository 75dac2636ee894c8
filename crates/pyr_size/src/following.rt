// The run that follows a schedule, made step by step.
ghost use Rattle.std.specs.Prelude.{◌≡◌, ℕ};
ghost use Rattle.pyr_net.specs.Net.{action_at};
ghost use Rattle.pyr_net.specs.declared.action.Action.TheVariants.{Take};
ghost use Rattle.pyr_net.specs.Occupancy.{occupancy};
ghost use Rattle.pyr_bundle.specs.Parts.{processor_count};
ghost use Rattle.pyr_machine.specs.Machine.{tag_rules, start};
ghost use Rattle.pyr_machine.specs.Station.{world_of};
ghost use Rattle.pyr_size.specs.Followed.{number_of, HasTurn, KeepsLeft, MakesTurn};
ghost use Rattle.pyr_size.specs.Sizes.{Completes};

use crate::lengths::Lengths;
use pyr_bundle::Bundle;
use pyr_machine::Tags;
use pyr_net::{Action, Net};
use pyr_num::ProcId;

// Takes parcels until a processor's next instruction has what it waits for.
fn take_all(bundle: &Bundle, tags: &mut Tags<'_>, p: u32)
    requires rules { tag_rules tags.old.bundle ≡ tag_rules bundle.now }
    requires turn { HasTurn bundle.now p (world_of tags.old.posts) }
    ensures rules { tag_rules tags.new.bundle ≡ tag_rules bundle.now }
    ensures left { KeepsLeft bundle.now p (world_of tags.old.posts) (world_of tags.new.posts) }
    ensures ready { (from : ℕ)
        → ¬ (action_at (tag_rules bundle.now) (world_of tags.new.posts) p ≡ Take from) }
{
    bundle.well_formed();
    'takes: while let Action::Take { .. } = tags.action(p) {
        tags.step(p);
    }
}

// Makes all steps of a processor's next instruction, and notes after a send how full its channel is.
fn make_turn(bundle: &Bundle, tags: &mut Tags<'_>, lengths: &mut Lengths, p: u32)
    requires rules { tag_rules tags.old.bundle ≡ tag_rules bundle.now }
    requires size { lengths.old.size ≡ processor_count bundle.now }
    requires turn { HasTurn bundle.now p (world_of tags.old.posts) }
    ensures rules { tag_rules tags.new.bundle ≡ tag_rules bundle.now }
    ensures size { lengths.new.size ≡ processor_count bundle.now }
    ensures made { MakesTurn bundle.now p (world_of tags.old.posts) (number_of lengths.old)
        (world_of tags.new.posts) (number_of lengths.new) }
{
    bundle.well_formed();
    take_all(bundle, tags, p);
    let action = tags.action(p);
    tags.step(p);
    if let Action::Send { to } = action {
        let length = tags.channel_len(ProcId(p), ProcId(to));
        lengths.note(p, to, length);
    }
}

/// Makes the complete run that follows a schedule, and notes how full each channel gets.
pub(crate) fn follow(bundle: &Bundle, schedule: &[u32], tags: &mut Tags<'_>, lengths: &mut Lengths)
    requires complete { Completes bundle.now schedule.now }
    requires rules { tag_rules tags.old.bundle ≡ tag_rules bundle.now }
    requires start { world_of tags.old.posts ≡ start }
    requires size { lengths.old.size ≡ processor_count bundle.now }
    requires none { (p q : ℕ) → number_of lengths.old p q ≡ 0 }
    ensures size { lengths.new.size ≡ processor_count bundle.now }
    ensures occupancy { (complete : Completes bundle.now schedule.now) (p q : ℕ)
        → number_of lengths.new p q
        ≡ occupancy (tag_rules bundle.now) start complete.run p q }
{
    for p in schedule {
        make_turn(bundle, tags, lengths, *p);
    }
}
