// The rule of a wire's channel, and its three kinds of step.
ghost use Rattle.std.specs.Prelude.{ℕ, List, [], ⊤};
ghost use Rattle.pyr_num.specs.declared.parcel.Parcel.{Parcel};

use crossbeam_channel::protocol::{Lesson, Outcome, Protocol, Split};
use crossbeam_channel::{RuledReceiver, RuledSender};
use pyr_num::Parcel;
use std::collections::LinkedList;
use std::marker::{Brand, PhantomData};

/// Whose a pass is.
pub enum Part {
    /// The first pass, before it is split.
    Unsplit,
    /// The tail's.
    Sends,
    /// The head's.
    Receives,
}

/// What a pass knows: whose it is, the list of the wire, how many of its parcels went through the
/// end, and how many the channel holds at most. No value of it is ever made.
pub struct Progress {
    pub part: Part,
    pub whole: LinkedList<Parcel>,
    pub count: u64,
    pub capacity: u64,
}

/// The rule: the channel holds the parcels of the list that were sent and not received, in order.
pub struct InOrder;

impl Protocol<Parcel, Progress> for InOrder {
    ghost use Rattle.pyr_wire.specs.InOrder.{IsInOrder, unsplit};

    ghost holds = { IsInOrder };

    ghost first = { unsplit };
}

/// The channel's end that sends, and the one that receives.
pub type Entrance = RuledSender<Parcel, Progress, InOrder>;

pub type Exit = RuledReceiver<Parcel, Progress, InOrder>;

/// The list and the capacity that a wire is made for. Each call of `wire` picks its own.
pub trait Picked {
    ghost whole: { List Parcel };

    ghost capacity: { ℕ };
}

impl Picked for Brand {
    ghost whole = { [] };

    ghost capacity = { 0 };
}

/// The first pass is split into the tail's and the head's.
pub struct Cut<K> {
    of: PhantomData<K>,
}

impl<K: Picked> Split<Progress> for Cut<K> {
    ghost use Rattle.pyr_wire.specs.InOrder.{progress};
    ghost use Rattle.pyr_wire.specs.declared.rule.Part.TheVariants.{Sends, Receives};

    ghost left = { λ v. progress Sends K.whole 0 K.capacity };

    ghost right = { λ v. progress Receives K.whole 0 K.capacity };
}

/// The next parcel of the list goes to the back of the channel.
pub struct Sent;

impl Outcome<Parcel, Progress> for Sent {
    ghost use Rattle.pyr_wire.specs.InOrder.{HasSent};

    ghost then = { HasSent };
}

impl Lesson<Parcel, Progress> for Sent {
    ghost fact = { λ v items. ⊤ };
}

/// The next parcel of the list comes out at the front of the channel.
pub struct Got;

impl Outcome<Parcel, Progress> for Got {
    ghost use Rattle.pyr_wire.specs.InOrder.{HasReceived};

    ghost then = { HasReceived };
}

impl Lesson<Parcel, Progress> for Got {
    ghost fact = { λ v items. ⊤ };
}
