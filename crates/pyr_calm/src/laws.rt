// What holds of every net, whatever its local states and parcels are, where no send has to wait for
// room, and where one has.
ghost use Rattle.pyr_calm.specs.Calm.{GreatestLengthIsTold, EnoughRoomNeverWaits, LessRoomWaits, OneGreatestLength};
ghost use Rattle.pyr_calm.specs.Capacities.{CalmNeverWaits, LowerWaits, OneIsCalm};
ghost use Rattle.pyr_calm.specs.Passages.{PassagesTell};
ghost use Rattle.pyr_calm.specs.Viewers.{OnePassServesAll};

/// Where no send ever waits and some run from empty lists comes to an end, that run alone tells the
/// greatest length of each list over all reached states: over the sends into it, the greatest
/// number of sends so far less the takes that the sender has heard of (a clock: Lamport, 1978).
pub fn greatest_length_is_told<L, P>()
    ensures { GreatestLengthIsTold L P }
{}

/// With room for the greatest length of each list, a net in which no send waits has the same runs,
/// and still no send waits.
pub fn enough_room_never_waits<L, P>()
    ensures { EnoughRoomNeverWaits L P }
{}

/// With less room for one list than its greatest length, some send waits in some interleaving,
/// whatever room the other lists have.
pub fn less_room_waits<L, P>()
    ensures { LessRoomWaits L P }
{}

/// A list has one greatest length.
pub fn one_greatest_length<L, P>()
    ensures { OneGreatestLength L P }
{}

/// Of that run its sends and takes alone tell the greatest length, in one pass with one number for
/// each actor and each parcel on its way.
pub fn passages_tell<L, P>()
    ensures { PassagesTell L P }
{}

/// One pass for a receiver tells of each of its senders what the pass for that channel tells.
pub fn one_pass_serves_all()
    ensures { OnePassServesAll }
{}

/// With its calm capacities a good bundle is good, and no send ever waits, in whatever frame and
/// interleaving.
pub fn calm_capacities_never_wait()
    ensures { CalmNeverWaits }
{}

/// With one calm capacity of at least 2 lowered by one, and the others as they are, some send waits
/// in some interleaving.
pub fn lower_capacities_wait()
    ensures { LowerWaits }
{}

/// A bundle has one list of calm capacities.
pub fn one_list_is_calm()
    ensures { OneIsCalm }
{}
