// What holds of the channel of every wire.
ghost use Rattle.pyr_wire.specs.InOrder.{IsInOrder, unsplit};
ghost use Rattle.pyr_wire.specs.Laws.{Starts, Splits, Sends, Receives, Carried};

/// The rule of a wire holds at its start, and each of the three kinds of step keeps it: the split of
/// the first pass into those of the two ends, a send, and a receive. So the parcels in the channel
/// are always those of the list from the head's count up to the tail's, in order, and at most the
/// capacity.
pub fn wire_keeps_order()
    ensures start { Starts }
    ensures split { Splits }
    ensures send { Sends }
    ensures receive { Receives }
    ensures carried { Carried }
{}
