// What wires are made for.
ghost use Rattle.std.specs.Prelude.{List};
ghost use Rattle.pyr_num.specs.declared.ids.ProcId.{ProcId};
ghost use Rattle.pyr_num.specs.declared.parcel.Parcel.{Parcel};

/// What is to be carried from each processor to each other: a list of parcels for a sender and a
/// receiver. The trait has no call. It is a meaning alone, by which a contract says what a wire is
/// made for.
pub trait Feed {
    ghost feed: { Self → ProcId → ProcId → List Parcel };
}
