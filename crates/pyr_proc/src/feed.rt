// What the wires of a bundle are made for.
use pyr_machine::Loaded;
use pyr_wire::Feed;

/// The traffic of a bundle in its first frames: from each processor to each other the data that the
/// one sends to the other in a frame, in code order, with their sequential values, one frame after
/// another.
#[derive(Clone, Copy)]
pub struct LoadedFeed<'a> {
    pub loaded: &'a Loaded,
    pub frames: u32,
}

impl<'a> Feed for LoadedFeed<'a> {
    ghost use Rattle.pyr_proc.specs.Feed.{feed_of};

    ghost feed = { λ s p q. feed_of s.loaded.now.bundle s.frames p.0 q.0 };
}
