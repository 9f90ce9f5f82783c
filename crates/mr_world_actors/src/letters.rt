//! The packets of a container's step: none, one, or its last one, behind which its master is told of its end.
ghost use Rattle.std.specs.Prelude.{◌≡◌};
ghost use Rattle.mr_world_actors.specs.Letters.{count_of};

use mr_packet::Envelope;

/// What a container's step puts into the bag, where it is no store call.
#[derive(Drop)]
pub enum Letters {
    /// Nothing.
    Nothing,
    /// A packet.
    One(Envelope),
    /// Its last packet: then it comes to its end, and its master is told so.
    Last(Envelope),
}

impl Letters {
    /// How many packets these are.
    pub fn count(&self) -> usize
        ensures { result ≡ count_of self.now }
    {
        match self {
            Letters::Nothing => 0,
            Letters::One(_) => 1,
            Letters::Last(_) => 2,
        }
    }
}
