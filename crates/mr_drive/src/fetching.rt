//! Whether reduces still fetch, or are still to be launched.
use mr_board::mr_world::{MAX_CONTAINERS, World};
use mr_container::Wish;
use mr_ids::TaskKind;
use mr_packet::{ContainerId, Envelope, Packet};

/// How many launches were sent and not heard yet, and the container that was seen to fetch last. A look begins there, so that a container
/// which is through is passed once.
#[derive(Drop)]
pub(crate) struct Fetching {
    launches: u64,
    seen: Option<ContainerId>,
}

impl Fetching {
    pub(crate) fn new() -> Fetching {
        Fetching {
            launches: 0,
            seen: None,
        }
    }

    /// A launch was sent.
    pub(crate) fn launched(&mut self) {
        self.launches = self.launches.saturating_add(1);
    }

    /// A node heard a packet.
    pub(crate) fn heard(&mut self, envelope: &Envelope) {
        if let Packet::Launch { .. } = &envelope.body {
            self.launches = self.launches.saturating_sub(1);
        }
    }

    /// Whether a reduce of the newest master has not all its pieces, or is still to be launched.
    pub(crate) fn goes_on(&mut self, world: &World) -> bool {
        if self.launches > 0 || world.wanted(world.newest()).is_some() {
            return true;
        }
        if let Some(c) = self.seen {
            if fetches(world, &c) {
                return true;
            }
        }
        self.seen = next_fetching(world, self.seen);
        self.seen.is_some()
    }
}

// The next container behind this one that fetches.
fn next_fetching(world: &World, after: Option<ContainerId>) -> Option<ContainerId> {
    let first = world.next_living(after);
    let mut at = first;
    for _ in 0..MAX_CONTAINERS {
        let c = at?;
        if fetches(world, &c) {
            return Some(c);
        }
        at = world.next_living(Some(c));
        if at == first {
            return None;
        }
    }
    None
}

// Whether a container of the newest master is a reduce's, and has not all its pieces.
fn fetches(world: &World, c: &ContainerId) -> bool {
    let Some(wish) = world.wish(c) else {
        return false;
    };
    let Some(place) = world.place(c) else {
        return false;
    };
    c.app.number() == world.newest()
        && place.attempt.task().kind == TaskKind::Reduce
        && is_before_its_work(&wish)
}

// Whether who wishes this has not all its pieces.
fn is_before_its_work(wish: &Wish) -> bool {
    matches!(
        wish,
        Wish::Where { .. } | Wish::Fetch { .. } | Wish::Lost { .. }
    )
}
