//! The limit of a world's journal. Most containers are `mr_world_state::MAX_CONTAINERS`.

/// Most events of a journal.
pub const MAX_EVENTS: usize = 1_000_000;
