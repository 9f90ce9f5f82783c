//! The limit of a world that its parts keep. Most bytes of a map's output are `mr_mapside::MAX_OUTPUT_LEN`.

/// Most containers of a world: all launches of all masters.
pub const MAX_CONTAINERS: u32 = 100_000;
