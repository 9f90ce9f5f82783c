//! Laws of the definitions: these functions do nothing.
ghost use Rattle.mr_user.specs.Computation.{computation};
ghost use Rattle.mr_mapside.specs.Laws.{BlocksAreOne, OutputIsItsBlocks};

use mr_user::Job;

/// Bytes are blocks behind their lengths in one way alone.
pub fn blocks_are_one()
    ensures { BlocksAreOne }
{}

/// A map's output, where it may be handed out, is cut into the blocks that the map hands to the reduces.
pub fn output_is_its_blocks<J: Job>()
    ensures { OutputIsItsBlocks (computation J.Key.cmp J.Key.codec J.Value.codec J.functions) }
{}
