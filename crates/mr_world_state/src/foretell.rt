//! What a master will hear of its store call, found out before the call is made, so that the master can be made ready
//! for it.
ghost use Rattle.std.specs.Prelude.{◌≡◌, ◌≤◌, true, false, not, None, IfOk, IfErr, OnOk};
ghost use Rattle.mr_master_refinement.specs.Stores.{told_in};
ghost use Rattle.mr_world_state.specs.inner.Asking.{answer_to, passes, IsRanged};
ghost use Rattle.mr_world_state.specs.Standing.{Refuses};

use crate::fault::WorldFault;
use mr_history::History;
use mr_ids::AppAttempt;
use mr_master_model::{StoreAnswer, StoreCall};
use mr_names::Namespace;
use mr_world_actors::Shared;
use mr_world_events::Weather;
use mr_world_stores::{answer_where_room, finds_full, tell_ranges};

/// What a master will be told of its store call in this weather. Refused `Full` where the call is made and finds a store
/// full.
pub fn foretell(
    names: &Shared<Namespace>,
    history: &Shared<History>,
    app: AppAttempt,
    call: &StoreCall,
    weather: Weather,
) -> Result<StoreAnswer, WorldFault>
    requires { app ≤ history.now.fence }
    ensures told { IfOk result (λ answer. answer ≡ told_in weather (answer_to names.now history.now app call.now)) }
    ensures room { OnOk result (passes names.now history.now app weather call.now ≡ false) }
    ensures ranged { IsRanged call.now }
    ensures refused { IfErr result (λ fault. Refuses None (not (passes names.now history.now app weather call.now)) true fault) }
{
    // For the prover: the numbers of a record are in the ranges of their types.
    tell_ranges(call);
    match weather {
        Weather::Calm => match answer_where_room(names, history, app, call)? {
            Some(answer) => Ok(answer),
            None => Err(WorldFault::Full),
        },
        Weather::Unavailable => Ok(StoreAnswer::Fault),
        Weather::Unanswered => {
            if finds_full(names, history, app, call) {
                return Err(WorldFault::Full);
            }
            Ok(StoreAnswer::Fault)
        }
    }
}
