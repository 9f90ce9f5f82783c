//! A master's store call is made, with what it leaves of both stores. What the master hears of it is foretold in
//! `foretell`.
ghost use Rattle.std.specs.Prelude.{◌≡◌, ◌≤◌, OnOk, OnErr};
ghost use Rattle.mr_world_state.specs.inner.Asking.{HasAsked, IsSuited};

use mr_history::History;
use mr_ids::AppAttempt;
use mr_master_model::StoreCall;
use mr_names::Namespace;
use mr_world_actors::Shared;
use mr_world_events::Weather;
use mr_world_stores::{append_record, change_names, is_made, only_looks};
use std::alloc::AllocError;

/// A master's store call is made, if it is in this weather: the stores are left as it leaves them, refused or not.
/// Where memory is refused nothing has changed.
pub fn ask(
    names: &mut Shared<Namespace>,
    history: &mut Shared<History>,
    app: AppAttempt,
    call: &StoreCall,
    weather: Weather,
) -> Result<(), AllocError>
    requires raised { app ≤ history.old.fence }
    requires suited { IsSuited history.old app call.now }
    ensures ok { OnOk result (HasAsked names.old history.old app weather call.now names.new history.new) }
    ensures names { OnErr result (names.new ≡ names.old) }
    ensures history { OnErr result (history.new ≡ history.old) }
{
    if !is_made(weather) {
        return Ok(());
    }
    match call {
        StoreCall::Names(op) if only_looks(app, op) => Ok(()),
        StoreCall::Names(op) => change_names(names.own()?, app, op),
        StoreCall::Append(line) => append_record(history.own()?, app, line),
        StoreCall::Flush => {
            let _refusal = history.own()?.flush(app);
            Ok(())
        }
        StoreCall::Read => Ok(()),
    }
}
