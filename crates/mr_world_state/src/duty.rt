//! The event by which a master makes the store call that is due, hears the answer, and sends what follows.
ghost use Rattle.std.specs.Prelude.{◌≡◌, ◌≤◌, IfOk, OnOk, OnErr};
ghost use Rattle.mr_world_model.specs.World.{Duty, World};
ghost use Rattle.mr_world_state.specs.Histories.{change_of, changed};
ghost use Rattle.mr_world_state.specs.inner.Asking.{ForeseesDuty, ForeseesDutyOf};
ghost use Rattle.mr_world_state.specs.Standing.{Foresees, Standing, Tries};

use crate::act::{act, make_room, own, plan_answer};
use crate::alive::raised;
use crate::ask::ask;
use crate::fault::WorldFault;
use crate::foretell::foretell;
use crate::next_call::next_call;
use crate::parts::Parts;
use mr_history::History;
use mr_ids::AppAttempt;
use mr_master::{Duty as StoreDuty, MasterMachine};
use mr_master_model::StoreAnswer;
use mr_names::Namespace;
use mr_world_actors::Shared;
use mr_world_events::{Weather, Why};

/// A master's duty that is due, and what the master will be told of its store call.
#[derive(Drop)]
pub struct Due {
    pub app: AppAttempt,
    pub duty: StoreDuty,
    pub answer: StoreAnswer,
}

impl Parts {
    /// The duty of the master of this generation, if it is alive and has one, and no store is full.
    pub(crate) fn foresee_duty(&self, k: u32, weather: Weather) -> Result<Due, WorldFault>
        ensures { ForeseesDuty self.now k weather result }
    {
        let app = raised(&self.history, k)?;
        let Some(machine) = self.masters.get(k) else {
            return Err(WorldFault::NotNow(Why::NoMaster));
        };
        find_duty(&self.names, &self.history, machine, app, weather)
    }

    /// Whether the master of this generation has a store call to make now, which passes no limit in this weather.
    pub(crate) fn check_duty(&self, k: u32, weather: Weather) -> Result<(), WorldFault>
        ensures { Foresees self.now (Duty k weather) result }
    {
        let app = raised(&self.history, k)?;
        let Some(machine) = self.masters.get(k) else {
            return Err(WorldFault::NotNow(Why::NoMaster));
        };
        let due = find_duty(&self.names, &self.history, machine, app, weather)?;
        let _prepared = plan_answer(&self.bag, machine, due.answer)?;
        Ok(())
    }

    /// The master of this generation makes its store call, and hears of the answer. That is the store's, a refusal
    /// too; in bad weather it hears that nobody can tell. It sends the packets that follow.
    pub(crate) fn duty(&mut self, k: u32, weather: Weather) -> Result<(), WorldFault>
        requires { (w : World) × Standing self.old w }
        ensures tries { Tries self.old (Duty k weather) result self.new }
        ensures config { self.new.config ≡ self.old.config }
        ensures calls { OnOk result ((w : World) → Standing self.old w → self.new.history ≡ changed self.old.history (change_of self.old.config w (Duty k weather))) }
        ensures kept { OnErr result (self.new.history ≡ self.old.history) }
    {
        let app = raised(&self.history, k)?;
        let Some(machine) = self.masters.get_mut(k) else {
            return Err(WorldFault::NotNow(Why::NoMaster));
        };
        let Due {
            app: _,
            duty,
            answer,
        } = find_duty(&self.names, &self.history, machine, app, weather)?;
        let prepared = plan_answer(&self.bag, machine, answer)?;
        let machine = own(machine)?;
        make_room(machine, &mut self.bag, &prepared)?;
        ask(
            &mut self.names,
            &mut self.history,
            app,
            duty.call(),
            weather,
        )?;
        act(machine, &mut self.bag, prepared);
        Ok(())
    }
}

// The duty of the master with this machine and this generation, if it has one, and no store is full.
fn find_duty(
    names: &Shared<Namespace>,
    history: &Shared<History>,
    machine: &MasterMachine,
    app: AppAttempt,
    weather: Weather,
) -> Result<Due, WorldFault>
    requires { app ≤ history.now.fence }
    ensures { ForeseesDutyOf names.now history.now machine.now app weather result }
{
    let duty = next_call(machine)?;
    let answer = foretell(names, history, app, duty.call(), weather)?;
    Ok(Due { app, duty, answer })
}
