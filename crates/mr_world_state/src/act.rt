//! A master takes a step. What it would send and change is prepared, room is made for it in the bag and in the
//! master, and the step is taken. Before the step is taken all may be refused, and nothing changes but spare room.
//! From then on nothing is refused.
ghost use Rattle.std.specs.Prelude.{◌≡◌, ◌≤◌, ◌+◌, ◌++◌, length, IfOk, OnOk, OnErr};
ghost use Rattle.mr_master_model.specs.Past.{Step, Answered};
ghost use Rattle.mr_master.specs.State.{StandsStill, Stands};
ghost use Rattle.mr_master.specs.Prepared.{PlansFor, IsReadyFor, IsReadyForStep};
ghost use Rattle.std.specs.Borrow.{sem};
ghost use Rattle.mr_master.specs.Prepared.{Prepared};
ghost use Rattle.mr_world_state.specs.inner.Attending.{PlansAnswerOf};
ghost use Rattle.mr_world_state.specs.inner.Lending.{LendsOwn};

use crate::fault::WorldFault;
use crate::push::push_all;
use crate::room::{check_room, reserve};
use mr_master::{MasterMachine, Prepared};
use mr_master_model::StoreAnswer;
use mr_packet::{Bag, MAX_PACKETS};
use mr_world_actors::Shared;
use std::alloc::AllocError;

/// What a master would send and change once it hears this answer, where its packets find room in the bag.
pub fn plan_answer(
    bag: &Bag,
    machine: &MasterMachine,
    answer: StoreAnswer,
) -> Result<Prepared, WorldFault>
    ensures plans { PlansAnswerOf bag.now machine.now answer result }
    ensures planned { IfOk result (λ prepared. PlansFor machine.now (Answered answer) prepared) }
    ensures room { IfOk result (λ prepared. length bag.now.packets + length prepared.packets ≤ MAX_PACKETS) }
{
    let prepared = machine.prepare_answer(answer)?;
    check_room(bag, prepared.packets().len())?;
    Ok(prepared)
}

/// The master's machine, to be changed by this world alone: where others have it too, a copy takes its place first. It
/// stands for what it stood for, also where memory is refused.
pub fn own(machine: &mut Shared<MasterMachine>) -> Result<&mut MasterMachine, AllocError>
    ensures* writes_back { sem 𝓛 (LendsOwn machine.entry result) }
    ensures still { IfOk result (λ own. StandsStill machine.old own.now) }
    ensures plans { IfOk result (λ own. (step : Step) (prepared : Prepared) → PlansFor machine.old step prepared → PlansFor own.now step prepared) }
{
    machine.own_clone()
}

/// Room is made for what is prepared: in the bag for its packets, and in the master. Nothing changes but spare room.
pub fn make_room(
    machine: &mut MasterMachine,
    bag: &mut Bag,
    prepared: &Prepared,
) -> Result<(), AllocError>
    ensures still { StandsStill machine.old machine.new }
    ensures ready { OnOk result ((step : Step) → PlansFor machine.old step prepared.now → IsReadyFor machine.new step prepared.now) }
    ensures bag { bag.new.packets ≡ bag.old.packets }
    ensures spare { OnOk result (length prepared.now.packets ≤ bag.new.spare) }
{
    reserve(bag, prepared.packets().len())?;
    machine.reserve(prepared)?;
    Ok(())
}

/// The master takes the step that was prepared, and its packets are sent.
pub fn act(machine: &mut MasterMachine, bag: &mut Bag, prepared: Prepared)
    requires ready { IsReadyForStep machine.old prepared }
    requires spare { length prepared.packets ≤ bag.old.spare }
    requires few { length bag.old.packets + length prepared.packets ≤ MAX_PACKETS }
    ensures stands { (step : Step) → IsReadyFor machine.old step prepared → Stands machine.old step machine.new }
    ensures sent { bag.new.packets ≡ bag.old.packets ++ prepared.packets }
{
    let packets = machine.take(prepared);
    push_all(bag, packets);
}

/// The same three in one call. Where memory is refused nothing changes but spare room. A machine that the step leaves as
/// it is stays shared.
pub fn take_step(
    machine: &mut Shared<MasterMachine>,
    bag: &mut Bag,
    prepared: Prepared,
) -> Result<(), AllocError>
    requires planned { (step : Step) × PlansFor machine.old step prepared }
    requires few { length bag.old.packets + length prepared.packets ≤ MAX_PACKETS }
    ensures stands { OnOk result ((step : Step) → PlansFor machine.old step prepared → Stands machine.old step machine.new) }
    ensures sent { OnOk result (bag.new.packets ≡ bag.old.packets ++ prepared.packets) }
    ensures still { OnErr result (StandsStill machine.old machine.new) }
    ensures unsent { OnErr result (bag.new.packets ≡ bag.old.packets) }
{
    if machine.is_left_by(&prepared) {
        return Ok(());
    }
    let machine = own(machine)?;
    make_room(machine, bag, &prepared)?;
    act(machine, bag, prepared);
    Ok(())
}
