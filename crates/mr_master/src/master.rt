//! The application master as whoever runs it sees it: `MasterMachine`, whose calls are handed on to the `Machine` of
//! `mr_master_state`, and to what hears packets and takes answers.
ghost use Rattle.std.specs.Prelude.{◌≡◌, ◌↔◌, true, [], ◌∷◌, None, IsTrue, IfOk, IfErr, OnOk, OnErr, unwrap_or};
ghost use Rattle.std.specs.Option.{is_some};
ghost use Rattle.mr_master_events.specs.mr_master_state.specs.State.{StandsFor, StandsForSome, Stands, StandsStill, Unchanged, Answers};
ghost use Rattle.mr_master_model.specs.Answered.{name_of};
ghost use Rattle.mr_master_model.specs.Duty.{duty};
ghost use Rattle.mr_master_model.specs.Past.{Step, Launches, Hears, Expires, Answered, phase_of};
ghost use Rattle.mr_master_model.specs.Readings.{launch_refusal, expire_refusal, wanted};
ghost use Rattle.mr_master_model.specs.Next.{seen, sent};
ghost use Rattle.mr_master_events.specs.mr_master_state.specs.Prepared.{IsNothing, IsOne, IsExpiry, PlansFor, IsReadyFor, IsReadyForStep};
ghost use Rattle.mr_master_events.specs.mr_master_state.specs.Same.{SameMachines};
ghost use Rattle.mr_master_events.specs.Refused.{launch_error};

use mr_ids::TaskId;
use mr_master_calls::{next_duty, next_duty_name, ready_for};
use mr_master_events::mr_master_state::{Machine, Prepared};
use mr_master_events::mr_master_tables::Duty;
use mr_master_events::{
    LaunchError, expire_refusal, launch_refusal, no_memory, prepare_expiry, prepare_launch,
    prepare_packet,
};
use mr_master_model::{DutyName, LaunchFault, Phase, Setting, StoreAnswer};
use mr_packet::{Envelope, Packet};
use mr_task::TaskFault;
use std::alloc::{AllocError, Global};
use std::marker::Model;

/// The master of one generation.
pub struct MasterMachine {
    machine: Machine,
    // how many of the first bars are past at least
    passed: usize,
}

// By hand, so that a master is dropped by this call: a derived drop is taken apart by the check at each place where
// one is dropped.
impl Drop for MasterMachine {
    fn drop(self) {
        let MasterMachine {
            machine: _,
            passed: _,
        } = self;
    }
}

impl Model for MasterMachine {
    ghost use Rattle.mr_master_events.specs.mr_master_state.specs.Passing.{HasPassed};
    ghost use Rattle.mr_master_events.specs.mr_master_state.specs.State.{Master};

    ghost Value = { Master };

    ghost view = { λ m. m.machine };

    ghost invariant = { λ m. HasPassed m.machine m.passed };
}

impl MasterMachine {
    /// The machine of a new master: it stands for the empty past. Where memory is refused: an error.
    pub fn new(alloc: Global, setting: Setting) -> Result<MasterMachine, AllocError>
        ensures { IfOk result (λ machine. StandsFor machine setting []) }
    {
        let machine = Machine::new(alloc, setting)?;
        Ok(MasterMachine { machine, passed: 0 })
    }

    /// Another machine, which keeps what this one keeps. Spare room is not copied. Where memory is refused: an error.
    pub fn copy(&self) -> Result<MasterMachine, AllocError>
        ensures { IfOk result (Unchanged self.now) }
    {
        let machine = self.machine.copy()?;
        Ok(MasterMachine {
            machine,
            passed: self.passed,
        })
    }

    /// Whether both keep the same, whatever their settings. Spare room is not compared, nor how many of the first bars
    /// are known to be past, nor in which order the nodes were heard of.
    pub fn keeps_same(&self, other: &MasterMachine) -> bool
        ensures { IsTrue result ↔ SameMachines self.now other.now }
    {
        self.machine.keeps_same(&other.machine)
    }

    /// Whether both keep the same (`keeps_same`), and are for one setting.
    pub fn is_same(&self, other: &MasterMachine) -> bool
        ensures { IsTrue result ↔ (SameMachines self.now other.now × (self.now.setting ≡ other.now.setting)) }
    {
        self.machine.is_same(&other.machine)
    }

    /// Each machine stands for some past. This call does nothing: it tells the caller so.
    pub fn stands(&self)
        ensures { StandsForSome self.now }
    {
        // For the prover: a machine stands for some past.
        let _machine = &self.machine;
    }
}

impl Clone for MasterMachine {
    ghost is_clone = { Unchanged };

    fn clone(&self) -> Result<MasterMachine, AllocError> {
        self.copy()
    }
}

impl MasterMachine {
    /// The next store call, and what it is for: the first that applies by the table of phases. Where there is none,
    /// there is nothing to do until something is heard or launched, or the master is Ended or Stopped. Where memory
    /// is refused: an error, and then a call is due.
    pub fn duty(&self) -> Result<Option<Duty>, AllocError>
        ensures due { IfOk result (λ due. Answers self.now (λ w past. duty w (seen w past)) due) }
        ensures due_on_memory { OnErr result (Answers self.now (λ w past. is_some (duty w (seen w past))) true) }
    {
        let due = next_duty(&self.machine, self.passed)?;
        Ok(due)
    }

    /// What the next store call is for (`duty`); none where there is none. Where memory is refused: an error.
    pub fn duty_name(&self) -> Result<Option<DutyName>, AllocError>
        ensures { IfOk result (λ name. Answers self.now (λ w past. name_of (duty w (seen w past))) name) }
    {
        let name = next_duty_name(&self.machine, self.passed)?;
        Ok(name)
    }

    /// Why `launch` would launch nothing of a task on a node, memory aside: the first that applies.
    pub fn launch_refusal(&self, task: TaskId, node: u32) -> Option<LaunchFault>
        ensures { Answers self.now (λ w past. launch_refusal w (seen w past) task node) result }
    {
        launch_refusal(&self.machine, task, node)
    }

    /// The phase that it is in.
    pub fn phase(&self) -> Phase
        ensures { Answers self.now (λ w past. phase_of (seen w past).work) result }
    {
        self.machine.work.phase()
    }

    /// The task that is to be launched next: the first that waits for a launch while the master is Running. Maps come
    /// first, a reduce only once every map is Succeeded. A task waits while none of its attempts is live, Recording
    /// or Succeeded and numbers are left.
    pub fn wanted(&self) -> Option<TaskId>
        ensures { Answers self.now (λ w past. wanted w (seen w past)) result }
    {
        self.machine.wanted()
    }

    /// Why `expire` would not give a node up, memory aside: the first that applies.
    pub fn expire_refusal(&self, node: u32) -> Option<LaunchFault>
        ensures { Answers self.now (λ w past. expire_refusal w (seen w past) node) result }
    {
        expire_refusal(&self.machine, node)
    }
}

// How each step is taken: it is prepared, room is made for it, and it is taken.
impl MasterMachine {
    /// What the master will send once it hears this packet, and what will change then. It changes nothing. Where
    /// memory is refused: an error.
    ///
    /// While Running every packet of an attempt, container or node is heard. In each other phase only `NodeUp` is
    /// heard, and in Ended and Stopped nothing. What is told of an attempt or container that is not known is not
    /// heard. Of a packet that is not heard nothing is sent, and nothing will change.
    pub fn prepare_packet(&self, packet: &Packet) -> Result<Prepared, AllocError>
        ensures sent { IfOk result (λ prepared. Answers self.now (λ w past. sent w past (Hears packet.now)) prepared.packets) }
        ensures planned { IfOk result (λ prepared. PlansFor self.now (Hears packet.now) prepared) }
    {
        let prepared = prepare_packet(&self.machine, packet)?;
        Ok(prepared)
    }

    /// What the master will send once it launches the next attempt of a task on a node, in the incarnation that is
    /// known of it, and what will change then. It changes nothing. One packet is sent, which tells the node so.
    ///
    /// Errors in order: `Refused`, then `Full`, then `NoMemory`. `Refused` comes with `NotRunning`, `NoTask` where
    /// the task is not the job's, `NoNode`, or `Task` with the task's own refusal, in this order. A task refuses
    /// where it is won, has two live attempts, or no numbers are left. `Full` comes where the master launched 2^32
    /// containers, whose numbers have 32 bits.
    pub fn prepare_launch(&self, task: TaskId, node: u32) -> Result<Prepared, LaunchError>
        ensures sent { IfOk result (λ prepared. Answers self.now (λ w past. sent w past (Launches task node)) prepared.packets) }
        ensures planned { IfOk result (λ prepared. PlansFor self.now (Launches task node) prepared) }
        ensures one { IfOk result (λ prepared. IsOne prepared.packets) }
        ensures allowed { OnOk result (Answers self.now (λ w past. launch_refusal w (seen w past) task node) None) }
        ensures memory { OnOk result (Answers self.now (λ w past. launch_error w (seen w past) task node) LaunchError.NoMemory) }
        ensures refused { IfErr result (λ error. Answers self.now (λ w past. launch_error w (seen w past) task node) error) }
    {
        let prepared = prepare_launch(&self.machine, task, node)?;
        Ok(prepared)
    }

    /// What the master will send once it gives up a node whose containers may still run, and what will change then.
    /// It changes nothing.
    ///
    /// A Kill is sent to the container of each live attempt of a map there, by map number, then arrival. These
    /// attempts end, and the outputs of the Succeeded maps there count as lost. Of each live attempt of a reduce
    /// there a bar is due, if none was. Launches on the node go on. Room is wanted for the bars alone.
    ///
    /// Refusals in order: `NotRunning`, `NoNode`, and `Task(NoMemory)` where memory is refused.
    pub fn prepare_expiry(&self, node: u32) -> Result<Prepared, LaunchFault>
        ensures sent { IfOk result (λ prepared. Answers self.now (λ w past. sent w past (Expires node)) prepared.packets) }
        ensures planned { IfOk result (λ prepared. PlansFor self.now (Expires node) prepared) }
        ensures expiry { IfOk result (λ prepared. IsExpiry prepared.change) }
        ensures allowed { OnOk result (Answers self.now (λ w past. expire_refusal w (seen w past) node) None) }
        ensures refused { IfErr result (λ fault. Answers self.now (λ w past. unwrap_or (expire_refusal w (seen w past) node) (LaunchFault.Task TaskFault.NoMemory)) fault) }
    {
        let prepared = prepare_expiry(&self.machine, node)?;
        Ok(prepared)
    }

    /// What the master will send once it hears this answer of the store call that is due (`duty`), and what will
    /// change then. The answer is known beforehand, or the call, which changes nothing, was made already. To prepare
    /// changes nothing. Where memory is refused: an error.
    ///
    /// Of a bar a Kill is sent, and of a flush the winners and Kills. Of a reduce that is taken over its winner is
    /// sent, and where the job ended the outcome, to every node. Where no call is due, nothing is sent, and nothing
    /// will change.
    ///
    /// The steps of setup, recovery and job commit go on with the lines that follow. A reduce that is taken over is
    /// entered as Succeeded. Where the master begins to run, each map's newest success is entered so, unless its node
    /// is known in a higher incarnation.
    pub fn prepare_answer(&self, answer: StoreAnswer) -> Result<Prepared, AllocError>
        ensures sent { IfOk result (λ prepared. Answers self.now (λ w past. sent w past (Answered answer)) prepared.packets) }
        ensures planned { IfOk result (λ prepared. PlansFor self.now (Answered answer) prepared) }
    {
        let prepared = ready_for(&self.machine, answer, self.passed)?;
        Ok(prepared)
    }

    /// Whether the step that was prepared sends nothing and changes nothing, as that of a packet that is not heard. Then
    /// it need not be taken: the master stands for it as it is.
    pub fn is_left_by(&self, prepared: &Prepared) -> bool
        ensures nothing { IsTrue result ↔ IsNothing prepared.now }
        ensures stands { IsTrue result → (step : Step) → PlansFor self.now step prepared.now → Stands self.now step self.now }
    {
        prepared.is_nothing()
    }

    /// Makes room for what is prepared. Nothing else changes, also where memory is refused: the master stands for
    /// what it stood for. Of an expiry it is the machine that it was.
    pub fn reserve(&mut self, prepared: &Prepared) -> Result<(), AllocError>
        ensures still { StandsStill self.old self.new }
        ensures ready { OnOk result ((step : Step) → PlansFor self.old step prepared.now → IsReadyFor self.new step prepared.now) }
        ensures expiry { OnErr result (IsExpiry prepared.now.change → self.new ≡ self.old) }
    {
        self.machine.reserve(prepared)
    }

    /// Takes the step that was prepared, for which there is room, and gives the packets that are sent. It takes no
    /// memory and refuses nothing.
    pub fn take(&mut self, prepared: Prepared) -> Vec<Envelope>
        requires { IsReadyForStep self.old prepared }
        ensures packets { result.items ≡ prepared.packets }
        ensures stands { (step : Step) → IsReadyFor self.old step prepared → Stands self.old step self.new }
    {
        let packets = self.machine.take(prepared);
        self.passed = self.machine.passed(self.passed);
        packets
    }
}

// The same in one call, for whoever has no bag to make room in.
impl MasterMachine {
    /// Hears a packet, and gives the packets that are sent (`prepare_packet`). Where memory is refused: an error, and
    /// the master stands for what it stood for.
    pub fn hear(&mut self, packet: &Packet) -> Result<Vec<Envelope>, AllocError>
        ensures sent { IfOk result (λ packets. Answers self.old (λ w past. sent w past (Hears packet.now)) packets.items) }
        ensures stands { OnOk result (Stands self.old (Hears packet.now) self.new) }
        ensures unchanged { OnErr result (StandsStill self.old self.new) }
    {
        let prepared = self.prepare_packet(packet)?;
        self.reserve(&prepared)?;
        Ok(self.take(prepared))
    }

    /// Launches the next attempt of a task on a node, and gives the packet that tells the node so, which is to be sent.
    ///
    /// The errors are those of `prepare_launch`, in that order. An error changes nothing.
    pub fn launch(&mut self, task: TaskId, node: u32) -> Result<Envelope, LaunchError>
        ensures sent { IfOk result (λ packet. Answers self.old (λ w past. sent w past (Launches task node)) (packet ∷ [])) }
        ensures stands { OnOk result (Stands self.old (Launches task node) self.new) }
        ensures allowed { OnOk result (Answers self.old (λ w past. launch_refusal w (seen w past) task node) None) }
        ensures refused { IfErr result (λ error. Answers self.old (λ w past. launch_error w (seen w past) task node) error) }
        ensures unchanged { OnErr result (StandsStill self.old self.new) }
    {
        let prepared = self.prepare_launch(task, node)?;
        match self.reserve(&prepared) {
            Ok(()) => Ok(only(self.take(prepared))),
            Err(_) => Err(LaunchError::NoMemory),
        }
    }

    /// Gives a node up, and gives the packets that are sent.
    ///
    /// The refusals are those of `prepare_expiry`, in that order. A refusal changes nothing.
    pub fn expire(&mut self, node: u32) -> Result<Vec<Envelope>, LaunchFault>
        ensures sent { IfOk result (λ packets. Answers self.old (λ w past. sent w past (Expires node)) packets.items) }
        ensures stands { OnOk result (Stands self.old (Expires node) self.new) }
        ensures allowed { OnOk result (Answers self.old (λ w past. expire_refusal w (seen w past) node) None) }
        ensures refused { IfErr result (λ fault. Answers self.old (λ w past. unwrap_or (expire_refusal w (seen w past) node) (LaunchFault.Task TaskFault.NoMemory)) fault) }
        ensures unchanged { OnErr result (self.new ≡ self.old) }
    {
        let prepared = self.prepare_expiry(node)?;
        match self.reserve(&prepared) {
            Ok(()) => Ok(self.take(prepared)),
            Err(_) => Err(no_memory()),
        }
    }

    /// Hears the answer of the store call that was due, and gives the packets that are sent (`prepare_answer`). Where
    /// memory is refused: an error, and the master stands for what it stood for.
    pub fn answer(&mut self, answer: StoreAnswer) -> Result<Vec<Envelope>, AllocError>
        ensures sent { IfOk result (λ packets. Answers self.old (λ w past. sent w past (Answered answer)) packets.items) }
        ensures stands { OnOk result (Stands self.old (Answered answer) self.new) }
        ensures unchanged { OnErr result (StandsStill self.old self.new) }
    {
        let prepared = self.prepare_answer(answer)?;
        self.reserve(&prepared)?;
        Ok(self.take(prepared))
    }
}

// The only one.
fn only(packets: Vec<Envelope>) -> Envelope
    requires { IsOne packets.items }
    ensures { packets.items ≡ result ∷ [] }
{
    let mut packets = packets;
    match packets.pop() {
        Some(packet) => packet,
        None => unreachable!(),
    }
}
