//! Masters of the cluster and masters' machines: what is read off a master's past here is what `mr_master_model` reads
//! off the same past. These functions do nothing. `specs/Steps` is the translation: `setting` of a config and a
//! generation, `steps` of a past. `specs/Works` says what a phase is for the machine: the lines that are left of
//! a committer's table.
//!
//! # What is proved
//!
//! Every past here is any list of steps that events can make (`AllMade`), as each master's past in each run is (`pasts_are_made`).
//!
//! **`masters_agree`**: wherever such a past has led, the machine that has seen the same steps acts as the master does.
//! That holds while the master opens, recovers, runs, fails, commits, and once it is over. The machine has its phase,
//! its next store call with what it is for, its refusals of launches and expiries, and its next attempt. It wants the
//! same task launched next and knows the same incarnations. It sends the same packets in the same order at each step
//! that can be made then.
//!
//! It rests on these, which are laws of their own:
//!
//! - from every phase, of any two values: the machine's next store call is the master's, and an answer leads both to the same (`turns_agree`);
//! - where it begins to run: no task was told anything before, and of each map the same attempt is taken over (`beginnings_agree`);
//! - what keeps tasks alike: the same calls, and endings and losses in any order (`tasks_stay_alike`);
//! - a machine whose tasks have heard alike has the master's phase, next store call, refusals and next attempt
//!   (`points_agree`). For it a reduce is Succeeded exactly where the master recorded one of it or read its winner
//!   (`reduces_are_recorded`). It finds each launch and each container as the master does (`launches_agree`);
//! - the machine stands where the master does where it begins to run (`running_begins`), or where it ends before that
//!   (`ends_early`). It stays so at every step while the master runs (`steps_keep`), and at every step once it runs no
//!   more (`late_steps_keep`);
//! - for whoever runs machines of masters: what one is told of its store call is what the stores answered, in each
//!   weather, and both then stand for the world's (`store_calls_agree`). Which step each event is to which past is
//!   `masters_go_on`, and the packets of the event are those that the machine sends by it (`masters_send`).
#![tactic(auto)]

ghost use Rattle.mr_master_refinement.specs.Alike.{TasksStayAlike};
ghost use Rattle.mr_master_refinement.specs.Begins.{BeginningsAgree};
ghost use Rattle.mr_master_refinement.specs.Holds.{EndsEarly, LateStepsKeep, LaunchesAgree, RunningBegins, StepsKeep};
ghost use Rattle.mr_master_refinement.specs.Points.{PointsAgree};
ghost use Rattle.mr_master_refinement.specs.Recorded.{ReducesAreRecorded};
ghost use Rattle.mr_master_refinement.specs.Stores.{MastersGoOn, MastersSend, StoreCallsAgree};
ghost use Rattle.mr_master_refinement.specs.MastersAgree.{MastersAgree};
ghost use Rattle.mr_master_refinement.specs.Agreement.{TurnsAgree};

/// Wherever a master's past has led, it acts as its machine, which has seen the same. Both have the same phase, next
/// store call, refusals and next attempt. They want the same task launched next, and send the same at each step.
pub fn masters_agree()
    ensures { MastersAgree }
{}

/// Of each phase that a master can be in: the machine is at the same phase, and its next store call is the master's.
/// The answer leads both to the same.
pub fn turns_agree()
    ensures { TurnsAgree }
{}

/// While a master runs, a reduce has a Succeeded attempt exactly where the master recorded one of it, or read its winner.
pub fn reduces_are_recorded()
    ensures { ReducesAreRecorded }
{}

/// Wherever a master's past has led, a machine whose tasks have heard alike has its phase, its next store call, its refusals of launches and expiries, and its
/// next attempt.
pub fn points_agree()
    ensures { PointsAgree }
{}

/// Tasks that have heard alike stay so where they hear the same. Endings and losses may come in any order, and an end of an attempt that is not live, or the loss
/// of what is not recorded, changes nothing.
pub fn tasks_stay_alike()
    ensures { TasksStayAlike }
{}

/// Until a master runs, its past tells no task anything; and of each map the master and its machine take the same attempt over.
pub fn beginnings_agree()
    ensures { BeginningsAgree }
{}

/// Where a master begins to run, its machine stands where it does: it launched, knows and read the same, and its tasks have heard alike.
pub fn running_begins()
    ensures { RunningBegins }
{}

/// Where a master ends before it runs, its machine stands where it does.
pub fn ends_early()
    ensures { EndsEarly }
{}

/// While a master runs, its machine finds what an attempt was launched as, and for which attempt a container was, as the master does.
pub fn launches_agree()
    ensures { LaunchesAgree }
{}

/// While a master runs, its machine stays with it at every step: each launch, each packet, a node that is given up, and each answer of a store call.
pub fn steps_keep()
    ensures { StepsKeep }
{}

/// Once a master has run and does no more, its machine stays with it at every step: while it fails, commits the job, or is over.
pub fn late_steps_keep()
    ensures { LateStepsKeep }
{}

/// Of a namespace and a history that stand for the world's. What a master's machine is told of its store call is what
/// the store answered, or a fault in bad weather. Its past grows by that, and both stores then stand for the world's.
pub fn store_calls_agree()
    ensures { StoreCallsAgree }
{}

/// What each other event is to the pasts of masters' machines: the step by which one grows, with the packets of the event, and that all others stay.
pub fn masters_go_on()
    ensures { MastersGoOn }
{}

/// In every run, the packets of each event of a master are those that its machine sends by that step.
pub fn masters_send()
    ensures { MastersSend }
{}
