//! The cluster as definitions (in `specs/`, in the order of `specs/Lib.antt`), and what holds over every list of its events: each law stands on a
//! function that does nothing. `config` is the job and its limits. `within` is any test that may refuse any event, as the limits of a world do.
//!
//! # What is proved
//!
//! The cluster as definitions (`crates/mr_world_model/specs/`, 3,000 lines, in a reader's order), and what holds over **every
//! list of events**. Packets are delivered, lost, repeated and reordered; containers die; nodes restart or are given
//! up; masters crash and start. Store calls are lost, or their answers are. There is no code in this crate: each law is
//! the contract of a function that does nothing. **These are theorems about the definitions; of running code the
//! headline is `HeadlineHolds` of `mr_world`**, which rests on them. They have no premises, but for sequential files.
//! Proved:
//!
//! - the headline: `the_winner_stays`, `nodes_are_told_the_winner`, `a_marker_means_whole_files`, `a_marker_is_final`,
//!   `sequential_files`, `one_outcome`, `recovery_finds_the_winners`, `a_wrong_suspicion_does_no_harm`. (Expiries are
//!   events of the same lists, so all laws hold over them.) For each job of `mr_user`, sequential files have no premise
//!   but the limits on splits and map outputs: `files_of_jobs_are_sequential` (`mr_world_files`);
//! - the facts beneath it: `one_attempt_is_recorded`, `one_container_was_told_yes`,
//!   `the_committed_file_is_the_winners`, `the_published_files_are_the_winners`, `an_attempt_has_one_whole_output`,
//!   `recorded_lengths_are_right`;
//! - what these need beside them: `what_is_recorded_has_succeeded`, `only_the_recorded_may_commit`,
//!   `the_newest_committed_is_its_own`, `commits_are_allowed`, `attempts_hold_their_files`, `an_end_is_an_end`,
//!   `only_started_commits`, `aborts_are_marked`;
//! - a list of events stays faithful where an event more hands in what the definition says (`an_event_more_is_faithful`);
//! - what comes of a run for those outside, as an outcome and a list of files, stays (`results_stay`);
//! - which task is launched next, where it is asked for: one that may be launched, the first that waits, maps before reduces
//!   (`the_wanted_task_may_be_launched`);
//! - that it is not said of nothing: `a_marked_world_is_reached` (one job, event by event, to its told success);
//! - what ties the definitions to the crates beneath:
//!   - paths are the layout's (`paths_are_the_layouts`);
//!   - each call of the namespace, for callers with and without an attempt, is answered as the definitions say and
//!     leaves what they say. So is each call of the history, in both versions (`stores_are_the_models`);
//!   - so both stores go on as the world's at every event: starts, crashes, and the calls of masters and containers in
//!     each weather (`stores_go_on`);
//!   - whatever a master appends the history takes, in each version (`appended_records_fit`), and a living master was
//!     raised to (`masters_are_raised`);
//!   - what is read off the calls of a task's machine (`mr_task`) is what is read off the master's past
//!     (`calls_agree`). Its clause `agree` is of reduces. Its clause `maps` is of the maps of the job: also which
//!     attempts stand and which are recorded.
//!
//!   Its premises say that each step fits, as all steps of a run do (`pasts_are_made`);
//! - what ties containers and nodes to their machines:
//!   - their pasts, packets and calls are those of `mr_container`, `mr_node`, `mr_packet` and `mr_names`; what is read
//!     off them is what these machines are proved to read (`containers_agree`, `nodes_agree`);
//!   - so a machine that stands for its container's past in a run has the wish, call, caller and packet of the
//!     definitions (`containers_say`, under limits on what is handed in). It hears what the namespace answered
//!     (`answers_are_heard`);
//!   - what each kind of event changes of all machines of containers and nodes, who lives after it, and what it adds to
//!     the bag (`masters_act`, `containers_act`, `maps_act`, `nodes_act`);
//!   - a packet to a node goes to one of the cluster's (`packets_find_their_nodes`), and bytes are handed in only as
//!     wished (`pasts_are_wished`);
//!   - no container begins twice (`begins_once`), or is placed elsewhere than on one of the cluster's nodes
//!     (`places_are_nodes`).
//!
//! That a master here acts as its machine, at every point of a past, is proved in `mr_master_refinement`.
//!
//! What each word means: [README.md](../README.md#its-words). Why it holds:
//! [docs/INVARIANT.md](../../../docs/INVARIANT.md). That a world of machines which is run is one of these is said in `mr_world`.
#![tactic(auto)]

mod actors;

ghost use Rattle.mr_world_model.specs.Claims.{Limits, WinnerStays, NodesAreToldTheWinner, MarkerMeansWholeFiles, MarkerIsFinal, OneOutcome, RecoveryFindsTheWinners, WrongSuspicionDoesNoHarm};
ghost use Rattle.mr_world_model.specs.Claims.{OneAttemptIsRecorded, OneContainerWasToldYes, CommittedFileIsTheWinners, PublishedFilesAreTheWinners, OneWholeOutput, LengthsAreRight};
ghost use Rattle.mr_world_model.specs.Reachable.{AMarkedWorldIsReached};
ghost use Rattle.mr_world_model.specs.Beside.{AttemptsHoldTheirFiles, RecordedIsSucceeded, BeginsWithItsWinners, OnlyTheRecordedMayCommit, NewestCommittedIsItsOwn, CommitsAreAllowed, OverIsGoneOrBarred, OnlyStartedCommits, AbortsAreMarked};
ghost use Rattle.mr_world_model.specs.Laws.{PathsAreTheLayouts, StoresAreTheModels, AppendedRecordsFit, MastersAreRaised};
ghost use Rattle.mr_world_model.specs.Packets.{Config};
ghost use Rattle.mr_world_model.specs.Wanted.{WantedMayBeLaunched};
ghost use Rattle.mr_world_model.specs.Results.{ResultsStay};
ghost use Rattle.mr_world_model.specs.Calls.{CallsAgree, MapCallsAgree};
ghost use Rattle.mr_world_model.specs.Made.{PastsAreMade};
ghost use Rattle.std.specs.Prelude.{[]};
ghost use Rattle.mr_world_model.specs.Sequential.{Job, JobLaws, BoundsOutputs, IsFaithful, StaysFaithful, WholeIsSequential, MarkedFilesAreSequential};

pub use actors::{
    answers_are_heard, begins_once, containers_act, containers_agree, containers_say, maps_act,
    masters_act, nodes_act, nodes_agree, packets_find_their_nodes, pasts_are_wished,
    places_are_nodes, stores_go_on,
};

// The headline

/// A recorded winner never changes: the winner of a reduce after some events is its winner after any further ones.
pub fn the_winner_stays()
    ensures stays { (config : Config) (within : Limits) → WinnerStays config within }
{}

/// Every node that is told of a winner is told the recorded one. What was sent counts, delivered or not.
pub fn nodes_are_told_the_winner()
    ensures told { (config : Config) (within : Limits) → NodesAreToldTheWinner config within }
{}

/// Where the success marker is, a reader of the destination sees for each reduce its winner's whole file, closed, and nothing else.
pub fn a_marker_means_whole_files()
    ensures whole { (config : Config) (within : Limits) → MarkerMeansWholeFiles config within }
{}

/// Once the success marker is there, no later event takes it away or changes what is seen.
pub fn a_marker_is_final()
    ensures stays { (config : Config) (within : Limits) → MarkerIsFinal config within }
{}

/// With deterministic functions, a reduce's whole output, and so its file once the success marker is there, is what the sequential execution
/// writes (Dean and Ghemawat 3.3), which then exists. The premises are the two laws of a job, and that no map output beyond 2^24 bytes is taken.
pub fn sequential_files()
    ensures whole { (job : Job) (config : Config) (within : Limits) → JobLaws job config → BoundsOutputs within → WholeIsSequential job config within }
    ensures files { (job : Job) (config : Config) (within : Limits) → JobLaws job config → BoundsOutputs within → MarkedFilesAreSequential job config within }
{}

/// A list of events is faithful where each result that is taken is the definition's. An event more keeps it so, if it is not taken, or the
/// result that it hands in is the definition's. The list of no event is faithful. (Own.)
pub fn an_event_more_is_faithful()
    ensures more { (job : Job) (config : Config) (within : Limits) → StaysFaithful job config within }
    ensures none { (job : Job) (config : Config) (within : Limits) → IsFaithful job config within [] }
{}

/// No two outcomes that are told differ, success is told only where the marker is, and what is seen stays once an outcome, a failed one too, was told.
pub fn one_outcome()
    ensures one { (config : Config) (within : Limits) → OneOutcome config within }
{}

/// The outcome that was told first is the only one, and no further event changes it. The files that a reader of the
/// destination sees stay once the marker is there, or an outcome was told.
pub fn results_stay()
    ensures stay { (config : Config) (within : Limits) → ResultsStay config within }
{}

/// The newest master, while it runs, has found the winners of the earlier generations, and their whole files in its own
/// generation. Until it runs, if ever, it launches nothing. As it begins to, no other reduce has succeeded, and these
/// are the winners of all records. It never launches a reduce that had a winner, nor one whose success it accepted.
pub fn recovery_finds_the_winners()
    ensures finds { (config : Config) (within : Limits) → RecoveryFindsTheWinners config within }
    ensures first { (config : Config) (within : Limits) → BeginsWithItsWinners config within }
{}

/// A node may be given up whose containers still run: all laws here hold over lists with expiries too. From an answered bar on each call for that
/// attempt is refused and the attempt is over; an expiry alone ends no attempt of a reduce.
pub fn a_wrong_suspicion_does_no_harm()
    ensures hold { (config : Config) (within : Limits) → WrongSuspicionDoesNoHarm config within }
{}

/// None of this is said of nothing: where limits refuse nothing, some events of some job lead to its success, told and marked, with a file that has bytes.
pub fn a_marked_world_is_reached()
    ensures reached { AMarkedWorldIsReached }
{}

// The facts that it rests on

/// Every older segment is sealed, and a reduce has at most one attempt whose success is stable, in the newest tail, or due at the newest master.
pub fn one_attempt_is_recorded()
    ensures one { (config : Config) (within : Limits) → OneAttemptIsRecorded config within }
{}

/// Of one master's containers for one reduce, at most one that lives and is not barred was sent a yes.
pub fn one_container_was_told_yes()
    ensures yes { (config : Config) (within : Limits) → OneContainerWasToldYes config within }
{}

/// Until job commit or abort, the newest committed directory of a recorded attempt's reduce holds that attempt's whole file.
pub fn the_committed_file_is_the_winners()
    ensures kept { (config : Config) (within : Limits) → CommittedFileIsTheWinners config within }
{}

/// Whatever a reader of the destination sees, marked or not, is a reduce's winner's whole file.
pub fn the_published_files_are_the_winners()
    ensures winners { (config : Config) (within : Limits) → PublishedFilesAreTheWinners config within }
{}

/// An attempt has one whole output.
pub fn an_attempt_has_one_whole_output()
    ensures one { (config : Config) (within : Limits) → OneWholeOutput config within }
{}

/// A length that is recorded is that of the attempt's whole output, and no recovery stops for one.
pub fn recorded_lengths_are_right()
    ensures right { (config : Config) (within : Limits) → LengthsAreRight config within }
{}

// What these need beside them

/// While the newest master works, what is recorded of a reduce is exactly the attempt that succeeded for it.
pub fn what_is_recorded_has_succeeded()
    ensures exactly { (config : Config) (within : Limits) → RecordedIsSucceeded config within }
{}

/// Where an attempt is recorded, no container of its master that was launched for another attempt at its reduce lives, is not barred and was sent a yes.
pub fn only_the_recorded_may_commit()
    ensures alone { (config : Config) (within : Limits) → OnlyTheRecordedMayCommit config within }
{}

/// While the newest master runs or fails, its own generation has the newest committed directory of each recorded reduce.
pub fn the_newest_committed_is_its_own()
    ensures own { (config : Config) (within : Limits) → NewestCommittedIsItsOwn config within }
{}

/// A reduce's container that looks, clears, renames or reports was sent a yes; where it reports, its rename was answered.
pub fn commits_are_allowed()
    ensures allowed { (config : Config) (within : Limits) → CommitsAreAllowed config within }
{}

/// From the close of its file to the rename an attempt's directory has exactly that file, with the bytes that were handed in, or nothing is there.
pub fn attempts_hold_their_files()
    ensures hold { (config : Config) (within : Limits) → AttemptsHoldTheirFiles config within }
{}

/// The container of a reduce's attempt that is over does not live and never will, or the attempt is barred.
pub fn an_end_is_an_end()
    ensures gone { (config : Config) (within : Limits) → OverIsGoneOrBarred config within }
{}

/// Only an answered COMMIT_STARTED, with no record due and nothing unflushed that matters, begins a job commit; no failure is stable then.
pub fn only_started_commits()
    ensures begins { (config : Config) (within : Limits) → OnlyStartedCommits config within }
{}

/// A master that aborts a job commit has COMMIT_FAIL there.
pub fn aborts_are_marked()
    ensures marked { (config : Config) (within : Limits) → AbortsAreMarked config within }
{}

// What ties the definitions to the crates beneath

/// The model's paths are those of the committer's layout, at the destination of the cluster's job.
pub fn paths_are_the_layouts()
    ensures { PathsAreTheLayouts }
{}

/// A call of the namespace or of the history is the model's: what is heard of it, and what it leaves.
pub fn stores_are_the_models()
    ensures { StoresAreTheModels }
{}

/// Whatever a master appends the history takes, in each version: a length is at most a file's. What is stored tells a length exactly in version 2.
pub fn appended_records_fit()
    ensures { AppendedRecordsFit }
{}

/// A living master was raised to, and its attempts have the numbers of its generation.
pub fn masters_are_raised()
    ensures { MastersAreRaised }
{}

/// What is read off the calls that a reduce's machine gets is what is read off the master's past. So it is of a map's,
/// where all maps are the job's and the record that is appended is the first that is due. There it is also which
/// attempts stand and which are recorded.
pub fn calls_agree()
    ensures agree { CallsAgree }
    ensures maps { MapCallsAgree }
{}

/// Each step of a master's past is what an event makes. A launch is the next one of a task of the job that has no
/// fault, and a store call is the one that was due. What is read was written by earlier generations, and what asks to
/// commit is a reduce. The step that an event that may happen makes is such a step too. So launches, and what is taken
/// over, meet the conditions of `calls_agree`.
pub fn pasts_are_made()
    ensures { PastsAreMade }
{}

/// The task that a Running master launches next may be launched, on any node. It is the first that waits, a map before all reduces, and a reduce only
/// once every map is Succeeded.
pub fn the_wanted_task_may_be_launched()
    ensures { WantedMayBeLaunched }
{}
