//! What a step changes, decided before it is taken.
ghost use Rattle.std.specs.Prelude.{◌≡◌, ◌↔◌, IsTrue};
ghost use Rattle.mr_master_state.specs.Prepared.{room_of};
ghost use Rattle.mr_master_state.specs.Told.{due_count};
ghost use Rattle.mr_master_state.specs.declared.change.Change.TheVariants as change;

use crate::blame::Blame;
use crate::boxed::Boxed;
use mr_commit::Following;
use mr_history::Record;
use mr_ids::{AttemptId, TaskId};
use mr_master_model::Launch;
use mr_master_phase::Work;
use mr_master_tables::{Earlier, Nodes};
use mr_master_tasks::{Ending, Tasks};
use mr_task::{DoneReply, TaskMachine};

/// What changes. To make the change takes no memory. What is large stands in a box, since a change is moved often.
#[derive(Drop)]
pub enum Change {
    /// Nothing.
    Nothing,
    /// The work alone.
    Becomes(Work),
    /// The committer's table goes on with these lines.
    GoesOn(Following),
    /// The earlier segments were read.
    HasRead {
        /// What they tell.
        records: Boxed<Earlier>,
        /// The work that is next.
        work: Work,
    },
    /// A reduce was taken over. The reduces that are left after the next one are moved to the work that is next.
    EntersOne {
        /// Where the task's machine is.
        place: usize,
        /// The machine of the task from then on.
        machine: Boxed<TaskMachine>,
        /// The work that is next.
        work: Work,
    },
    /// The master begins to run.
    Enters {
        /// The machines of the tasks from then on.
        tasks: Boxed<Tasks>,
        /// The work that is next.
        work: Work,
    },
    /// An attempt was barred: it ends.
    Dies(AttemptId),
    /// The first record due was appended.
    Appends,
    /// All that was appended is stable.
    Flushes(Work),
    /// An attempt is heard of.
    Hears {
        /// Where its task's machine is.
        place: usize,
        attempt: AttemptId,
    },
    /// An attempt asks for permission to commit.
    Asks {
        /// Where its task's machine is.
        place: usize,
        attempt: AttemptId,
        /// The machine of its task from then on.
        machine: Boxed<TaskMachine>,
    },
    /// An attempt says that it is done.
    Reports {
        /// Where its task's machine is.
        place: usize,
        attempt: AttemptId,
        /// What it is answered.
        reply: DoneReply,
        /// The record that is due, where it is accepted now.
        due: Option<Record>,
    },
    /// An attempt ended.
    Ends {
        /// Where its task's machine is.
        place: usize,
        attempt: AttemptId,
        /// How it ended.
        end: Ending,
        /// Whose failure that is.
        blame: Blame,
    },
    /// The output of an attempt is lost.
    Loses {
        /// Where its task's machine is.
        place: usize,
        attempt: AttemptId,
    },
    /// A node is known in a higher incarnation.
    Knows {
        node: u32,
        /// The incarnation, from then on.
        incarnation: u32,
        /// What is known of the nodes then.
        nodes: Nodes,
        /// The attempts that end.
        dead: Vec<AttemptId>,
        /// The attempts whose outputs are lost.
        lost: Vec<AttemptId>,
    },
    /// An attempt is launched.
    Launches {
        /// Where its task's machine is.
        place: usize,
        attempt: AttemptId,
        /// The machine of its task from then on.
        machine: Boxed<TaskMachine>,
        /// Where it is launched, and in which container.
        launch: Launch,
    },
    /// A node is given up.
    GivesUp {
        /// The attempts that end.
        dead: Vec<AttemptId>,
        /// The attempts whose outputs are lost.
        lost: Vec<AttemptId>,
        /// The attempts whose bars are due, if they were not.
        late: Vec<AttemptId>,
    },
}

/// What room a change wants.
#[derive(Clone, Copy, Debug, PartialEq, Eq)]
pub enum Room {
    /// For this number of records that come due.
    Records(usize),
    /// For a launch of the task on the node, and its record.
    Launch(TaskId, u32),
    /// For this number of bars.
    Bars(usize),
}

impl Change {
    // Whether nothing changes.
    pub(crate) fn is_nothing(&self) -> bool
        ensures { IsTrue result ↔ self.now ≡ change.Nothing }
    {
        matches!(self, Change::Nothing)
    }

    // What room it wants.
    pub(crate) fn room(&self) -> Room
        ensures { result ≡ room_of self.now }
    {
        match self {
            Change::Reports { due, .. } => Room::Records(due_count(due)),
            Change::Ends { blame, .. } => Room::Records(blame.record_count()),
            Change::Launches {
                attempt,
                launch,
                ..
            } => Room::Launch(attempt.task(), launch.node),
            Change::GivesUp { late, .. } => Room::Bars(late.len()),
            _ => Room::Records(0),
        }
    }
}

fn due_count(due: &Option<Record>) -> usize
    ensures { result ≡ due_count due.now }
{
    match due {
        Some(_) => 1,
        None => 0,
    }
}
