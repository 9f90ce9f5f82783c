//! The tables of a master, each of which is the only place that knows how it is kept. They are its launches, the
//! incarnations of nodes, its bars, the records that it writes, what the records of earlier masters say, the tasks by
//! node, and marks of places. The packets that it sends stand here too.
//!
//! None of them calls the namespace. The machine that keeps them is `mr_master_state`; which past it stands for is said there.
//!
//! # What is proved
//!
//! - Each call changes its table as its contract says, and answers what is stored. Where memory is refused a table is
//!   as it was, or it is let go by its owner.
//! - `Marks::first` is the first place that is marked. `Spread::next` passes over no task that is on the node.
//!   `Launches::next_on` passes over none of which an attempt was launched there, `Earlier::next_on` over no map of
//!   which the records say that an output lies there.
//! - `Earlier` answers by the last record of a success; `winners` are those of the recovery plan, by rising number.
//! - `Writing` gives the append or the flush that is due.
//! - `is_same` answers whether two tables of one kind hold the same, without spare room and without what follows from the rest: of
//!   `Launches` the launches and the Kills, of `Nodes` which incarnation of each node is known, of `Earlier` the records, of
//!   `Writing` the records that are due and those that were appended, of `Bars` the attempts.
//! - Memory may be taken by what makes or copies a table, by each `reserve`, by `Nodes::note`, `Spread::add` and
//!   `winners`, and by `push_won` and `push_outcome`. No other call takes any.
#![tactic(auto)]

mod bars;
mod by_task;
mod duty;
mod earlier;
mod gone;
mod launches;
mod marks;
mod nodes;
mod packets;
mod records;
mod spots;
mod successes;

pub use bars::Bars;
pub use by_task::ByTask;
pub use duty::Duty;
pub use earlier::{Earlier, tells_failure, winners};
pub use gone::Gone;
pub use launches::{Launches, both};
pub use marks::Marks;
pub use nodes::Nodes;
pub use packets::{kill, push_outcome, push_won, to_container, to_node};
pub use records::{Writing, either, is_unsuccessful};
pub use spots::{Spot, Spread, lower};
pub use successes::{Newest, Places, Success};
