//! Laws of the rows of a table, for whoever reasons about runs: these functions do nothing.
ghost use Rattle.mr_explore_least.specs.Laws.{GoalHasLeast, RowsAreLeast};

/// The rows of runs are the least runs to each end, in whatever order they came; and there is only one such list.
pub fn rows_are_the_least_runs()
    ensures { RowsAreLeast }
{}

/// The first row that meets a goal is the least of the runs that meet it. Where there is none, no run meets it.
pub fn first_that_meets_a_goal_is_least()
    ensures { GoalHasLeast }
{}
