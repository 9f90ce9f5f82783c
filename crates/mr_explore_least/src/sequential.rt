//! Whether the files of marked ends are those of the sequential execution.
ghost use Rattle.std.specs.Prelude.{◌≡◌};
ghost use Rattle.std.specs.List.{list_all};
ghost use Rattle.mr_explore_least.specs.Rows.{as_arrival};
ghost use Rattle.mr_explore_least.specs.Text.{is_sequential_if_marked, marked_are_sequential};

use crate::least::Least;
use crate::table::LeastTable;
use mr_explore_ends::Sequential;

/// Whether wherever the marker is, the files are those of the sequential execution.
#[tactic(auto, using(crate::proofs::Rows::all_marked))]
pub(crate) fn marked_are_sequential(table: &LeastTable, sequential: &Sequential) -> bool
    ensures { result ≡ marked_are_sequential sequential.now table.now.rows }
{
    rows_are_sequential(table.rows(), sequential)
}

// The same, of rows.
fn rows_are_sequential(rows: &[Least], sequential: &Sequential) -> bool
    ensures { result ≡ list_all (λ row. is_sequential_if_marked sequential.now (as_arrival row)) rows.now }
{
    rows.iter()
        .all(|row| is_sequential_if_marked(sequential, row))
}

// Whether the marker is not there, or the files are those of the sequential execution.
fn is_sequential_if_marked(sequential: &Sequential, row: &Least) -> bool
    ensures { result ≡ is_sequential_if_marked sequential.now (as_arrival row.now) }
{
    !row.end.marker() || sequential.is_of(&row.end)
}
