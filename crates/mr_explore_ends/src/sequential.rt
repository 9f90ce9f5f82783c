//! The files of the sequential execution.
ghost use Rattle.std.specs.Prelude.{◌≡◌};
ghost use Rattle.std.specs.List.{list_all};
ghost use Rattle.std.specs.Option.{option_map};
ghost use Rattle.mr_explore_ends.specs.Rows.{as_end};
ghost use Rattle.mr_explore_ends.specs.Text.{is_sequential, is_sequential_if_marked, marked_are_sequential};

use crate::outcome::Outcome;
use crate::row::Row;
use crate::table::Table;
use std::marker::Model;

/// What `seq` prints of a job, if it prints anything.
#[derive(Debug, Drop)]
pub struct Sequential {
    files: Option<Vec<u8>>,
}

impl Model for Sequential {
    ghost use Rattle.std.specs.Option.{option_map};
    ghost use Rattle.mr_explore_ends.specs.Text as text;

    ghost Value = { text.Sequential };

    ghost view = { λ s. record { files = option_map (λ v. v.items) s.files } };
}

impl Sequential {
    /// What `seq` prints of a job, if it prints anything.
    pub fn new(files: Option<Vec<u8>>) -> Sequential
        ensures { result ≡ record { files = option_map (λ v. v.items) files } }
    {
        Sequential { files }
    }

    /// Whether the files of an end are just those that `seq` prints.
    pub fn is_of(&self, end: &Outcome) -> bool
        ensures { result ≡ is_sequential self.now end.now }
    {
        match &self.files {
            Some(files) => end.files() == files.as_slice(),
            None => false,
        }
    }
}

/// Whether wherever the marker is, the files are those of the sequential execution.
pub fn marked_are_sequential(table: &Table, sequential: &Sequential) -> bool
    ensures { result ≡ marked_are_sequential sequential.now table.now.ends }
{
    rows_are_sequential(table.rows(), sequential)
}

// The same, of rows.
fn rows_are_sequential(rows: &[Row], sequential: &Sequential) -> bool
    ensures { result ≡ list_all (λ row. is_sequential_if_marked sequential.now (as_end row)) rows.now }
{
    rows.iter()
        .all(|row| is_sequential_if_marked(sequential, row))
}

// Whether the marker is not there, or the files are those of the sequential execution.
fn is_sequential_if_marked(sequential: &Sequential, row: &Row) -> bool
    ensures { result ≡ is_sequential_if_marked sequential.now (as_end row.now) }
{
    !row.end.marker() || sequential.is_of(&row.end)
}
