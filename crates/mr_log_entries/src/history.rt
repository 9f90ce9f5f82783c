//! The job history that a log tells: its records are those of mr_history.
ghost use Rattle.std.specs.Prelude.{◌≡◌, ◌++◌, ◌∷◌, [], IfOk, IfSome, OnOk};
ghost use Rattle.mr_history.specs.Line.{IsRecordOf};
ghost use Rattle.mr_ids.specs.declared.id.JobId.{JobId};
ghost use Rattle.mr_ids.specs.Text.{IsJob};
ghost use Rattle.mr_log_entries.specs.Histories.{record_of, records_of};
ghost use Rattle.mr_log_entries.specs.Recorded.{lines_of};
ghost use Rattle.mr_log_entries.specs.Texts.{IsLineOf};

use crate::entry::Entry;
use crate::line::Line;
use mr_history::{Record, Records};
use std::alloc::{AllocError, Global};

impl Line {
    /// The record of the job history that the line is, if it is one: a master writes down no
    /// publication.
    pub fn record(&self) -> Option<Record>
        ensures { result ≡ record_of self.now }
    {
        match *self {
            Line::Started(attempt) => Some(Record::AttemptStarted { attempt, node: 0 }),
            Line::Won { attempt, handed: _ } => Some(Record::ReduceSucceeded {
                attempt,
                bytes: None,
            }),
            Line::Failed(attempt) => Some(Record::AttemptFailed { attempt }),
            Line::Interrupted(attempt) => Some(Record::AttemptFailed { attempt }),
            Line::Unsuccessful => Some(Record::JobUnsuccessful),
            Line::Publish | Line::Published => None,
        }
    }
}

/// The job history that these entries tell: what a master would have written down, in order.
#[tactic(auto, unfolding(crate::specs::Recorded::lines_of))]
pub fn records_of(alloc: Global, entries: &[Entry]) -> Result<Records, AllocError>
    ensures { IfOk result (λ records. records ≡ records_of (lines_of entries.now)) }
{
    let mut records = Records::new(alloc);
    for entry in entries {
        push_records(&mut records, entry.lines.as_slice())?;
    }
    Ok(records)
}

fn push_records(records: &mut Records, lines: &[Line]) -> Result<(), AllocError>
    ensures { OnOk result (records.new ≡ records.old ++ records_of lines.now) }
{
    for line in lines {
        push_record(records, line)?;
    }
    Ok(())
}

fn push_record(records: &mut Records, line: &Line) -> Result<(), AllocError>
    ensures { OnOk result (records.new ≡ records.old ++ records_of (line.now ∷ [])) }
{
    match line.record() {
        Some(record) => records.push(record),
        None => Ok(()),
    }
}

/// A law, which does nothing: the line of a job's log is told as a record that has a line in a
/// segment of version 1.
pub fn records_have_lines()
    ensures { (j : JobId) (line : Line) → IsJob j → IsLineOf j line → IfSome (record_of line) (IsRecordOf 1) }
{}
