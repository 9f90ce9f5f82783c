//! A job: the index of lines, with all positions at which each word stands.
ghost use Rattle.std.specs.Prelude.{◌≡◌, ◌≤◌, ◌^◌, ◌++◌, length, map, IfOk, OnOk};
ghost use Rattle.std.specs.List.{join_with_byte};
ghost use Rattle.mr_jobs.specs.Words.{words_of};
ghost use Rattle.mr_jobs.specs.LineIndex.{line_index, position_text};
ghost use Rattle.mr_jobs.specs.inner.LineIndexProofs.{line_index_laws};

use crate::word::{word_partition, word_texts};
use mr_user::{Job, Position, Text, UserFault, one};
use std::alloc::{AllocError, Global};

/// Where each word stands: a position for each time, in order.
#[derive(Clone, Copy, Debug)]
pub struct LineIndex;

impl Job for LineIndex {
    type Key = Text;

    type Value = Position;

    ghost functions = { line_index };

    ghost laws = { line_index_laws };

    fn map(
        &self,
        alloc: Global,
        split: u32,
        line_no: u64,
        line: &[u8],
    ) -> Result<Vec<(Text, Position)>, UserFault> {
        let position = Position {
            split,
            line: line_no,
        };
        Ok(placed(alloc, line, position)?)
    }

    fn partition(&self, key: &Text, reduces: u32) -> u32 {
        word_partition(key, reduces)
    }

    fn combine(
        &self,
        alloc: Global,
        _key: &Text,
        values: &[Position],
    ) -> Result<Vec<Position>, AllocError> {
        Vec::from_slice(alloc, values)
    }

    fn reduce(
        &self,
        alloc: Global,
        _key: &Text,
        values: &[Position],
    ) -> Result<Vec<Vec<u8>>, AllocError> {
        one(alloc, joined(alloc, values)?)
    }

    fn key_text(&self, alloc: Global, key: &Text) -> Result<Vec<u8>, AllocError> {
        Vec::from_slice(alloc, key.as_slice())
    }
}

// Each word of a line with the line's position.
fn placed(
    alloc: Global,
    line: &[u8],
    position: Position,
) -> Result<Vec<(Text, Position)>, AllocError>
    requires { length line.now ≤ 2 ^ 24 }
    ensures { IfOk result (λ pairs. pairs.items ≡ map (λ word. (word, position)) (words_of line.now)) }
{
    let mut pairs = Vec::new(alloc);
    for word in word_texts(alloc, line)? {
        pairs.push((word, position))?;
    }
    Ok(pairs)
}

// The texts of positions, a comma between two.
fn joined(alloc: Global, positions: &[Position]) -> Result<Vec<u8>, AllocError>
    ensures { IfOk result (λ text. text.items ≡ join_with_byte 44 (map position_text positions.now)) }
{
    let mut text = Vec::new(alloc);
    for position in positions {
        if !text.is_empty() {
            text.push(b',')?;
        }
        write_position(alloc, position, &mut text)?;
    }
    Ok(text)
}

// Appends a position's text.
fn write_position(alloc: Global, position: &Position, out: &mut Vec<u8>) -> Result<(), AllocError>
    ensures { OnOk result (out.new.items ≡ out.old.items ++ position_text position.now) }
{
    out.extend_from_slice(position.split.to_string(alloc)?.as_bytes())?;
    out.push(b':')?;
    out.extend_from_slice(position.line.to_string(alloc)?.as_bytes())
}
