//! Where a line stands, and how that is written as bytes: the values of the index of lines.
ghost use Rattle.std.specs.Prelude.{◌≡◌, ◌++◌, ◌≤◌, ◌<◌, length, Some, None, IfOk, IfErr, OnOk, IsTrue};
ghost use Rattle.mr_user.specs.Codecs.{position_codec};
ghost use Rattle.mr_user.specs.inner.CodecProofs.{position_laws};

use crate::fault::UserFault;
use crate::wire::Wire;
use std::alloc::{AllocError, Global};

/// Where a line stands: the number of its split and its number there, both from 0.
#[derive(Clone, Copy, Debug, PartialEq, Eq)]
pub struct Position {
    pub split: u32,
    pub line: u64,
}

/// A position is the split's number in 4 bytes and the line's in 8, the highest first.
impl Wire for Position {
    ghost codec = { position_codec };

    ghost laws = { position_laws };

    fn fits(&self) {
        let _split = self.split;
        let _line = self.line;
    }

    fn write(&self, out: &mut Vec<u8>) -> Result<(), AllocError> {
        let split = self.split.to_be_bytes();
        let line = self.line.to_be_bytes();
        out.extend_from_slice(&[
            split[0], split[1], split[2], split[3], line[0], line[1], line[2], line[3], line[4],
            line[5], line[6], line[7],
        ])
    }

    fn read(_alloc: Global, bytes: &[u8]) -> Result<(Position, usize), UserFault> {
        if bytes.len() < 12 {
            return Err(UserFault::BadWire);
        }
        let split = u32::from_be_bytes([bytes[0], bytes[1], bytes[2], bytes[3]]);
        let line = u64::from_be_bytes([
            bytes[4], bytes[5], bytes[6], bytes[7], bytes[8], bytes[9], bytes[10], bytes[11],
        ]);
        Ok((Position { split, line }, 12))
    }
}
