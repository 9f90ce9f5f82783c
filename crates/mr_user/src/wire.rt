//! How keys and values are written as bytes between maps and reduces, and read again: the trait, and numbers as the first that have it.
ghost use Rattle.std.specs.Prelude.{◌≡◌, ◌++◌, ◌≤◌, ◌<◌, length, Some, None, IfOk, IfErr, OnOk, OnErr, IsTrue};
ghost use Rattle.mr_user.specs.Computation.{Codec};
ghost use Rattle.mr_user.specs.Laws.{CodecLaws};
ghost use Rattle.mr_user.specs.Codecs.{number_codec};
ghost use Rattle.mr_user.specs.Faults.{BadWireIf};
ghost use Rattle.mr_user.specs.inner.CodecProofs.{number_laws};

use crate::fault::UserFault;
use std::alloc::{AllocError, Global};

/// A type whose values can be written as bytes, and read again from the front of bytes.
/// What a value's bytes are depends on the value alone.
pub trait Wire: Drop {
    /// The form: a value's bytes, the reading of bytes, and which values fit.
    ghost codec: { Codec Self };

    /// Tells a proof that this value fits the form, as every value in hand does. It does nothing.
    fn fits(&self)
        ensures { IsTrue (codec.fits self.now) };

    /// Appends the value's bytes. Where memory is wanting it appends nothing.
    fn write(&self, out: &mut Vec<u8>) -> Result<(), AllocError>
        ensures ok { OnOk result (out.new.items ≡ out.old.items ++ codec.written self.now) }
        ensures err { OnErr result (out.new.items ≡ out.old.items) };

    /// Reads the value that the bytes begin with, and tells how many bytes it took.
    /// Answers `BadWire` where they begin with none.
    fn read(alloc: Global, bytes: &[u8]) -> Result<(Self, usize), UserFault>
        ensures read { IfOk result (λ found. codec.read_at bytes.now ≡ Some found) }
        ensures some { IfOk result (λ found. 0 < found.1) }
        ensures within { IfOk result (λ found. found.1 ≤ length bytes.now) }
        ensures bad { IfErr result (λ fault. BadWireIf fault (codec.read_at bytes.now ≡ None)) };

    /// What is written is read again; what is read fits, and was written so; no value is written as nothing.
    ghost laws: { CodecLaws codec };
}

/// A number is 8 bytes, the highest first.
impl Wire for u64 {
    ghost codec = { number_codec };

    ghost laws = { number_laws };

    fn fits(&self) {
        let _number = *self;
    }

    fn write(&self, out: &mut Vec<u8>) -> Result<(), AllocError> {
        out.extend_from_slice(&self.to_be_bytes())
    }

    fn read(_alloc: Global, bytes: &[u8]) -> Result<(u64, usize), UserFault> {
        if bytes.len() < 8 {
            return Err(UserFault::BadWire);
        }
        let number = u64::from_be_bytes([
            bytes[0], bytes[1], bytes[2], bytes[3], bytes[4], bytes[5], bytes[6], bytes[7],
        ]);
        Ok((number, 8))
    }
}
