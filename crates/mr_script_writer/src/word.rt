//! The words of a command, written behind what is there.
ghost use Rattle.std.specs.Prelude.{◌≡◌, ◌++◌, ◌∷◌, [], OnOk, decimal};
ghost use Rattle.mr_script.specs.Words.{container_word, kind_word};

use itoa::Buffer;
use mr_ids::TaskKind;
use mr_packet::ContainerId;
use std::alloc::AllocError;

/// A number in decimal.
pub fn put_number(out: &mut Vec<u8>, number: u64) -> Result<(), AllocError>
    ensures { OnOk result (out.new.items ≡ out.old.items ++ decimal number) }
{
    let mut buffer = Buffer::new();
    out.extend_from_slice(buffer.format(number).as_bytes())
}

/// A number below 2^32 in decimal.
pub fn put_small(out: &mut Vec<u8>, number: u32) -> Result<(), AllocError>
    ensures { OnOk result (out.new.items ≡ out.old.items ++ decimal number) }
{
    put_number(out, u64::from(number))
}

/// A space.
pub fn put_space(out: &mut Vec<u8>) -> Result<(), AllocError>
    ensures { OnOk result (out.new.items ≡ out.old.items ++ 32 ∷ []) }
{
    out.extend_from_slice(b" ")
}

/// The letter of a kind of tasks.
pub fn put_kind(out: &mut Vec<u8>, kind: TaskKind) -> Result<(), AllocError>
    ensures { OnOk result (out.new.items ≡ out.old.items ++ kind_word kind) }
{
    match kind {
        TaskKind::Map => out.extend_from_slice(b"m"),
        TaskKind::Reduce => out.extend_from_slice(b"r"),
    }
}

/// A container: the generation of its master, a full stop and its number.
pub fn put_container(out: &mut Vec<u8>, c: &ContainerId) -> Result<(), AllocError>
    ensures { OnOk result (out.new.items ≡ out.old.items ++ container_word c.now) }
{
    put_small(out, c.app.number())?;
    out.extend_from_slice(b".")?;
    put_small(out, c.number)
}
