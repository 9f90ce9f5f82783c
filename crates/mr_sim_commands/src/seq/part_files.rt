//! Files as they are printed.
ghost use Rattle.std.specs.Prelude.{◌≡◌, ◌++◌, ◌≤◌, IfOk, OnOk, length, map};
ghost use Rattle.mr_sim_commands.specs.seq.PartFiles.{file_text, part_files_text};

use itoa::Buffer;
use mr_paths::part_name;
use std::alloc::{AllocError, Global};

/// A file: its name and its length, and then its bytes.
pub fn print_file(out: &mut Vec<u8>, name: &[u8], bytes: &[u8]) -> Result<(), AllocError>
    ensures { OnOk result (out.new.items ≡ out.old.items ++ file_text name.now bytes.now) }
{
    let mut buffer = Buffer::new();
    out.extend_from_slice(b"== ")?;
    out.extend_from_slice(name)?;
    out.extend_from_slice(b" ")?;
    out.extend_from_slice(buffer.format(bytes.len()).as_bytes())?;
    out.extend_from_slice(b"\n")?;
    out.extend_from_slice(bytes)
}

/// The part files of a job's reduces, in order.
pub fn part_files_text(alloc: Global, files: &[Vec<u8>]) -> Result<Vec<u8>, AllocError>
    requires { length files.now ≤ 1000 }
    ensures { IfOk result (λ text. text.items ≡ part_files_text 0 (map (λ file. file.items) files.now)) }
{
    let mut text = Vec::new(alloc);
    let mut reduce = 0u32;
    for file in files {
        let name = part_name(alloc, reduce)?;
        print_file(&mut text, name.as_bytes(), file)?;
        reduce += 1;
    }
    Ok(text)
}
