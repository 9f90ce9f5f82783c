//! The folder of an attempt that won is kept for another attempt. To give it another name costs less than to make one more and
//! to remove both, while others wait for the lock. Who won has written all that it writes, and the other attempt is one at
//! another task, whose file has another name.
use mr_ids::AttemptId;
use mr_out_layout::work_folder;
use std::alloc::AllocError;
use std::fs;

/// The folder of such folders.
pub(crate) const SPARE: &str = "_mrout/spare";

// How many of them are looked at, one of which may be empty.
const LOOKS: u32 = 4;

/// Keeps the folder of an attempt that won, if it is empty, for another attempt. Nobody need hold the lock. Where it can't be
/// kept, it is removed with the others.
pub fn keep_folder(rt: &HostRuntime, a: AttemptId) -> Result<(), AllocError> {
    let folder = work_folder(rt.alloc(), a)?;
    let spare = format!(in rt.alloc(); "{SPARE}/{a}")?;
    if is_empty(rt, &folder) {
        let _ = fs::rename(rt, folder.as_str(), spare.as_str());
    }
    Ok(())
}

/// Gives a folder that was kept this name, if there is an empty one. Whether it was given.
pub(crate) fn take_folder(rt: &HostRuntime, path: &str) -> Result<bool, AllocError> {
    let Ok(entries) = fs::read_dir(rt, SPARE) else {
        return Ok(false);
    };
    let mut looks = 0u32;
    for entry in entries {
        let Ok(entry) = entry else {
            return Ok(false);
        };
        let name = entry.file_name();
        let spare = format!(in rt.alloc(); "{SPARE}/{name}")?;
        if is_empty(rt, &spare) {
            return Ok(fs::rename(rt, spare.as_str(), path).is_ok());
        }
        looks = looks.saturating_add(1);
        if looks >= LOOKS {
            return Ok(false);
        }
    }
    Ok(false)
}

fn is_empty(rt: &HostRuntime, path: &str) -> bool {
    match fs::read_dir(rt, path) {
        Ok(mut entries) => entries.next().is_none(),
        Err(_) => false,
    }
}
