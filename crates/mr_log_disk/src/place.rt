//! The names of an output directory, the folders in which they stand, and what may stand at a name.
ghost use Rattle.std.specs.Prelude.{◌≡◌};

use mr_ids::AttemptId;
use std::marker::Model;

/// A folder whose names become durable together, when it is synced.
#[derive(Clone, Copy, Debug, PartialEq, Eq)]
pub enum Folder {
    /// The output directory itself: what a reader sees.
    Output,
    /// A folder of a task's visible output, by its number; 0 is the task's own, which stands in the output directory.
    Beneath { task: u32, folder: u64 },
    /// What was handed in, by attempt, and the lists of it.
    Kept,
    /// Where attempts write.
    Work,
    /// A folder of what an attempt wrote, by its number; 0 is the attempt's own.
    Inside { attempt: AttemptId, folder: u64 },
    /// The entries of the log.
    Log,
}

/// A name of an output directory. Those of what an attempt wrote have numbers, in the order of their paths, from 1 on;
/// one that is a folder has the folder's number.
#[derive(Clone, Copy, Debug, PartialEq, Eq)]
pub enum Place {
    /// The visible output of a task, by the task's number: a file, or a folder.
    Top(u32),
    /// A name within the visible output of a task, and the folder in which it stands.
    Beneath {
        task: u32,
        item: u64,
        folder: u64,
    },
    /// The success marker.
    Marker,
    /// A name within the folder of an attempt, and the folder in which it stands.
    Inside {
        attempt: AttemptId,
        item: u64,
        folder: u64,
    },
}

/// What stands at a name.
#[derive(Clone, Copy, Debug, PartialEq, Eq)]
pub enum Node {
    /// A file, by the number that its disk gave it.
    File(u64),
    /// A folder.
    Folder,
}

/// A name of what an attempt handed in: its number, that of the folder in which it stands, what it is, and how many bytes
/// are in it (0 of a folder).
#[derive(Clone, Copy, Debug, PartialEq, Eq)]
pub struct Item {
    pub item: u64,
    pub folder: u64,
    pub node: Node,
    pub bytes: u64,
}

/// What an attempt handed in, in the order of its paths: a folder stands before all that is in it.
#[derive(Drop)]
pub struct Items {
    items: Vec<Item>,
}

impl Model for Items {
    ghost use Rattle.std.specs.Prelude.{List};
    ghost use Rattle.mr_log_disk.specs.declared.place.Item.{Item};

    ghost Value = { List Item };

    ghost view = { λ r. r.items.items };
}

impl Items {
    /// These, without a copy.
    pub fn from_vec(items: Vec<Item>) -> Items
        ensures { result ≡ items.items }
    {
        Items { items }
    }

    /// They as a slice.
    pub fn as_slice(&self) -> &[Item]
        ensures { result.now ≡ self.now }
    {
        &self.items
    }
}
