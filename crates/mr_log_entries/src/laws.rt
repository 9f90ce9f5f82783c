//! How long entries are: these functions do nothing.
ghost use Rattle.std.specs.Prelude.{◌≡◌, ◌<◌, ◌≤◌, ◌^◌, ◌∷◌, [], length};
ghost use Rattle.mr_ids.specs.declared.id.JobId.{JobId};
ghost use Rattle.mr_log_entries.specs.declared.entry.Entry.{Entry};
ghost use Rattle.mr_log_entries.specs.declared.entry.Origin.{Origin};
ghost use Rattle.mr_log_entries.specs.declared.line.Line.{Line};
ghost use Rattle.mr_log_entries.specs.Texts.{entry_text, line_text, origin_text, IsLineOf, IsOrigin, IsUsual};

/// An entry of one line, whose numbers are as most jobs have them, has at most 59 bytes, whatever
/// its boot and its id: the file system ext4 keeps so many where the link itself stands. Its
/// seconds are below 2^42.
pub fn usual_entries_are_short()
    ensures { (e : Entry) (line : Line) → e.lines ≡ line ∷ [] → IsUsual line → IsOrigin e.origin → e.origin.time < 2 ^ 42 → length (entry_text e) ≤ 59 }
{}

/// The text of an origin has at most `MAX_ORIGIN_LEN` bytes.
pub fn origins_fit()
    ensures { (o : Origin) → IsOrigin o → length (origin_text o) ≤ 35 }
{}

/// A line takes at most `MAX_LINE_LEN` bytes, the semicolon that ends it included.
pub fn lines_fit()
    ensures { (job : JobId) (line : Line) → IsLineOf job line → length (line_text line) < 46 }
{}
