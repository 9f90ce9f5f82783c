//! Names and paths as `{}` writes them.
ghost use Rattle.std.specs.Prelude.{Some};
ghost use Rattle.std.specs.Str.Lossy.{utf8_lossy};
ghost use Rattle.mr_paths.specs.Text.{shown_text};

use crate::name::Name;
use crate::path::Path;
use std::fmt;

/// The bytes as text. Each part that is no UTF-8 is shown as U+FFFD.
impl fmt::Display for Name {
    ghost output = { λ name. Some (utf8_lossy name) };

    fn fmt<W: fmt::Write>(&self, f: &mut fmt::Formatter<W>) -> fmt::Result {
        let text = String::from_utf8_lossy(self.allocator(), self.as_bytes())?;
        f.write_str(&text)
    }
}

/// The path's text, its names shown as `Name` shows them.
impl fmt::Display for Path {
    ghost output = { λ path. Some (shown_text path) };

    fn fmt<W: fmt::Write>(&self, f: &mut fmt::Formatter<W>) -> fmt::Result {
        if self.is_root() {
            return f.write_str("/");
        }
        for name in self.names() {
            write!(f, "/{name}")?;
        }
        Ok(())
    }
}
