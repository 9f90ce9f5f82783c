//! A law of the definitions: this function does nothing.
ghost use Rattle.mr_script_writer.specs.Laws.{ScriptsAreReadBack};

/// The script of events that a script can say, with a text behind it as comments, is read as just their commands, in order.
pub fn scripts_are_read_back()
    ensures { ScriptsAreReadBack }
{}
