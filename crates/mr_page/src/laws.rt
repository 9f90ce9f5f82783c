//! A law of the definitions: this function does nothing.
ghost use Rattle.mr_page.specs.Laws.{LinesStayWithin};

/// No `<` stands among the lines of a page.
pub fn lines_stay_within()
    ensures { LinesStayWithin }
{}
