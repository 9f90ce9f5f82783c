//! Laws of paths and of the layout: these functions do nothing.
ghost use Rattle.std.specs.Prelude.{ℕ, List};
ghost use Rattle.mr_paths.specs.Laws.{TextsAreDistinct, PathsAreNested, PartedStayApart, LayoutIsNested, LayoutPartsWays, HiddenNames, PartNamesDiffer};

/// No two paths have one text.
pub fn texts_are_distinct()
    ensures { TextsAreDistinct }
{}

/// A path stands beneath another where it is that other and more names.
pub fn paths_are_nested()
    ensures { PathsAreNested }
{}

/// What stands at or beneath paths that part ways stays apart.
pub fn parted_stay_apart()
    ensures { PartedStayApart }
{}

/// What the layout's paths stand beneath.
pub fn layout_is_nested()
    ensures { (dest : List (List ℕ)) → LayoutIsNested dest }
{}

/// What stands beside one another in the layout parts ways.
pub fn layout_parts_ways()
    ensures { (dest : List (List ℕ)) → LayoutPartsWays dest }
{}

/// What the committer makes at a destination is hidden, but for the part files.
pub fn hidden_names()
    ensures { HiddenNames }
{}

/// The names of part files differ from one another and from the marker's.
pub fn part_names_differ()
    ensures { PartNamesDiffer }
{}
