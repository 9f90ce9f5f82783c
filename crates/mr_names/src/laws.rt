//! Laws of the calls, which follow from their definitions alone: these functions do nothing.
ghost use Rattle.mr_names.specs.Rows.{NamespaceRefusals, RootRefusals, ReadAndForesee};
ghost use Rattle.mr_names.specs.Laws.{EachPath, MadeThere, CreatedThere, AppendedThere, ClosedThere, DeletedThere, RenamedThere, RenamedAway, RenameMoves, DeleteTakesOut, OthersStay, OnlyMakersMake, DirsStay, ClosedFilesStay, StaysTree, OpeningIsTree, NothingBeneath, FilesAreLeaves, AnsweredOnly, AnsweredAlways, BelowTheFence, BarredIsRefused, HeardIs, HeardHasItsOwn, AnsweredIsHeard, AnsweredMayBeMade, HeardAlike, RefusedStays, AnsweredIsMade, FenceStays, TreeStays, SoundStays, BarredGrow, OnlyBarBars, OthersBarNone, BarKeepsContent, BarBars, BarredForGood, ListsChildren, ListsInOrder};

/// What each path holds after a call that is answered.
pub fn each_path()
    ensures each { EachPath }
    ensures mkdirs { MadeThere }
    ensures create { CreatedThere }
    ensures append { AppendedThere }
    ensures close { ClosedThere }
    ensures delete { DeletedThere }
    ensures rename_to { RenamedThere }
    ensures rename_from { RenamedAway }
{}

/// What each path holds after a rename.
pub fn rename_moves()
    ensures { RenameMoves }
{}

/// What each path holds after a delete.
pub fn delete_takes_out()
    ensures { DeleteTakesOut }
{}

/// A call leaves as it was whatever it does not name. Nothing comes to be where a call makes nothing. Directories and closed
/// files stay where it takes nothing away.
pub fn others_stay()
    ensures others { OthersStay }
    ensures absent { OnlyMakersMake }
    ensures directories { DirsStay }
    ensures closed_files { ClosedFilesStay }
{}

/// The content stays a tree, in which nothing is beneath a file or where nothing is.
pub fn stays_tree()
    ensures stays { StaysTree }
    ensures opening { OpeningIsTree }
    ensures absent { NothingBeneath }
    ensures files { FilesAreLeaves }
{}

/// When a call is answered, its caller and the limit on barred attempts aside.
pub fn answered()
    ensures only { AnsweredOnly }
    ensures always { AnsweredAlways }
{}

/// What a call answers and leaves, by its caller and by its own refusal.
pub fn settles()
    ensures below { BelowTheFence }
    ensures barred { BarredIsRefused }
    ensures heard { HeardIs }
    ensures own { HeardHasItsOwn }
    ensures answered { AnsweredIsHeard }
    ensures may_be { AnsweredMayBeMade }
    ensures alike { HeardAlike }
    ensures refused { RefusedStays }
    ensures made { AnsweredIsMade }
    ensures fence { FenceStays }
    ensures tree { TreeStays }
    ensures sound { SoundStays }
{}

/// The barred attempts only grow, and only by bars; a bar changes no content. From a bar that was answered on, each
/// call whose caller has that attempt is refused, whoever called or raised the fence in between.
pub fn bars_stay()
    ensures grow { BarredGrow }
    ensures only { OnlyBarBars }
    ensures others { OthersBarNone }
    ensures content { BarKeepsContent }
    ensures bars { BarBars }
    ensures for_good { BarredForGood }
{}

/// A listing has what is directly beneath its path, each name once, by its bytes.
pub fn listings()
    ensures children { ListsChildren }
    ensures order { ListsInOrder }
{}

/// Some runs of calls on a new namespace, with their answers.
pub fn runs()
    ensures refusals { NamespaceRefusals }
    ensures root { RootRefusals }
    ensures reading { ReadAndForesee }
{}
