//! Laws of the answer: these functions do nothing.
ghost use Rattle.mr_out_winners.specs.Laws.{YesMeansWhole};

/// Whatever was recorded and seen: the answer is yes only where the marker was seen first, the job was not ended as failed, and of each task the winner's
/// file was seen, of the length that was noted.
pub fn yes_means_whole()
    ensures { YesMeansWhole }
{}
