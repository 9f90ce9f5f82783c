//! Laws of the texts, for whoever reasons about identifiers: these functions do nothing.
ghost use Rattle.mr_ids.specs.Generations.{NumbersTellGenerations};
ghost use Rattle.mr_ids.specs.Laws.{TextsAreDistinct, TextsArePlain, NumeralsAreDistinct, NumeralsAreDigits};

/// No two identifiers have one text, of one kind or of different kinds.
pub fn texts_are_distinct()
    ensures { TextsAreDistinct }
{}

/// A text is of letters, digits and bars alone, and short, so it can name a file.
pub fn texts_are_plain()
    ensures { TextsArePlain }
{}

/// No two numbers have one numeral.
pub fn numerals_are_distinct()
    ensures { NumeralsAreDistinct }
{}

/// A numeral is of digits alone, at least as many as its width and no more than its number needs.
pub fn numerals_are_digits()
    ensures { NumeralsAreDigits }
{}

/// `AppAttempt::first_attempt_number` and `AttemptId::generation` are inverse: a number is a generation's exactly
/// where it is from the generation's first on and below that of the next.
pub fn numbers_tell_generations()
    ensures { NumbersTellGenerations }
{}
