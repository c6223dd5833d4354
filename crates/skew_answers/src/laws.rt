//! What holds of files of times.

ghost use Rattle.skew_answers.specs.Laws.{TimesReadBack};

/// A file with a number on each line has these numbers as its times.
pub fn times_read_back()
    ensures back { TimesReadBack }
{}
