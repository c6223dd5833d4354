//! What holds of logs, their timings and the truth of formulas.

ghost use Rattle.mt_model.specs.Before.{BeforeIsNotLater, CyclesExcludeTimings};
ghost use Rattle.mt_model.specs.Bounds.{BoundsAreAdmissible, UnbrokenIsAdmissible};
ghost use Rattle.mt_model.specs.Clocks.{BoundsOnlyExclude, ClocksOnlyExclude, FinerClocksExcludeMore, OffsetsByPairs};
ghost use Rattle.mt_model.specs.Laws.{ConflictExcludesTimings, PreviousRowIsLast};
ghost use Rattle.mt_model.specs.Limits.{FormulaLimits, LogLimits};
ghost use Rattle.mt_model.specs.TruthLaws.{PositionsAreTimes, TruthByRows, TruthIsTheTable, ValuesHaveTimings};
ghost use Rattle.mt_model.specs.VersionOne.{StatesOfVersionOneAreKept, VersionOneIsKept};
ghost use Rattle.mt_model.specs.VersionTwo.{VersionTwoIsKept};

/// Where bounds of a log form a closed walk of negative sum, the log admits no timing.
pub fn conflict_excludes_timings()
    ensures { ConflictExcludesTimings }
{}

/// The previous row of a row is the last one before it of its host, and a row has none exactly
/// where no row before it is of its host.
pub fn previous_row_is_last()
    ensures { PreviousRowIsLast }
{}

/// A valid log admits the lists of a time per row that, with offsets of its clocks, meet each of its
/// bounds, and no others.
pub fn bounds_are_admissible()
    ensures { BoundsAreAdmissible }
{}

/// A time per row breaks none of a valid log's bounds exactly where the log admits the timing.
pub fn unbroken_is_admissible()
    ensures { UnbrokenIsAdmissible }
{}

/// A log without resyncs, latencies and readings admits the timings that each host's one skew and gap, the
/// delay 1 of each message and the extra bounds allow, and no others. Without pulses a proposition is true
/// where the last row that sets or clears it sets it.
pub fn version_one_is_kept()
    ensures timings { VersionOneIsKept }
    ensures states { StatesOfVersionOneAreKept }
{}

/// A log without readings of clocks admits the timings that skews, gaps, delays and extra bounds allow,
/// and no others.
pub fn version_two_is_kept()
    ensures { VersionTwoIsKept }
{}

/// A timing has offsets of the clocks exactly where each two rows of one clock are ahead of their local
/// times by amounts that are apart by at most the errors of both.
pub fn offsets_by_pairs()
    ensures { OffsetsByPairs }
{}

/// A timing that a log admits is admitted without its clocks.
pub fn clocks_only_exclude()
    ensures { ClocksOnlyExclude }
{}

/// A timing that a log admits is admitted with any errors of readings made greater.
pub fn finer_clocks_exclude_more()
    ensures { FinerClocksExcludeMore }
{}

/// A timing that a log admits is admitted without its extra bounds.
pub fn bounds_only_exclude()
    ensures { BoundsOnlyExclude }
{}

/// The positions of a timing are the true times of the rows, each once, rising.
pub fn positions_are_times()
    ensures { PositionsAreTimes }
{}

/// Truth at the position of a row, and at the first position, is what the same words say of the rows,
/// where each row counts as a point of its own.
pub fn truth_by_rows()
    ensures { TruthByRows }
{}

/// What each form says at a position, in the words of metric temporal logic (Koymans 1990): until and
/// since are non-strict, and both ends of an interval are in it.
pub fn truth_is_the_table()
    ensures { TruthIsTheTable }
{}

/// Each value of a formula has an admissible timing that gives it, and a formula has no value exactly
/// where no timing is admissible.
pub fn values_have_timings()
    ensures { ValuesHaveTimings }
{}

/// What happens before a row (Lamport 1978) is not later than it, in any timing that the log admits.
pub fn before_is_not_later()
    ensures { BeforeIsNotLater }
{}

/// A log of which some row happens before itself admits no timing.
pub fn cycles_exclude_timings()
    ensures { CyclesExcludeTimings }
{}

/// The numbers that limit logs, timings and formulas.
pub fn limits_are_numbers()
    ensures log { LogLimits }
    ensures formula { FormulaLimits }
{}
