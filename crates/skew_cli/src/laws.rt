//! What holds of the commands' answers, and of what one command answers to what another wrote.

ghost use Rattle.demo_log.specs.DemoLog.{SeedsAreConsistent, SeedsHaveLogs};
ghost use Rattle.skew_cli.specs.DemoLaws.{DemoUnknownIsBounded, DemosAreExact, DemosAreJudged};
ghost use Rattle.skew_cli.specs.Laws.{AcceptedFilesAreTrue, ChecksAreAccepted, ChecksAreExact, ChecksAreJudged, UnknownIsBounded, WitnessesAreReplayed};
ghost use Rattle.skew_cli.specs.TrimLaws.{AcceptedCanTrim, TrimsAreAccepted};

use log_read::logs_are_valid;
use mtl_parse::texts_are_unambiguous;
use proof_trim::trims_keep_refuting;
use report_text::{bytes_are_unambiguous, texts_read_back};
use verdict::{audits_are_exact, right_reports_are_accepted, spent_conflicts_are_bounded};

/// What `check` answers of a formula and a log within the limits: a right report, and the status of the values
/// that the formula can have over all timings that the log admits, or of a section that is unknown. It answers
/// such a status of no others.
pub fn checks_are_exact()
    ensures exact { ChecksAreExact }
    ensures judged { ChecksAreJudged }
{
    texts_are_unambiguous();
}

/// `audit` answers that a report is accepted only where what the report claims is true of the formula and the
/// log, whoever wrote it.
pub fn accepted_files_are_true()
    ensures { AcceptedFilesAreTrue }
{}

/// What `check` found and wrote is accepted by `audit`, with the same formula, log and number of conflicts, or it
/// is longer than a report file may be.
pub fn checks_are_accepted()
    ensures { ChecksAreAccepted }
{
    texts_are_unambiguous();
    bytes_are_unambiguous();
    texts_read_back();
    audits_are_exact();
    right_reports_are_accepted();
}

/// `check` leaves a value unknown only where the number of conflicts is below three to the power of the number of
/// atoms of the rules, and unit propagation over the rules alone doesn't refute the value.
pub fn unknown_is_bounded()
    ensures { UnknownIsBounded }
{
    spent_conflicts_are_bounded();
}

/// With the timing that `check` gave for a value, written with a number on each line, `replay` answers the value.
pub fn witnesses_are_replayed()
    ensures { WitnessesAreReplayed }
{
    texts_are_unambiguous();
    logs_are_valid();
}

/// Each seed has a valid log, which admits its local times, and of which the formula of the demo is judged. What `demo`
/// answers is the values that the formula can have over all timings that the log admits, or that a section is unknown.
pub fn demos_are_exact()
    ensures logs { SeedsHaveLogs }
    ensures consistent { SeedsAreConsistent }
    ensures judged { DemosAreJudged }
    ensures exact { DemosAreExact }
{}

/// `demo` leaves a value unknown only where its conflicts are fewer than three to the power of the number of atoms of the
/// rules, and unit propagation over the rules alone doesn't refute the value.
pub fn demo_unknown_is_bounded()
    ensures { DemoUnknownIsBounded }
{
    spent_conflicts_are_bounded();
}

/// A report that `audit` accepts can be trimmed, and trimmed it is accepted too, with the same formula, log and number of
/// conflicts.
pub fn trims_are_accepted()
    ensures can { AcceptedCanTrim }
    ensures accepted { TrimsAreAccepted }
{
    trims_keep_refuting();
    audits_are_exact();
}
