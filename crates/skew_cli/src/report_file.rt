//! The file of a report.

ghost use Rattle.std.specs.Prelude.{◌≡◌, ◌^◌, ◌<◌, length, IfOk, IsErrOf};
ghost use Rattle.report_text.specs.Outlines.{IsOutlineIn};
ghost use Rattle.skew_commands.specs.Stops.{RefusesFor};
ghost use Rattle.skew_cli.specs.ReportTests.{TellsFaultyLine};

use report_text::{Outline, ReportFault, read_outline};
use skew_commands::{Refusal, Stop};
use std::alloc::Global;

// A file is refused at its first faulty line.
fn refused_at(line: u32) -> Stop
    ensures { result ≡ Stop.Refused (Refusal.Report line) }
{
    Stop::Refused(Refusal::Report { line })
}

/// The outline of the report that a file is.
pub fn outline_of(alloc: Global, file: &[u8]) -> Result<Outline, Stop>
    requires { length file.now < 2 ^ 31 }
    ensures outline { IfOk result (IsOutlineIn file.now) }
    ensures reads_nothing { IsErrOf result Stop.ReadFailed → ⊥ }
    ensures refused { RefusesFor result (TellsFaultyLine file.now) }
{
    match read_outline(alloc, file) {
        Ok(outline) => Ok(outline),
        Err(ReportFault::Syntax { line }) => Err(refused_at(line)),
        Err(ReportFault::Memory) => Err(Stop::NoMemory),
    }
}
