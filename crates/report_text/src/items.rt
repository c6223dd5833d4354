//! Items of which a number was announced. Memory is taken for those that were read alone. Each call answers what follows
//! them, or where and why reading stopped.

ghost use Rattle.std.specs.Prelude.{◌≡◌, [], MatchResult};
ghost use Rattle.mt_model.specs.declared.limits.TheConstants.{MAX_TIME};
ghost use Rattle.mt_model.specs.Log.{IsWithin};
ghost use Rattle.proof_log.specs.LinesText.{line_text};
ghost use Rattle.proof_log.specs.Spelled.{IsSpelled as IsSpelledLine};
ghost use Rattle.report_text.specs.Outlines.{ArePassed};
ghost use Rattle.report_text.specs.ReportText.{bound_text, time_text};
ghost use Rattle.report_text.specs.Spelled.{IsSpelledBound};
ghost use Rattle.report_text.specs.Stops.{AreBounds, AreDerivation, AreRead, AreTimes, AreTimesRead, Stopped};

use crate::front::{after_line, next_bound, next_time};
use crate::stop::Stop;
use mt_model::{Steps, Times};
use std::alloc::Global;

/// So many times.
pub fn read_times<'a>(times: &mut Times, count: u32, bytes: &'a [u8]) -> Result<&'a [u8], Stop>
    requires { times.old ≡ [] }
    ensures { MatchResult result (λ rest. AreTimesRead count bytes.now times.new rest.now) (Stopped (AreTimes count) bytes.now) }
{
    let mut rest = bytes;
    while times.len() < count as usize {
        let Some((time, after)) = next_time(rest) else {
            return Err(Stop::Syntax { left: rest.len() });
        };
        times.push(time)?;
        rest = after;
    }
    Ok(rest)
}

/// So many bounds of a log.
pub fn read_bounds<'a>(steps: &mut Steps, count: u32, bytes: &'a [u8]) -> Result<&'a [u8], Stop>
    requires { steps.old ≡ [] }
    ensures { MatchResult result (λ rest. AreRead IsSpelledBound bound_text count bytes.now steps.new rest.now) (Stopped (AreBounds count) bytes.now) }
{
    let mut rest = bytes;
    while steps.len() < count as usize {
        let Some((step, after)) = next_bound(rest) else {
            return Err(Stop::Syntax { left: rest.len() });
        };
        steps.push(step)?;
        rest = after;
    }
    Ok(rest)
}

/// So many times, of which none is kept.
pub fn pass_times(count: u32, bytes: &[u8]) -> Result<&[u8], Stop>
    ensures { MatchResult result (λ rest. ArePassed (IsWithin MAX_TIME) time_text count bytes.now rest.now) (Stopped (AreTimes count) bytes.now) }
{
    let mut rest = bytes;
    let mut passed = 0;
    while passed < count {
        let Some((_, after)) = next_time(rest) else {
            return Err(Stop::Syntax { left: rest.len() });
        };
        passed += 1;
        rest = after;
    }
    Ok(rest)
}

/// So many bounds of a log, of which none is kept.
pub fn pass_bounds(count: u32, bytes: &[u8]) -> Result<&[u8], Stop>
    ensures { MatchResult result (λ rest. ArePassed IsSpelledBound bound_text count bytes.now rest.now) (Stopped (AreBounds count) bytes.now) }
{
    let mut rest = bytes;
    let mut passed = 0;
    while passed < count {
        let Some((_, after)) = next_bound(rest) else {
            return Err(Stop::Syntax { left: rest.len() });
        };
        passed += 1;
        rest = after;
    }
    Ok(rest)
}

/// So many lines of a derivation, of which none is kept: memory is taken for the atoms of one of them.
pub fn pass_lines(alloc: Global, count: u32, bytes: &[u8]) -> Result<&[u8], Stop>
    ensures { MatchResult result (λ rest. ArePassed IsSpelledLine line_text count bytes.now rest.now) (Stopped (AreDerivation count) bytes.now) }
{
    let mut rest = bytes;
    let mut passed = 0;
    while passed < count {
        let Some(after) = after_line(alloc, rest)? else {
            return Err(Stop::Syntax { left: rest.len() });
        };
        passed += 1;
        rest = after;
    }
    Ok(rest)
}
