//! The times that the lines of a file write.

ghost use Rattle.std.specs.Prelude.{◌≡◌, ◌^◌, ◌<◌, [], ◌∷◌, length, All, IfOk, IfSome, MatchOption};
ghost use Rattle.std.specs.Str.Lines.{lines, strip_carriage_return};
ghost use Rattle.mt_model.specs.Log.{IsWithin};
ghost use Rattle.mt_model.specs.declared.limits.TheConstants.{MAX_TIME};
ghost use Rattle.times_read.specs.TimesOf.{Answers, time_in, times_of};

use crate::TimesFault;
use decimal::signed_number;
use memchr::memchr;
use mt_model::{MAX_TIME, Times};
use std::alloc::Global;

// The bytes before a newline, less one carriage return at their end.
fn line_before(bytes: &[u8]) -> &[u8]
    ensures { result.now ≡ strip_carriage_return bytes.now }
{
    match bytes {
        [line @ .., b'\r'] => line,
        _ => bytes,
    }
}

// The first line, and the bytes after it.
fn next_line(bytes: &[u8]) -> Option<(&[u8], &[u8])>
    ensures { MatchOption result (lines bytes.now ≡ []) (λ r. lines bytes.now ≡ r.0.now ∷ lines r.1.now) }
{
    match memchr(b'\n', bytes) {
        Some(end) => Some((line_before(&bytes[..end]), &bytes[end + 1..])),
        None if bytes.is_empty() => None,
        None => Some((bytes, &[])),
    }
}

// The time that a line writes.
fn time(line: &[u8]) -> Option<i128>
    ensures value { result ≡ time_in line.now }
    ensures range { IfSome result (IsWithin MAX_TIME) }
{
    signed_number(line, MAX_TIME)
}

/// The times that the first `count` lines of a file's bytes write, where it has no more lines.
///
/// A time is a whole number from -10^19 to 10^19 in decimal, in the log's unit. A line ends with a newline,
/// which may be missing after the last one; one carriage return before the newline is left out. The fault
/// is that of the first of those lines that writes no time, else of the first line that is missing or too
/// many; or it is want of memory.
pub fn read_times(alloc: Global, bytes: &[u8], count: usize) -> Result<Times, TimesFault>
    requires few { count < 2 ^ 31 }
    ensures answer { Answers result (times_of count bytes.now) }
    ensures range { IfOk result (λ t. All (IsWithin MAX_TIME) t) }
    ensures full { IfOk result (λ t. length t ≡ count) }
{
    let mut times = Times::new(alloc);
    let mut rest = bytes;
    for number in 0..count {
        let place = number as u32 + 1;
        let Some((line, after)) = next_line(rest) else {
            return Err(TimesFault::Count { line: place });
        };
        let Some(time) = time(line) else {
            return Err(TimesFault::Number { line: place });
        };
        times.push(time)?;
        rest = after;
    }
    match next_line(rest) {
        None => Ok(times),
        Some(_) => Err(TimesFault::Count {
            line: count as u32 + 1,
        }),
    }
}
