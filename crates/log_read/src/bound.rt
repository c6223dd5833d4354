//! Bounds: how much later a row is at most than another.

ghost use Rattle.std.specs.Prelude.{◌≡◌};
ghost use Rattle.log_read.specs.LogOf.{bound_fault, lacks_row};
ghost use Rattle.log_read.specs.Reading.{EntersBy};
ghost use Rattle.log_read.specs.Records.{bound_with, row_number};

use crate::LogFault;
use crate::columns::Columns;
use decimal::{number, signed_number};
use mt_model::{EventId, Extra, MAX_EXTRA, MAX_WRITTEN_EXTRAS};

/// One more than the greatest number that a bound may name a row by.
const ROW_NUMBERS: u128 = 1 << 32;

// The row that a field states the number of.
fn row_of(field: &[u8]) -> Option<EventId>
    ensures { result ≡ row_number field.now }
{
    match number(field, ROW_NUMBERS) {
        Some(row) => Some(EventId::new(row as u32)),
        None => None,
    }
}

/// The bound of a bound record's fields.
pub fn bound_of(later: &[u8], earlier: &[u8], most: &[u8]) -> Option<Extra>
    ensures bound { result ≡ bound_with later.now earlier.now most.now }
{
    Some(Extra {
        e: row_of(later)?,
        f: row_of(earlier)?,
        c: signed_number(most, MAX_EXTRA)?,
    })
}

/// The bound of a bound record's fields, after bounds that stand before it.
pub fn bound_entry(bounds: &[Extra], columns: Columns) -> Result<Extra, LogFault>
    ensures entry { EntersBy result columns.entry (λ place. bound_fault place bounds.now) bound_with }
{
    let Columns {
        place,
        host: later,
        time: earlier,
        name: most,
    } = columns;
    let Some(bound) = bound_of(later, earlier, most) else {
        return Err(LogFault::Number { place });
    };
    if bound.e == bound.f {
        return Err(LogFault::SameRow { place });
    }
    if bounds.len() >= MAX_WRITTEN_EXTRAS {
        return Err(LogFault::TooManyBounds { place });
    }
    Ok(bound)
}

/// Whether a bound names a row that so many rows lack.
pub fn is_without_row(bound: Extra, rows: usize) -> bool
    ensures lacks { result ≡ lacks_row rows bound }
{
    rows <= bound.e.get() as usize || rows <= bound.f.get() as usize
}
