//! The records of a file's text, taken apart by `csv`.

ghost use Rattle.std.specs.Prelude.{◌≡◌, ◌<◌, ◌∷◌, ◌++◌, [], length, Some, Ok, IfErr, IfOk, OnOk, true};
ghost use Rattle.csv.specs.Reading.{AreRecords, default_config, error_kind, records, stops_reader, strip_bom};
ghost use Rattle.csv.specs.Records.{Row, field_at, fields_of};
ghost use Rattle.csv.specs.declared.parser.State.TheVariants as st;

use crate::fields::{Fields, RecordList};
use csv::{ByteRecord, ErrorKind, ReaderBuilder};
use std::alloc::{AllocError, Global};

fn field_of(row: &ByteRecord, i: usize) -> &[u8]
    requires { i < length (fields_of row.now) }
    ensures { field_at (fields_of row.now) i ≡ Some result.now }
{
    match row.get(i) {
        Some(field) => field,
        None => unreachable!(),
    }
}

// The fields of a record of `csv`.
fn copied(alloc: Global, row: &ByteRecord) -> Result<Fields, AllocError>
    ensures { IfOk result (λ f. f ≡ fields_of row.now) }
{
    let mut fields = Fields::new(alloc);
    for i in 0..row.len() {
        fields.push(field_of(row, i))?;
    }
    Ok(fields)
}

// Adds the fields of a record that `csv` read, or tells that memory lacks where it read none.
fn keep(
    alloc: Global,
    list: &mut RecordList,
    read: csv::Result<ByteRecord>,
) -> Result<(), AllocError>
    requires { IfErr read (λ e. stops_reader (error_kind e) ≡ true) }
    ensures ok { OnOk result ((row : Row) × (read ≡ Ok row) × (list.new ≡ list.old ++ fields_of row ∷ [])) }
{
    match read {
        Ok(row) => {
            list.push(copied(alloc, &row)?)?;
            Ok(())
        }
        Err(error) => match error.kind() {
            ErrorKind::Io(_) | ErrorKind::OutOfMemory => Err(AllocError),
            _ => unreachable!(),
        },
    }
}

/// The records of a text, of any number of fields, none of them set apart as a header.
pub fn all_records(alloc: Global, text: &[u8]) -> Result<RecordList, AllocError>
    ensures records { IfOk result (λ list. AreRecords default_config st.StartRecord (strip_bom text.now) list) }
{
    let rdr = ReaderBuilder::new()
        .has_headers(false)
        .flexible(true)
        .from_reader(alloc, text);
    let mut list = RecordList::new(alloc);
    for read in rdr.into_byte_records() {
        keep(alloc, &mut list, read)?;
    }
    Ok(list)
}
