//! Records by the columns of the header.

/// The fields of a record after its first one, by the columns of the header `kind,host,time,name`, and the place of the
/// record, from 1. What stands in a column depends on the kind of the record.
#[derive(Clone, Copy)]
pub struct Columns<'a> {
    pub place: u32,
    pub host: &'a [u8],
    pub time: &'a [u8],
    pub name: &'a [u8],
}
