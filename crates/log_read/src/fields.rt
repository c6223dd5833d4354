//! The fields of records, as bytes.

ghost use Rattle.std.specs.Prelude.{◌≡◌, [], ◌∷◌, ◌++◌, IfOk, OnOk, OnErr};

use mt_list::ListOf;
use std::alloc::{AllocError, Global};
use std::marker::Model;

/// One field of a record, which contracts see as its bytes.
#[derive(Drop)]
pub struct Field {
    bytes: Vec<u8>,
}

impl Model for Field {
    ghost use Rattle.std.specs.Prelude.{List, ℕ};

    ghost Value = { List ℕ };

    ghost view = { λ f. f.bytes.items };
}

impl Field {
    /// The field of these bytes.
    pub fn new(alloc: Global, bytes: &[u8]) -> Result<Field, AllocError>
        ensures bytes { IfOk result (λ f. f ≡ bytes.now) }
    {
        Ok(Field {
            bytes: bytes.to_vec(alloc)?,
        })
    }

    /// Its bytes.
    pub fn bytes(&self) -> &[u8]
        ensures bytes { result.now ≡ self.now }
    {
        &self.bytes
    }
}

/// One record, which contracts see as a list of byte strings.
#[derive(Drop)]
pub struct Fields {
    fields: Vec<Field>,
}

impl Model for Fields {
    ghost use Rattle.std.specs.Prelude.{List, ℕ};

    ghost Value = { List (List ℕ) };

    ghost view = { λ r. r.fields.items };
}

impl Fields {
    /// The record without fields, which takes no memory.
    pub fn new(alloc: Global) -> Fields
        ensures fields { result ≡ [] }
    {
        Fields {
            fields: Vec::new(alloc),
        }
    }

    /// Adds a field at the end; want of memory leaves the record as it was.
    pub fn push(&mut self, field: &[u8]) -> Result<(), AllocError>
        ensures ok { OnOk result (self.new ≡ self.old ++ field.now ∷ []) }
        ensures err { OnErr result (self.new ≡ self.old) }
    {
        let field = Field::new(*self.fields.allocator(), field)?;
        self.fields.push(field)?;
        Ok(())
    }

    /// The fields in order.
    pub fn as_slice(&self) -> &[Field]
        ensures fields { result.now ≡ self.now }
    {
        &self.fields
    }
}

/// Records in the order of their file.
pub type RecordList = ListOf<Fields>;
