//! The calls of a list of fields.
ghost use Rattle.std.specs.Prelude.{◌≡◌, ◌==◌, ◌<◌, ◌++◌, ◌∷◌, [], length, map, slice_get, IfOk, OnOk, OnErr, Some};
ghost use Rattle.sz_types.specs.Seen.{seen_field, seen_fields};

use crate::NoMemory;
use crate::copying::copy_list;
use crate::ty::{Field, Fields};
use std::alloc::Global;
use std::sync::Arc;

impl Fields {
    /// No fields. They keep the allocator for their calls.
    pub fn new(alloc: Global) -> Result<Fields, NoMemory>
        ensures value { IfOk result (λ made. seen_fields made ≡ []) }
    {
        Fields::from_vec(alloc, Vec::new(alloc))
    }

    /// Takes over the fields.
    pub fn from_vec(alloc: Global, fields: Vec<Field>) -> Result<Fields, NoMemory>
        ensures value { IfOk result (λ made. seen_fields made ≡ map seen_field fields.items) }
    {
        Ok(Fields {
            fields: Arc::new(alloc, fields)?,
        })
    }

    /// The fields, in order.
    pub fn as_slice(&self) -> &[Field]
        ensures value { map seen_field result.now ≡ seen_fields self.now }
    {
        self.fields.as_slice()
    }

    /// The number of fields.
    pub fn len(&self) -> usize
        ensures value { result ≡ length (seen_fields self.now) }
    {
        self.fields.len()
    }

    /// Whether there are no fields.
    pub fn is_empty(&self) -> bool
        ensures value { result ≡ (length (seen_fields self.now) == 0) }
    {
        self.fields.is_empty()
    }

    /// The field at a place.
    pub fn get(&self, index: usize) -> &Field
        requires within { index < length (seen_fields self.now) }
        ensures value { slice_get (seen_fields self.now) index ≡ Some (seen_field result.now) }
    {
        &self.as_slice()[index]
    }

    /// Appends the field, to a copy of the list where it is shared. Where there is no memory the field is dropped.
    pub fn push(&mut self, field: Field) -> Result<(), NoMemory>
        ensures ok { OnOk result (seen_fields self.new ≡ seen_fields self.old ++ seen_field field ∷ []) }
        ensures err { OnErr result (seen_fields self.new ≡ seen_fields self.old) }
    {
        match Arc::get_mut(&mut self.fields) {
            Some(fields) => fields.push(field)?,
            None => {
                let alloc = *self.fields.allocator();
                let mut fields = copy_list(alloc, self.fields.as_slice())?;
                fields.push(field)?;
                self.fields = Arc::new(alloc, fields)?;
            }
        }
        Ok(())
    }
}
