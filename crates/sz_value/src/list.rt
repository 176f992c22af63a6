//! The calls of a list of values.
ghost use Rattle.std.specs.Prelude.{◌≡◌, ◌==◌, ◌<◌, ◌++◌, ◌∷◌, [], length, map, set, slice_get, IfOk, IfSome, IfNone, OnOk, OnErr, Some};
ghost use Rattle.sz_value.specs.Seen.{seen};

use crate::NoMemory;
use crate::value::{List, Value};
use std::alloc::Global;
use std::mem;

impl List {
    /// A list of no values, which takes no memory. It keeps the allocator for its calls.
    pub fn new(alloc: Global) -> List
        ensures value { result ≡ [] }
    {
        List {
            values: Vec::new(alloc),
        }
    }

    /// A list of no values, with room for `capacity` of them.
    pub fn with_capacity(alloc: Global, capacity: usize) -> Result<List, NoMemory>
        ensures value { IfOk result (λ list. list ≡ []) }
    {
        let values = Vec::with_capacity(alloc, capacity)?;
        Ok(List { values })
    }

    /// Takes over the values, and takes no memory.
    pub fn from_vec(values: Vec<Value>) -> List
        ensures value { result ≡ map seen values.items }
    {
        List { values }
    }

    /// The values, in order.
    pub fn as_slice(&self) -> &[Value]
        ensures value { map seen result.now ≡ self.now }
    {
        self.values.as_slice()
    }

    /// The number of values.
    pub fn len(&self) -> usize
        ensures value { result ≡ length self.now }
    {
        self.values.len()
    }

    /// Whether there are no values.
    pub fn is_empty(&self) -> bool
        ensures value { result ≡ (length self.now == 0) }
    {
        self.values.is_empty()
    }

    /// The value at a place.
    pub fn get(&self, index: usize) -> &Value
        requires within { index < length self.now }
        ensures value { slice_get self.now index ≡ Some (seen result.now) }
    {
        &self.values[index]
    }

    /// Appends the value. Where there is no memory the value is dropped.
    pub fn push(&mut self, value: Value) -> Result<(), NoMemory>
        ensures ok { OnOk result (self.new ≡ self.old ++ seen value ∷ []) }
        ensures err { OnErr result (self.new ≡ self.old) }
    {
        self.values.push(value)?;
        Ok(())
    }

    /// Removes the last value, if there is one.
    pub fn pop(&mut self) -> Option<Value>
        ensures found { IfSome result (λ value. self.old ≡ self.new ++ seen value ∷ []) }
        ensures none { IfNone result ((self.old ≡ []) × (self.new ≡ [])) }
    {
        self.values.pop()
    }

    /// Puts the value in the stead of that at a place, and gives that one back.
    pub fn replace(&mut self, index: usize, value: Value) -> Value
        requires within { index < length self.old }
        ensures value { slice_get self.old index ≡ Some (seen result) }
        ensures kept { self.new ≡ set self.old index (seen value) }
    {
        mem::replace(&mut self.values[index], value)
    }
}
