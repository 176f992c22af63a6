//! The constants of code in the making.
ghost use Rattle.std.specs.Prelude.{◌≡◌, [], length, map, take, IfOk, OnOk, OnErr};
ghost use Rattle.sz_value.specs.Seen.{seen};
ghost use Rattle.sz_gen_rules.specs.Tables.{number_in};
ghost use Rattle.sz_gen_expr.specs.Building.{with_constant};

use crate::NoMemory;
use indexmap::IndexSet;
use std::alloc::Global;
use std::marker::Model;
use sz_value::{List, Value, copy};

/// Constants, each once, in the order in which they came, found by hashing.
///
/// Contracts see the list of their plain data.
pub struct Constants {
    values: IndexSet<Value>,
}

impl Drop for Constants {
    fn drop(self) {
        let Constants { values: _ } = self;
    }
}

impl Model for Constants {
    ghost use Rattle.std.specs.Prelude.{List, map};
    ghost use Rattle.sz_value.specs.Data.{Datum};
    ghost use Rattle.sz_value.specs.Code.{parts_code};
    ghost use Rattle.sz_value.specs.Seen.{seen};

    ghost Value = { List Datum };

    ghost coded = { parts_code };

    ghost view = { λ constants. map seen constants.values.keys };
}

impl Constants {
    /// No constants, which takes no memory.
    pub fn new(alloc: Global) -> Constants
        ensures value { result ≡ [] }
    {
        Constants {
            values: IndexSet::new(alloc),
        }
    }

    // The allocator of the set.
    pub(crate) fn allocator(&self) -> Global {
        *self.values.allocator()
    }

    // How many constants there are.
    pub(crate) fn len(&self) -> usize
        ensures value { result ≡ length self.now }
    {
        self.values.len()
    }

    // Keeps the first constants, so many of them, and takes no memory.
    pub(crate) fn truncate(&mut self, count: usize)
        ensures value { self.new ≡ take count self.old }
    {
        self.values.truncate(count);
    }

    /// The constants, each copied, in order.
    pub fn copied(&self) -> Result<List, NoMemory>
        ensures value { IfOk result (λ list. list ≡ self.now) }
    {
        copied(self.allocator(), self.values.as_slice())
    }

    /// The number of the constant, which comes to the end where it isn't there yet.
    pub fn number(&mut self, value: &Value) -> Result<usize, NoMemory>
        ensures number { IfOk result (λ n. n ≡ number_in self.old (seen value.now)) }
        ensures kept { OnOk result (self.new ≡ with_constant self.old (seen value.now)) }
        ensures err { OnErr result (self.new ≡ self.old) }
    {
        let value = copy(*self.values.allocator(), value)?;
        let (number, _) = self.values.insert_full(value)?;
        Ok(number)
    }
}

// The values, each copied, in order.
fn copied(alloc: Global, values: &[Value]) -> Result<List, NoMemory>
    ensures value { IfOk result (λ list. list ≡ map seen values.now) }
{
    let mut list = List::new(alloc);
    for value in values {
        let made = copy(alloc, value)?;
        list.push(made)?;
    }
    Ok(list)
}
