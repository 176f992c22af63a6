//! The list of items that contracts see by their plain data, and its calls.
ghost use Rattle.std.specs.Prelude.{◌≡◌, ◌==◌, ◌<◌, ◌++◌, ◌∷◌, [], length, map, slice_get, OnOk, OnErr, Some};

use crate::NoMemory;
use std::alloc::Global;
use std::marker::{Model, PhantomData};

/// What contracts see of an item that other crates match on, and that has no model of its own for that reason: a `D`.
pub trait Seen<D> {
    /// The plain data of an item.
    ghost seen: { Self → D };
}

/// A list of items that are plain data in contracts, each a `D`. Places are counted from 0.
#[derive(Debug)]
pub struct SeenItems<T: Seen<D>, D> {
    items: Vec<T>,
    data: PhantomData<D>,
}

impl<T: Seen<D> + Drop, D> Drop for SeenItems<T, D> {
    fn drop(self) {
        let SeenItems { items: _, data: _ } = self;
    }
}

impl<T: Seen<D>, D> Model for SeenItems<T, D> {
    ghost use Rattle.std.specs.Prelude.{List, map};
    ghost use Rattle.std.specs.Coded.{coded_list};

    ghost Value = { List D };

    ghost coded = { coded_list D.code };

    ghost view = { λ list. map T.seen list.items.items };
}

impl<T: Seen<D>, D> SeenItems<T, D> {
    /// No items, which takes no memory. The list keeps the allocator for its calls.
    pub fn new(alloc: Global) -> SeenItems<T, D>
        ensures value { result ≡ [] }
    {
        SeenItems {
            items: Vec::new(alloc),
            data: PhantomData,
        }
    }

    /// Takes over the items, and takes no memory.
    pub fn from_vec(items: Vec<T>) -> SeenItems<T, D>
        ensures value { result ≡ map T.seen items.items }
    {
        SeenItems {
            items,
            data: PhantomData,
        }
    }

    /// Gives the items back, and takes no memory.
    pub fn into_vec(self) -> Vec<T>
        ensures value { map T.seen result.items ≡ self }
    {
        let SeenItems { items, data: _ } = self;
        items
    }

    /// The items, in order.
    pub fn as_slice(&self) -> &[T]
        ensures value { map T.seen result.now ≡ self.now }
    {
        self.items.as_slice()
    }

    /// The number of items.
    pub fn len(&self) -> usize
        ensures value { result ≡ length self.now }
    {
        self.items.len()
    }

    /// Whether there are no items.
    pub fn is_empty(&self) -> bool
        ensures value { result ≡ (length self.now == 0) }
    {
        self.items.is_empty()
    }

    /// The item at a place.
    pub fn get(&self, index: usize) -> &T
        requires within { index < length self.now }
        ensures value { slice_get self.now index ≡ Some (T.seen result.now) }
    {
        &self.items[index]
    }
}

impl<T: Seen<D> + Drop, D> SeenItems<T, D> {
    /// Appends the item. Where there is no memory the item is dropped.
    pub fn push(&mut self, item: T) -> Result<(), NoMemory>
        ensures ok { OnOk result (self.new ≡ self.old ++ T.seen item ∷ []) }
        ensures err { OnErr result (self.new ≡ self.old) }
    {
        self.items.push(item)?;
        Ok(())
    }
}
