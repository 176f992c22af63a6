//! The list, and its calls.
ghost use Rattle.std.specs.Prelude.{◌≡◌, ◌==◌, ◌<◌, ◌++◌, ◌∷◌, [], length, take, set, slice_get, IfOk, IfSome, IfNone, OnOk, OnErr, Some};

use crate::NoMemory;
use std::alloc::Global;
use std::marker::Model;
use std::mem;

/// A list of items. Places are counted from 0.
///
/// Contracts see the list of the items, each as they see the item alone: where an item has a model it is plain data there, and so
/// is the list. What a list has room for doesn't show.
#[derive(Debug)]
pub struct Items<T> {
    items: Vec<T>,
}

impl<T: Drop> Drop for Items<T> {
    fn drop(self) {
        let Items { items: _ } = self;
    }
}

impl<T> Model for Items<T> {
    ghost use Rattle.std.specs.Prelude.{List};
    ghost use Rattle.std.specs.Coded.{coded_list};

    ghost Value = { List T };

    ghost coded = { coded_list T.code };

    ghost view = { λ list. list.items.items };
}

impl<T> Items<T> {
    /// No items, which takes no memory. The list keeps the allocator for its calls.
    pub fn new(alloc: Global) -> Items<T>
        ensures value { result ≡ [] }
    {
        Items {
            items: Vec::new(alloc),
        }
    }

    /// No items, with room for `capacity` of them.
    pub fn with_capacity(alloc: Global, capacity: usize) -> Result<Items<T>, NoMemory>
        ensures value { IfOk result (λ list. list ≡ []) }
    {
        let items = Vec::with_capacity(alloc, capacity)?;
        Ok(Items { items })
    }

    /// Takes over the items, and takes no memory.
    pub fn from_vec(items: Vec<T>) -> Items<T>
        ensures value { result ≡ items.items }
    {
        Items { items }
    }

    /// Gives the items back, and takes no memory.
    pub fn into_vec(self) -> Vec<T>
        ensures value { result.items ≡ self }
    {
        let Items { items } = self;
        items
    }

    /// The items, in order.
    pub fn as_slice(&self) -> &[T]
        ensures value { result.now ≡ self.now }
    {
        self.items.as_slice()
    }

    /// The number of items.
    pub fn len(&self) -> usize
        ensures value { result ≡ length self.now }
    {
        self.items.len()
    }

    /// Whether there are no items.
    pub fn is_empty(&self) -> bool
        ensures value { result ≡ (length self.now == 0) }
    {
        self.items.is_empty()
    }

    /// The item at a place.
    pub fn get(&self, index: usize) -> &T
        requires within { index < length self.now }
        ensures value { slice_get self.now index ≡ Some result.now }
    {
        &self.items[index]
    }

    /// Puts the item in the stead of that at a place, and gives that one back.
    pub fn replace(&mut self, index: usize, item: T) -> T
        requires within { index < length self.old }
        ensures value { slice_get self.old index ≡ Some result }
        ensures kept { self.new ≡ set self.old index item }
    {
        mem::replace(&mut self.items[index], item)
    }

    /// Removes the last item, if there is one.
    pub fn pop(&mut self) -> Option<T>
        ensures found { IfSome result (λ item. self.old ≡ self.new ++ item ∷ []) }
        ensures none { IfNone result ((self.old ≡ []) × (self.new ≡ [])) }
    {
        self.items.pop()
    }
}

impl<T: Drop> Items<T> {
    /// Appends the item. Where there is no memory the item is dropped.
    pub fn push(&mut self, item: T) -> Result<(), NoMemory>
        ensures ok { OnOk result (self.new ≡ self.old ++ item ∷ []) }
        ensures err { OnErr result (self.new ≡ self.old) }
    {
        self.items.push(item)?;
        Ok(())
    }

    /// Puts the item in the stead of that at a place, which is dropped.
    pub fn set(&mut self, index: usize, item: T)
        requires within { index < length self.old }
        ensures value { self.new ≡ set self.old index item }
    {
        self.items[index] = item;
    }

    /// Keeps the first `count` items, or all where there are no more.
    pub fn truncate(&mut self, count: usize)
        ensures value { self.new ≡ take count self.old }
    {
        self.items.truncate(count);
    }

    /// Moves the items of `more` to the end. Where there is no memory those are dropped.
    pub fn append(&mut self, more: Items<T>) -> Result<(), NoMemory>
        ensures ok { OnOk result (self.new ≡ self.old ++ more) }
        ensures err { OnErr result (self.new ≡ self.old) }
    {
        let Items { items: mut rest } = more;
        self.items.append(&mut rest)?;
        Ok(())
    }
}

impl<T: Copy> Items<T> {
    /// The same items again.
    pub fn copied(alloc: Global, items: &[T]) -> Result<Items<T>, NoMemory>
        ensures value { IfOk result (λ list. list ≡ items.now) }
    {
        let items = Vec::from_slice(alloc, items)?;
        Ok(Items { items })
    }
}
