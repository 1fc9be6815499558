//! Lists inside public types.
ghost use Rattle.std.specs.Prelude.{◌≡◌, ◌<◌, ◌∷◌, ◌++◌, [], IfOk, is_ok, if◌then◌else◌, length, slice_set};

use std::alloc::{AllocError, Global};
use std::marker::Model;

/// Items in order. Contracts see the list.
#[derive(Drop)]
pub struct ItemList<T: Drop> {
    items: Vec<T>,
}

impl<T: Drop> Model for ItemList<T> {
    ghost use Rattle.std.specs.Prelude.{List};

    ghost Value = { List T };

    ghost view = { λ list. list.items.items };
}

impl<T: Drop> ItemList<T> {
    /// An empty list, which takes no memory.
    pub fn new(alloc: Global) -> ItemList<T>
        ensures { result ≡ [] }
    {
        ItemList {
            items: Vec::new(alloc),
        }
    }

    /// The items in order. It takes no memory.
    pub fn items(&self) -> &[T]
        ensures { result.now ≡ self.now }
    {
        self.items.as_slice()
    }

    /// Puts another item in the place of one. It takes no memory.
    pub fn set(&mut self, i: usize, item: T)
        requires { i < length self.old }
        ensures { self.new ≡ slice_set self.old i item }
    {
        self.items[i] = item;
    }

    /// Appends an item, or leaves the list as it was where there is no memory.
    pub fn push(&mut self, item: T) -> Result<(), AllocError>
        ensures { self.new ≡ (if is_ok result then self.old ++ item ∷ [] else self.old) }
    {
        self.items.push(item)?;
        Ok(())
    }
}

impl<T: Copy> ItemList<T> {
    /// An equal list of its own, or want of memory.
    pub fn copy(&self, alloc: Global) -> Result<ItemList<T>, AllocError>
        ensures { IfOk result (λ list. list ≡ self.now) }
    {
        let items = Vec::from_slice(alloc, self.items.as_slice())?;
        Ok(ItemList { items })
    }
}
