ghost use Rattle.std.specs.Prelude.{◌≡◌, [], ◌∷◌, ◌++◌, length, IfOk, OnOk, OnErr};

use crate::NoMemory;
use std::alloc::Global;
use std::marker::Model;

/// What has an equal copy.
pub trait Duplicate {
    /// An equal value, or want of memory.
    fn copy(&self, alloc: Global) -> Result<Self, NoMemory>
        ensures { IfOk result (λ copied. copied ≡ self.now) };
}

/// A `Vec` that contracts see as the list of its parts.
#[derive(Drop)]
pub struct ListOf<T> {
    items: Vec<T>,
}

/// A list of bytes.
pub type Line = ListOf<u8>;

impl<T> Model for ListOf<T> {
    ghost use Rattle.std.specs.Prelude.{List};
    ghost use Rattle.std.specs.Coded.{coded_list};

    ghost Value = { List T };

    ghost coded = { coded_list T.code };

    ghost view = { λ list. list.items.items };
}

impl<T> ListOf<T> {
    /// The list without parts.
    pub fn new(alloc: Global) -> ListOf<T>
        ensures { result ≡ [] }
    {
        ListOf {
            items: Vec::new(alloc),
        }
    }

    /// The list of these parts.
    pub fn of(parts: Vec<T>) -> ListOf<T>
        ensures { result ≡ parts.items }
    {
        ListOf { items: parts }
    }

    /// The parts, in order.
    pub fn parts(&self) -> &[T]
        ensures { result.now ≡ self.now }
    {
        self.items.as_slice()
    }

    /// The parts, given up.
    pub fn into_parts(self) -> Vec<T>
        ensures { result.items ≡ self }
    {
        let ListOf { items } = self;
        items
    }
}

impl<T: Drop> ListOf<T> {
    /// Adds a part at the end. Where memory is wanting, the part is dropped and the list stays as it was.
    pub fn push(&mut self, part: T) -> Result<(), NoMemory>
        ensures ok { OnOk result (self.new ≡ self.old ++ part ∷ []) }
        ensures err { OnErr result (self.new ≡ self.old) }
    {
        self.items.push(part)?;
        Ok(())
    }
}

/// Equal copies of all items, in order.
pub fn copy_all<T: Duplicate + Drop>(alloc: Global, items: &[T]) -> Result<Vec<T>, NoMemory>
    ensures { IfOk result (λ copies. copies.items ≡ items.now) }
{
    let mut copies = Vec::with_capacity(alloc, items.len())?;
    for item in items {
        copies.push(item.copy(alloc)?)?;
    }
    Ok(copies)
}

impl<T: Duplicate + Drop> Duplicate for ListOf<T> {
    fn copy(&self, alloc: Global) -> Result<ListOf<T>, NoMemory> {
        Ok(ListOf {
            items: copy_all(alloc, self.parts())?,
        })
    }
}

impl Duplicate for u8 {
    fn copy(&self, _alloc: Global) -> Result<u8, NoMemory> {
        Ok(*self)
    }
}

impl Duplicate for u32 {
    fn copy(&self, _alloc: Global) -> Result<u32, NoMemory> {
        Ok(*self)
    }
}

impl Duplicate for u64 {
    fn copy(&self, _alloc: Global) -> Result<u64, NoMemory> {
        Ok(*self)
    }
}

impl Duplicate for bool {
    fn copy(&self, _alloc: Global) -> Result<bool, NoMemory> {
        Ok(*self)
    }
}

impl Duplicate for i64 {
    fn copy(&self, _alloc: Global) -> Result<i64, NoMemory> {
        Ok(*self)
    }
}

impl<T: Duplicate> Duplicate for Option<T> {
    fn copy(&self, alloc: Global) -> Result<Option<T>, NoMemory> {
        match self {
            Some(value) => Ok(Some(value.copy(alloc)?)),
            None => Ok(None),
        }
    }
}
