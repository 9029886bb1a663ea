ghost use Rattle.std.specs.Prelude.{◌≡◌, length};
ghost use Rattle.std.specs.List.Sorted.{IsBinarySearchResult, IsSearchInRange};
ghost use Rattle.ax_values.specs.Words.{item_cmp};

use crate::{Links, Sends};
use ax_rules::Row;
use ax_values::{Duplicate, ItemName, NoMemory};
use std::alloc::Global;

/// A process that an item has started, that items move and end, and that sends commands, after the saga of Axon's reference
/// guide.
#[derive(Drop)]
pub struct Saga {
    /// The item that has started it.
    pub name: ItemName,
    /// Whether it has not ended. An ended saga receives nothing.
    pub live: bool,
    /// The numbers of its declared fields.
    pub row: Row,
    /// What it is associated with.
    pub links: Links,
}

/// A saga after an item, and the commands that it sends, in order.
#[derive(Drop)]
pub struct Received {
    pub saga: Saga,
    pub sends: Sends,
}

impl Saga {
    ghost use Rattle.ax_sagas.specs.Sagas.{expects};

    /// Whether it is live, and the value is associated with it under the key.
    pub fn expects(&self, key: &[u8], value: &[u8]) -> bool
        ensures { result ≡ expects key.now value.now self.now }
    {
        self.live && self.links.contains(key, value)
    }
}

/// Where the saga of this name stands among sagas that rise by name, or else where it would stand.
pub fn place_among(sagas: &[Saga], name: &ItemName) -> Result<usize, usize>
    ensures bound { IsSearchInRange result (length sagas.now) }
    ensures place { IsBinarySearchResult (λ saga. item_cmp saga.name name.now) sagas.now result }
{
    sagas.binary_search_by(|saga| saga.name.cmp(name))
}

impl Duplicate for Saga {
    fn copy(&self, alloc: Global) -> Result<Saga, NoMemory> {
        Ok(Saga {
            name: self.name.copy(alloc)?,
            live: self.live,
            row: self.row.copy(alloc)?,
            links: self.links.copy(alloc)?,
        })
    }
}
