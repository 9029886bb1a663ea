ghost use Rattle.std.specs.Prelude.{◌≡◌, ◌&&◌, length};
ghost use Rattle.std.specs.List.Sorted.{IsBinarySearchResult, IsSearchInRange};
ghost use Rattle.ax_values.specs.Words.{same_name};
ghost use Rattle.ax_sagas.specs.Links.{link_of, link_cmp};

use ax_values::{Duplicate, Line, NoMemory, Text};
use std::alloc::Global;
use std::cmp::Ordering;

/// An association of a saga: a value under a key, after the association value of Axon's reference guide. The key is the name
/// of a property, or `@` for an aggregate's identifier.
#[derive(Drop)]
pub struct Link {
    pub key: Line,
    pub value: Text,
}

impl Link {
    /// How it stands to a key and a value.
    fn compared(&self, key: &[u8], value: &[u8]) -> Ordering
        ensures { result ≡ link_cmp self.now (link_of key.now value.now) }
    {
        self.key
            .parts()
            .cmp(key)
            .then(self.value.parts().cmp(value))
    }

    /// Whether it is this value under this key.
    pub(crate) fn is(&self, key: &[u8], value: &[u8]) -> bool
        ensures { result ≡ (same_name self.now.key key.now && same_name self.now.value value.now) }
    {
        self.key.parts() == key && self.value.parts() == value
    }
}

/// Where the link of a key and a value stands among links that rise, or else where it would stand.
pub(crate) fn place_of(links: &[Link], key: &[u8], value: &[u8]) -> Result<usize, usize>
    ensures bound { IsSearchInRange result (length links.now) }
    ensures place { IsBinarySearchResult (λ link. link_cmp link (link_of key.now value.now)) links.now result }
{
    links.binary_search_by(|link| link.compared(key, value))
}

impl Duplicate for Link {
    fn copy(&self, alloc: Global) -> Result<Link, NoMemory> {
        Ok(Link {
            key: self.key.copy(alloc)?,
            value: self.value.copy(alloc)?,
        })
    }
}
