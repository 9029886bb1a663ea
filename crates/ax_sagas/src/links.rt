ghost use Rattle.std.specs.Prelude.{◌≡◌, [], ◌∷◌, IfOk, IsTrue, OnOk, OnErr};
ghost use Rattle.ax_values.specs.Grammar.{is_content};
ghost use Rattle.ax_values.specs.Words.{rises, insert_rising, remove_rising};
ghost use Rattle.ax_sagas.specs.Links.{link_of, link_cmp, link_below, has_link};

use crate::Link;
use crate::link::place_of;
use ax_values::{Duplicate, Line, NoMemory, Text, copy_all};
use std::alloc::Global;
use std::marker::Model;

/// The associations of a saga, rising by key and then value, so none stands twice.
#[derive(Drop)]
pub struct Links {
    links: Vec<Link>,
}

impl Model for Links {
    ghost use Rattle.std.specs.Prelude.{List, IsTrue};
    ghost use Rattle.ax_values.specs.Words.{rises};
    ghost use Rattle.ax_sagas.specs.declared.link.Link.{Link};
    ghost use Rattle.ax_sagas.specs.Links.{link_below};

    ghost Value = { List Link };

    ghost view = { λ links. links.links.items };

    ghost invariant = { λ links. IsTrue (rises link_below links.links.items) };
}

impl Links {
    /// The links of these parts. It takes no memory.
    pub fn of(parts: Vec<Link>) -> Links
        requires { IsTrue (rises link_below parts.items) }
        ensures { result ≡ parts.items }
    {
        Links { links: parts }
    }

    /// The links, rising.
    pub fn parts(&self) -> &[Link]
        ensures value { result.now ≡ self.now }
        ensures rising { IsTrue (rises link_below self.now) }
    {
        &self.links
    }

    /// Whether the value is associated under the key.
    pub fn contains(&self, key: &[u8], value: &[u8]) -> bool
        ensures { result ≡ has_link key.now value.now self.now }
    {
        self.parts().iter().any(|link| link.is(key, value))
    }

    /// The one link of a value under a key.
    pub(crate) fn one(alloc: Global, key: &[u8], value: &[u8]) -> Result<Links, NoMemory>
        requires { IsTrue (is_content value.now) }
        ensures { IfOk result (λ links. links ≡ link_of key.now value.now ∷ []) }
    {
        let mut links = Vec::with_capacity(alloc, 1)?;
        links.push(owned(alloc, key, value)?)?;
        Ok(Links { links })
    }

    /// Associates the value under the key, where it is not associated yet. Where memory is wanting, nothing changes.
    pub(crate) fn add(&mut self, alloc: Global, key: &[u8], value: &[u8]) -> Result<(), NoMemory>
        requires { IsTrue (is_content value.now) }
        ensures ok { OnOk result (self.new ≡ insert_rising link_cmp (link_of key.now value.now) self.old) }
        ensures err { OnErr result (self.new ≡ self.old) }
    {
        add_to(alloc, &mut self.links, key, value)
    }

    /// Takes the value under the key off, where it is associated.
    pub(crate) fn remove(&mut self, key: &[u8], value: &[u8])
        ensures { self.new ≡ remove_rising link_cmp (link_of key.now value.now) self.old }
    {
        remove_from(&mut self.links, key, value);
    }
}

fn add_to(alloc: Global, links: &mut Vec<Link>, key: &[u8], value: &[u8]) -> Result<(), NoMemory>
    requires rising { IsTrue (rises link_below links.old.items) }
    requires content { IsTrue (is_content value.now) }
    ensures ok { OnOk result (links.new.items ≡ insert_rising link_cmp (link_of key.now value.now) links.old.items) }
    ensures err { OnErr result (links.new.items ≡ links.old.items) }
    ensures rising { IsTrue (rises link_below links.new.items) }
{
    match place_of(links, key, value) {
        Ok(_) => Ok(()),
        Err(place) => {
            links.insert(place, owned(alloc, key, value)?)?;
            Ok(())
        }
    }
}

fn remove_from(links: &mut Vec<Link>, key: &[u8], value: &[u8])
    requires { IsTrue (rises link_below links.old.items) }
    ensures value { links.new.items ≡ remove_rising link_cmp (link_of key.now value.now) links.old.items }
    ensures rising { IsTrue (rises link_below links.new.items) }
{
    match place_of(links, key, value) {
        Ok(place) => drop(links.remove(place)),
        Err(_) => {}
    }
}

/// The link of a key and a value.
fn owned(alloc: Global, key: &[u8], value: &[u8]) -> Result<Link, NoMemory>
    requires { IsTrue (is_content value.now) }
    ensures { IfOk result (λ link. link ≡ link_of key.now value.now) }
{
    let key = Line::of(Vec::from_slice(alloc, key)?);
    match Text::from_content(alloc, value)? {
        Some(value) => Ok(Link { key, value }),
        None => unreachable!(),
    }
}

impl Duplicate for Links {
    fn copy(&self, alloc: Global) -> Result<Links, NoMemory> {
        Ok(Links {
            links: copy_all(alloc, self.parts())?,
        })
    }
}
