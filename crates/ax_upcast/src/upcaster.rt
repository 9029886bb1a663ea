use crate::Templates;
use ax_values::{Duplicate, Name, NoMemory, Value};
use std::alloc::Global;

/// What a rule makes of an event, with the revision that it gets.
#[derive(Drop)]
pub enum Act {
    /// The field `old` gets the name `new`, in the place of a field `new`.
    Rename {
        old: Name,
        new: Name,
        revision: u32,
    },
    /// The field is added where it is missing.
    Default {
        name: Name,
        value: Value,
        revision: u32,
    },
    /// The event gets another kind.
    Retype {
        kind: Name,
        revision: u32,
    },
    /// An event for each part, its copied fields taken from the old one.
    Split(Templates),
    /// No event.
    Remove,
}

/// A rule for the events of a kind and a revision.
#[derive(Drop)]
pub struct Upcaster {
    pub kind: Name,
    pub revision: u32,
    pub act: Act,
}

impl Duplicate for Act {
    fn copy(&self, alloc: Global) -> Result<Act, NoMemory> {
        match self {
            Act::Rename { old, new, revision } => Ok(Act::Rename {
                old: old.copy(alloc)?,
                new: new.copy(alloc)?,
                revision: *revision,
            }),
            Act::Default {
                name,
                value,
                revision,
            } => Ok(Act::Default {
                name: name.copy(alloc)?,
                value: value.copy(alloc)?,
                revision: *revision,
            }),
            Act::Retype { kind, revision } => Ok(Act::Retype {
                kind: kind.copy(alloc)?,
                revision: *revision,
            }),
            Act::Split(parts) => Ok(Act::Split(parts.copy(alloc)?)),
            Act::Remove => Ok(Act::Remove),
        }
    }
}

impl Duplicate for Upcaster {
    fn copy(&self, alloc: Global) -> Result<Upcaster, NoMemory> {
        Ok(Upcaster {
            kind: self.kind.copy(alloc)?,
            revision: self.revision,
            act: self.act.copy(alloc)?,
        })
    }
}
