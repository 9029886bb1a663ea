ghost use Rattle.std.specs.Prelude.{◌≡◌, IfOk};
ghost use Rattle.ax_upcast.specs.Upcast.{event_of_template};

use crate::fields::filled;
use ax_values::{Duplicate, Given, ListOf, Name, NoMemory, Payload};
use std::alloc::Global;

/// An event that is not in the log yet, of a revision of its kind.
#[derive(Drop)]
pub struct Event {
    pub kind: Name,
    pub revision: u32,
    pub payload: Payload,
}

/// A field of a new payload, and what it is given.
#[derive(Drop)]
pub struct GivenField {
    pub name: Name,
    pub given: Given,
}

pub type GivenFields = ListOf<GivenField>;

/// An event whose fields are given: copied from a source, or constant.
#[derive(Drop)]
pub struct Template {
    pub kind: Name,
    pub revision: u32,
    pub fields: GivenFields,
}

pub type Templates = ListOf<Template>;

impl Template {
    /// The event with these fields, copied ones from the source. A copied field that the source lacks is left out.
    pub fn event(&self, alloc: Global, source: &Payload) -> Result<Event, NoMemory>
        ensures { IfOk result (λ event. event ≡ event_of_template source.now self.now) }
    {
        Ok(Event {
            kind: self.kind.copy(alloc)?,
            revision: self.revision,
            payload: Payload::of(filled(alloc, self.fields.parts(), source.parts())?),
        })
    }
}

impl Duplicate for Event {
    fn copy(&self, alloc: Global) -> Result<Event, NoMemory> {
        Ok(Event {
            kind: self.kind.copy(alloc)?,
            revision: self.revision,
            payload: self.payload.copy(alloc)?,
        })
    }
}

impl Duplicate for GivenField {
    fn copy(&self, alloc: Global) -> Result<GivenField, NoMemory> {
        Ok(GivenField {
            name: self.name.copy(alloc)?,
            given: self.given.copy(alloc)?,
        })
    }
}

impl Duplicate for Template {
    fn copy(&self, alloc: Global) -> Result<Template, NoMemory> {
        Ok(Template {
            kind: self.kind.copy(alloc)?,
            revision: self.revision,
            fields: self.fields.copy(alloc)?,
        })
    }
}
