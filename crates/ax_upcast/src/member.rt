ghost use Rattle.std.specs.Prelude.{◌≡◌, ◌≤◌, ◌++◌, [], ◌∷◌, length, map, IsTrue, OnOk, IfOk};
ghost use Rattle.ax_values.specs.Words.{rises, field_below};
ghost use Rattle.ax_upcast.specs.Upcast.{takes, event_of_template, event_of_record, acted, replaced, numbered, most_items};

use crate::fields::{filled, rename, supply};
use crate::{Act, Template, Upcaster};
use ax_values::{
    Duplicate, Field, Item, ItemName, Items, Name, NoMemory, Payload, Record, copy_all,
};
use std::alloc::Global;
use std::marker::Model;

/// A member of the list that passes through the rules: an event whose fields may still change.
#[derive(Drop)]
pub(crate) struct Member {
    kind: Name,
    revision: u32,
    fields: Vec<Field>,
}

impl Model for Member {
    ghost use Rattle.std.specs.Prelude.{IsTrue};
    ghost use Rattle.ax_values.specs.Words.{rises, field_below};
    ghost use Rattle.ax_upcast.specs.declared.event.Event.{Event};

    ghost Value = { Event };

    ghost view = { λ member. record { kind = member.kind; revision = member.revision; payload = member.fields.items } };

    ghost invariant = { λ member. IsTrue (rises field_below member.fields.items) };
}

impl Member {
    /// The list's first member.
    pub(crate) fn of(alloc: Global, event: &Record) -> Result<Member, NoMemory>
        ensures { IfOk result (λ member. member ≡ event_of_record event.now) }
    {
        Ok(Member {
            kind: event.kind.copy(alloc)?,
            revision: event.revision,
            fields: copy_all(alloc, event.payload.parts())?,
        })
    }

    fn of_template(alloc: Global, template: &Template, source: &[Field]) -> Result<Member, NoMemory>
        ensures { IfOk result (λ member. member ≡ event_of_template source.now template.now) }
    {
        Ok(Member {
            kind: template.kind.copy(alloc)?,
            revision: template.revision,
            fields: filled(alloc, template.fields.parts(), source)?,
        })
    }

    fn into_item(self, name: ItemName) -> Item
        ensures { result ≡ record { name = name; kind = self.kind; payload = self.payload } }
    {
        let Member {
            kind,
            revision: _,
            fields,
        } = self;
        Item {
            name,
            kind,
            payload: Payload::of(fields),
        }
    }
}

impl Upcaster {
    /// Whether the rule is for a member.
    pub(crate) fn takes(&self, member: &Member) -> bool
        ensures { result ≡ takes self.now member.now.kind member.now.revision }
    {
        self.kind.same(&member.kind) && self.revision == member.revision
    }

    /// Adds what the rule makes of a member: the member itself, where the rule is not for it.
    pub(crate) fn replace(
        &self,
        alloc: Global,
        member: Member,
        out: &mut Vec<Member>,
    ) -> Result<(), NoMemory>
        ensures { OnOk result (out.new.items ≡ out.old.items ++ replaced self.now member) }
    {
        if self.takes(&member) {
            act(alloc, &self.act, member, out)
        } else {
            out.push(member)?;
            Ok(())
        }
    }
}

fn act(alloc: Global, act: &Act, member: Member, out: &mut Vec<Member>) -> Result<(), NoMemory>
    ensures { OnOk result (out.new.items ≡ out.old.items ++ acted act.now member) }
{
    let Member {
        kind,
        revision: _,
        mut fields,
    } = member;
    match act {
        Act::Rename { old, new, revision } => {
            rename(alloc, &mut fields, old, new)?;
            add(kind, *revision, fields, out)
        }
        Act::Default {
            name,
            value,
            revision,
        } => {
            supply(alloc, &mut fields, name, value)?;
            add(kind, *revision, fields, out)
        }
        Act::Retype { kind, revision } => add(kind.copy(alloc)?, *revision, fields, out),
        Act::Split(parts) => split(alloc, parts.parts(), &fields, out),
        Act::Remove => Ok(()),
    }
}

/// Adds the member of these parts.
fn add(kind: Name, revision: u32, fields: Vec<Field>, out: &mut Vec<Member>) -> Result<(), NoMemory>
    requires { IsTrue (rises field_below fields.items) }
    ensures { OnOk result (out.new.items ≡ out.old.items ++ record { kind = kind; revision = revision; payload = fields.items } ∷ []) }
{
    out.push(Member {
        kind,
        revision,
        fields,
    })?;
    Ok(())
}

fn split(
    alloc: Global,
    parts: &[Template],
    source: &[Field],
    out: &mut Vec<Member>,
) -> Result<(), NoMemory>
    ensures { OnOk result (out.new.items ≡ out.old.items ++ map (event_of_template source.now) parts.now) }
{
    for part in parts {
        out.push(Member::of_template(alloc, part, source)?)?;
    }
    Ok(())
}

/// The items of a record, numbered by part.
pub(crate) fn numbered(
    alloc: Global,
    event: &Record,
    members: Vec<Member>,
) -> Result<Items, NoMemory>
    requires { length members.items ≤ most_items }
    ensures value { IfOk result (λ items. items ≡ numbered event.now.aggregate event.now.seq 0 members.items) }
    ensures few { IfOk result (λ items. length items ≤ most_items) }
{
    let mut items = Vec::with_capacity(alloc, members.len())?;
    for member in members {
        let name = ItemName {
            aggregate: event.aggregate.copy(alloc)?,
            seq: event.seq,
            part: items.len() as u32,
        };
        items.push(member.into_item(name))?;
    }
    Ok(Items::of(items))
}
