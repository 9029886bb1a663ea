ghost use Rattle.std.specs.Prelude.{◌≡◌, ◌↔◌, [], ◌∷◌, ◌++◌, map, flat_map, IsTrue, IfOk, OnOk};
ghost use Rattle.ax_upcast.specs.Upcast.{KeepsLimit, keeps_limit, stays_few, reformed, first_form, form_of_template};
ghost use Rattle.ax_upcast.specs.Forms.{form_of};

use crate::{Act, Template, Upcaster};
use ax_values::{Name, NoMemory};
use std::alloc::Global;

/// How many items a record may give.
const MOST_ITEMS: usize = 8;

/// A kind and its revision, on which alone it rests how many items there are.
#[derive(Clone, Copy)]
struct Form<'a> {
    kind: &'a Name,
    revision: u32,
}

/// Whether no record gives more than 8 items after any of the rules. It is enough to begin from each rule's own kind and
/// revision, since no other record changes.
pub fn keeps_limit(alloc: Global, rules: &[Upcaster]) -> Result<bool, NoMemory>
    ensures value { IfOk result (λ few. few ≡ keeps_limit rules.now) }
    ensures exact { IfOk result (λ few. IsTrue few ↔ KeepsLimit rules.now) }
{
    for rule in rules {
        if !stays_few(alloc, rules, rule.first_form())? {
            return Ok(false);
        }
    }
    Ok(true)
}

fn stays_few(alloc: Global, rules: &[Upcaster], first: Form) -> Result<bool, NoMemory>
    ensures { IfOk result (λ few. few ≡ stays_few rules.now (form_of first.entry ∷ [])) }
{
    let mut forms = Vec::new(alloc);
    forms.push(first)?;
    for rule in rules {
        forms = reformed(alloc, rule, &forms)?;
        if forms.len() > MOST_ITEMS {
            return Ok(false);
        }
    }
    Ok(true)
}

/// The forms after a rule.
fn reformed<'a>(
    alloc: Global,
    rule: &'a Upcaster,
    forms: &[Form<'a>],
) -> Result<Vec<Form<'a>>, NoMemory>
    ensures { IfOk result (λ later. map form_of later.items ≡ flat_map (reformed rule.now) (map form_of forms.now)) }
{
    let mut later = Vec::with_capacity(alloc, forms.len())?;
    for form in forms {
        rule.reform(*form, &mut later)?;
    }
    Ok(later)
}

impl Upcaster {
    fn first_form(&self) -> Form<'_>
        ensures { form_of result ≡ first_form self.now }
    {
        Form {
            kind: &self.kind,
            revision: self.revision,
        }
    }

    /// Adds what the rule makes of a form: the form itself, where the rule is not for it.
    fn reform<'a>(&'a self, form: Form<'a>, out: &mut Vec<Form<'a>>) -> Result<(), NoMemory>
        ensures { OnOk result (map form_of out.new.items ≡ map form_of out.old.items ++ reformed self.now (form_of form.entry)) }
    {
        if !self.kind.same(form.kind) || self.revision != form.revision {
            out.push(form)?;
            return Ok(());
        }
        match &self.act {
            Act::Rename { revision, .. } | Act::Default { revision, .. } => out.push(Form {
                kind: form.kind,
                revision: *revision,
            })?,
            Act::Retype { kind, revision } => out.push(Form {
                kind,
                revision: *revision,
            })?,
            Act::Split(parts) => add_all(parts.parts(), out)?,
            Act::Remove => {}
        }
        Ok(())
    }
}

fn add_all<'a>(parts: &'a [Template], out: &mut Vec<Form<'a>>) -> Result<(), NoMemory>
    ensures { OnOk result (map form_of out.new.items ≡ map form_of out.old.items ++ map form_of_template parts.now) }
{
    for part in parts {
        out.push(Form {
            kind: &part.kind,
            revision: part.revision,
        })?;
    }
    Ok(())
}
