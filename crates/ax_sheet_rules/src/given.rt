ghost use Rattle.std.specs.Prelude.{◌≡◌, IfOk};
ghost use Rattle.serde_json.specs.View.{view};
ghost use Rattle.ax_sheet_parts.specs.Sheet.{are_parts};
ghost use Rattle.ax_sheet_rules.specs.Names.{takes};
ghost use Rattle.ax_sheet_rules.specs.Shape.{given_text, given_of, given_field_of, template_of, templates_of, copied};

use crate::each::{ReadsItem, ReadsMember, list_of, named_of};
use crate::expr::copied;
use crate::names::Names;
use crate::readers::{name_of, small_of, triple_of};
use ax_upcast::{GivenField, Template, Templates};
use ax_values::{Given, Name, NoMemory, Text, Value};
use serde_json::Value as Json;
use std::alloc::Global;

/// A copy where the text is `$` and a name, else the text.
fn given_text(alloc: Global, names: Names, text: &[u8]) -> Result<Option<Given>, NoMemory>
    ensures { IfOk result (λ given. given ≡ given_text (takes names.entry) text.now (copied text.now)) }
{
    match copied(alloc, text)? {
        Some(name) if names.takes(&name) => Ok(Some(Given::Copy(name))),
        Some(_) => Ok(None),
        None => Ok(Text::from_content(alloc, text)?.map(|content| Given::Just(Value::Text(
            content,
        )))),
    }
}

/// What a field is given: a copy, a text or an int.
#[tactic(auto, unfolding(crate::specs::Shape::given_of))]
pub fn given_of(alloc: Global, names: Names, value: &Json) -> Result<Option<Given>, NoMemory>
    ensures value { IfOk result (λ given. given ≡ given_of (takes names.entry) (view value.now)) }
{
    match value.as_str() {
        Some(text) => given_text(alloc, names, text.as_bytes()),
        None => Ok(value.as_i64().map(|number| Given::Just(Value::Int(number)))),
    }
}

/// Reads given fields, in which these names may stand after `$`.
#[derive(Drop)]
struct GivenFieldReader<'a> {
    names: Names<'a>,
}

impl ReadsMember for GivenFieldReader<'_> {
    type Part = GivenField;

    ghost read = { λ reader. given_field_of (takes reader.names) };

    #[tactic(auto, unfolding(crate::specs::Shape::given_field_of))]
    fn member(
        &self,
        alloc: Global,
        name: Name,
        value: &Json,
    ) -> Result<Option<GivenField>, NoMemory> {
        match given_of(alloc, self.names, value)? {
            Some(given) => Ok(Some(GivenField { name, given })),
            None => Ok(None),
        }
    }
}

/// Reads templates, in which these names may stand after `$`: a kind, a revision and given fields.
#[derive(Drop)]
struct TemplateReader<'a> {
    names: Names<'a>,
}

impl ReadsItem for TemplateReader<'_> {
    type Part = Template;

    ghost read = { λ reader. template_of (takes reader.names) };

    #[tactic(auto, unfolding(crate::specs::Shape::template_of))]
    fn item(&self, alloc: Global, value: &Json) -> Result<Option<Template>, NoMemory> {
        let Some((kind, revision, fields)) = triple_of(value) else {
            return Ok(None);
        };
        let Some(kind) = name_of(alloc, kind)? else {
            return Ok(None);
        };
        let Some(revision) = small_of(revision) else {
            return Ok(None);
        };
        match named_of(alloc, &GivenFieldReader { names: self.names }, fields)? {
            Some(fields) => Ok(Some(Template {
                kind,
                revision,
                fields,
            })),
            None => Ok(None),
        }
    }
}

fn are_parts(templates: &[Template]) -> bool
    ensures { result ≡ are_parts templates.now }
{
    !templates.is_empty() && templates.len() <= 8
}

/// 1 to 8 events or parts.
#[tactic(auto, unfolding(crate::specs::Shape::templates_of))]
pub fn templates_of(
    alloc: Global,
    names: Names,
    value: &Json,
) -> Result<Option<Templates>, NoMemory>
    ensures value { IfOk result (λ templates. templates ≡ templates_of (takes names.entry) (view value.now)) }
{
    match list_of(alloc, &TemplateReader { names }, value)? {
        Some(templates) if are_parts(templates.parts()) => Ok(Some(templates)),
        _ => Ok(None),
    }
}
