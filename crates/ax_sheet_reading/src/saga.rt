ghost use Rattle.std.specs.Prelude.{◌≡◌, ◌≤◌, IfOk, length, codes, option_copied, option_map};
ghost use Rattle.serde_json.specs.View.{view, members_view};
ghost use Rattle.ax_sheet_rules.specs.Members.{object_of, wanted};
ghost use Rattle.ax_sheet_rules.specs.Shape.{key_in, from_in, key_of, from_of, association_of, suits, given_param_of, each_param, command_in, dispatch_of, handler_keys, handler_of, saga_of};

use ax_rules::{
    Association, Dispatch, GivenParam, GivenParams, Handler, Initial, ParamKind, SagaRules, Source,
};
use ax_sheet_parts::{NamedCommand, NamedSaga, Param, is_kind};
use ax_sheet_rules::{
    Names, ReadsItem, ReadsMember, copied, fields_and_rules, flag_of, given_of, object_of,
    optional_guards, optional_list, optional_sets, pair_of, triple_of, wanted_fields,
    wanted_object,
};
use ax_values::{Duplicate, Given, Name, NoMemory};
use serde_json::{Map, Value};
use std::alloc::Global;

/// `@` or a name.
fn key_in(alloc: Global, word: &[u8]) -> Result<Option<Source>, NoMemory>
    ensures { IfOk result (λ source. source ≡ key_in word.now) }
{
    match word {
        b"@" => Ok(Some(Source::Aggregate)),
        _ => Ok(Name::read(alloc, word)?.map(Source::Property)),
    }
}

/// `@`, or `$` and a name.
fn from_in(alloc: Global, word: &[u8]) -> Result<Option<Source>, NoMemory>
    ensures { IfOk result (λ source. source ≡ from_in word.now) }
{
    match word {
        b"@" => Ok(Some(Source::Aggregate)),
        _ => Ok(copied(alloc, word)?.map(Source::Property)),
    }
}

#[tactic(auto, unfolding(ax_sheet_rules::specs::Shape::key_of))]
fn key_of(alloc: Global, value: &Value) -> Result<Option<Source>, NoMemory>
    ensures { IfOk result (λ source. source ≡ key_of (view value.now)) }
{
    match value.as_str() {
        Some(word) => key_in(alloc, word.as_bytes()),
        None => Ok(None),
    }
}

#[tactic(auto, unfolding(ax_sheet_rules::specs::Shape::from_of))]
fn from_of(alloc: Global, value: &Value) -> Result<Option<Source>, NoMemory>
    ensures { IfOk result (λ source. source ≡ from_of (view value.now)) }
{
    match value.as_str() {
        Some(word) => from_in(alloc, word.as_bytes()),
        None => Ok(None),
    }
}

/// Reads associations.
#[derive(Drop)]
struct AssociationReader;

impl ReadsItem for AssociationReader {
    type Part = Association;

    ghost read = { λ reader. association_of };

    #[tactic(auto, unfolding(ax_sheet_rules::specs::Shape::association_of))]
    fn item(&self, alloc: Global, value: &Value) -> Result<Option<Association>, NoMemory> {
        let Some((key, from)) = pair_of(value) else {
            return Ok(None);
        };
        let Some(key) = key_of(alloc, key)? else {
            return Ok(None);
        };
        match from_of(alloc, from)? {
            Some(from) => Ok(Some(Association { key, from })),
            None => Ok(None),
        }
    }
}

/// Whether a parameter of this kind may be given this: a copy, or a constant of the kind.
fn suits(kind: ParamKind, given: &Given) -> bool
    ensures { result ≡ suits kind given.now }
{
    match given {
        Given::Copy(_) => true,
        Given::Just(value) => is_kind(kind, value),
    }
}

/// What a member gives a parameter, whose name the member has.
#[tactic(auto, unfolding(ax_sheet_rules::specs::Shape::given_param_of))]
fn given_param_of(
    alloc: Global,
    param: &Param,
    key: &[u8],
    value: &Value,
) -> Result<Option<GivenParam>, NoMemory>
    ensures { IfOk result (λ given. given ≡ given_param_of param.now key.now (view value.now)) }
{
    if param.name.parts() != key {
        return Ok(None);
    }
    match given_of(alloc, Names::Any, value)? {
        Some(given) if suits(param.kind, &given) => Ok(Some(GivenParam {
            name: param.name.copy(alloc)?,
            kind: param.kind,
            given,
        })),
        _ => Ok(None),
    }
}

/// Exactly the parameters, which rise by name as the members do.
fn each_param(
    alloc: Global,
    params: &[Param],
    members: &Map<String, Value>,
) -> Result<Option<GivenParams>, NoMemory>
    ensures { IfOk result (λ all. all ≡ each_param params.now (members_view members.now.entries)) }
{
    let mut all = GivenParams::new(alloc);
    let mut entries = members.iter();
    for param in params {
        let Some((key, value)) = entries.next() else {
            return Ok(None);
        };
        match given_param_of(alloc, param, key.as_bytes(), value)? {
            Some(given) => all.push(given)?,
            None => return Ok(None),
        }
    }
    match entries.next() {
        Some(_) => Ok(None),
        None => Ok(Some(all)),
    }
}

/// The command of this name.
fn command_in<'a>(commands: &'a [NamedCommand], word: &[u8]) -> Option<&'a NamedCommand>
    ensures { option_copied result ≡ command_in commands.now word.now }
{
    commands.iter().find(|command| command.name.parts() == word)
}

/// Reads what is sent: one of these commands, its target and its parameters.
#[derive(Drop)]
struct DispatchReader<'a> {
    commands: &'a [NamedCommand],
}

impl ReadsItem for DispatchReader<'_> {
    type Part = Dispatch;

    ghost read = { λ reader. dispatch_of reader.commands.now };

    #[tactic(auto, unfolding(ax_sheet_rules::specs::Shape::dispatch_of))]
    fn item(&self, alloc: Global, value: &Value) -> Result<Option<Dispatch>, NoMemory> {
        let Some((word, target, params)) = triple_of(value) else {
            return Ok(None);
        };
        let Some(word) = word.as_str() else {
            return Ok(None);
        };
        let Some(command) = command_in(self.commands, word.as_bytes()) else {
            return Ok(None);
        };
        let Some(target) = from_of(alloc, target)? else {
            return Ok(None);
        };
        let Some(members) = params.as_object() else {
            return Ok(None);
        };
        match each_param(alloc, command.command.params(), members)? {
            Some(params) => Ok(Some(Dispatch {
                command: command.name.copy(alloc)?,
                target,
                params,
            })),
            None => Ok(None),
        }
    }
}

fn handler_object(value: &Value) -> Option<&Value>
    ensures { option_map (λ found. view found.now) result ≡ object_of handler_keys (view value.now) }
{
    object_of(
        &[
            "by",
            "start",
            "guards",
            "sets",
            "associate",
            "dissociate",
            "send",
            "end",
        ],
        value,
    )
}

/// Reads handlers over these fields, which send these commands.
#[derive(Drop)]
struct HandlerReader<'a> {
    commands: &'a [NamedCommand],
    fields: &'a [Initial],
    ghost few: { length fields.now ≤ 8 },
}

impl ReadsMember for HandlerReader<'_> {
    type Part = Handler;

    ghost read = { λ reader. handler_of reader.commands.now reader.fields.now };

    #[tactic(auto, unfolding(ax_sheet_rules::specs::Shape::handler_of))]
    fn member(
        &self,
        alloc: Global,
        kind: Name,
        value: &Value,
    ) -> Result<Option<Handler>, NoMemory> {
        let Some(object) = handler_object(value) else {
            return Ok(None);
        };
        let Some(by) = wanted_key(alloc, object)? else {
            return Ok(None);
        };
        let (Some(start), Some(end)) = (flag_of("start", object), flag_of("end", object)) else {
            return Ok(None);
        };
        let Some(guards) = optional_guards(alloc, self.fields, object)? else {
            return Ok(None);
        };
        let Some(sets) = optional_sets(alloc, self.fields, object)? else {
            return Ok(None);
        };
        let Some(associate) = optional_list(alloc, &AssociationReader, "associate", object)? else {
            return Ok(None);
        };
        let Some(dissociate) = optional_list(alloc, &AssociationReader, "dissociate", object)?
        else {
            return Ok(None);
        };
        let reader = DispatchReader {
            commands: self.commands,
        };
        let Some(send) = optional_list(alloc, &reader, "send", object)? else {
            return Ok(None);
        };
        Ok(Some(Handler {
            kind,
            by,
            start,
            guards,
            sets,
            associate,
            dissociate,
            send,
            end,
        }))
    }
}

/// The property of a handler, which must be there.
fn wanted_key(alloc: Global, object: &Value) -> Result<Option<Source>, NoMemory>
    ensures { IfOk result (λ by. by ≡ wanted (codes "by") key_of (view object.now)) }
{
    match object.get("by") {
        Some(by) => key_of(alloc, by),
        None => Ok(None),
    }
}

/// Reads sagas, which send these commands.
#[derive(Drop)]
pub(crate) struct SagaReader<'a> {
    pub(crate) commands: &'a [NamedCommand],
}

impl ReadsMember for SagaReader<'_> {
    type Part = NamedSaga;

    ghost read = { λ reader. saga_of reader.commands.now };

    #[tactic(auto, unfolding(ax_sheet_rules::specs::Shape::saga_of))]
    fn member(
        &self,
        alloc: Global,
        name: Name,
        value: &Value,
    ) -> Result<Option<NamedSaga>, NoMemory> {
        let Some(object) = fields_and_rules(value) else {
            return Ok(None);
        };
        let Some(fields) = wanted_fields(alloc, object)? else {
            return Ok(None);
        };
        let reader = HandlerReader {
            commands: self.commands,
            fields: fields.parts(),
        };
        match wanted_object(alloc, &reader, "on", object)? {
            Some(handlers) => Ok(Some(NamedSaga {
                name,
                rules: SagaRules::of(fields, handlers),
            })),
            None => Ok(None),
        }
    }
}
