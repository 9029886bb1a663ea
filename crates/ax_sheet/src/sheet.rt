ghost use Rattle.std.specs.Prelude.{◌≡◌, find, length, map, IfOk, IfErr, IfSome, IsTrue, None, Some, option_copied};
ghost use Rattle.std.specs.List.{list_all};
ghost use Rattle.ax_values.specs.Words.{same_name};
ghost use Rattle.ax_sheet_parts.specs.Sheet.{command_fits, command_named, names_rise, projection_named, saga_named};
ghost use Rattle.ax_sheet_parts.specs.declared.fault.SheetFault.{SheetFault as Fault};
ghost use Rattle.ax_sheet_rules.specs.Shape.{sheet_in};

use crate::{Command, NamedCommand, NamedRules, NamedSaga, SheetFault};
use ax_rules::{Rules, SagaRules};
use ax_sheet_parts::SheetParts;
use ax_sheet_reading::sheet_in;
use ax_upcast::Chain;
use ax_values::{Duplicate, Name, NoMemory};
use std::alloc::Global;
use std::marker::Model;

/// An application as a user declares it: aggregate, commands, upcasters, projections and sagas. It has the shape that
/// `docs/SHEETS.md` describes.
#[derive(Drop)]
pub struct Sheet {
    pub(crate) parts: SheetParts,
}

impl Model for Sheet {
    ghost use Rattle.std.specs.Coded.{codes};
    ghost use Rattle.ax_rules.specs.ExprCode.{coded_expr};
    ghost use Rattle.ax_sheet_parts.specs.declared.whole.SheetParts.{SheetParts};
    ghost use Rattle.ax_sheet_rules.specs.Shape.{IsSheet};

    ghost Value = { SheetParts };

    ghost coded = { Prim.hlevel (codes, coded_expr) };

    ghost view = { λ sheet. sheet.parts };

    ghost invariant = { λ sheet. IsSheet sheet.parts };
}

impl Sheet {
    /// The sheet that a text is: JSON of the shape, in UTF-8. `Refused` comes exactly where the text is none.
    pub fn read(alloc: Global, text: &[u8]) -> Result<Sheet, SheetFault>
        ensures ok { IfOk result (λ sheet. sheet_in text.now ≡ Some sheet) }
        ensures refused { IfErr result (λ fault. fault ≡ Fault.Refused → sheet_in text.now ≡ None) }
    {
        match sheet_in(alloc, text)? {
            Some(parts) => Ok(Sheet { parts }),
            None => Err(SheetFault::Refused),
        }
    }

    pub fn name(&self) -> &Name
        ensures value { result.now ≡ self.now.name }
    {
        &self.parts.name
    }

    pub fn revision(&self) -> u32
        ensures value { result ≡ self.now.revision }
    {
        self.parts.revision
    }

    pub fn aggregate(&self) -> &Rules
        ensures value { result.now ≡ self.now.aggregate }
    {
        &self.parts.aggregate
    }

    /// The commands, rising by name.
    pub fn commands(&self) -> &[NamedCommand]
        ensures value { result.now ≡ self.now.commands }
        ensures rising { IsTrue (names_rise (map (λ named. named.name) self.now.commands)) }
        ensures shape { IsTrue (list_all (λ named. command_fits (length self.now.aggregate.fields) named.command) self.now.commands) }
    {
        self.parts.commands.parts()
    }

    pub fn chain(&self) -> &Chain
        ensures value { result.now ≡ self.now.chain }
    {
        &self.parts.chain
    }

    /// The projections, rising by name.
    pub fn projections(&self) -> &[NamedRules]
        ensures value { result.now ≡ self.now.projections }
        ensures rising { IsTrue (names_rise (map (λ named. named.name) self.now.projections)) }
    {
        self.parts.projections.parts()
    }

    /// The sagas, rising by name.
    pub fn sagas(&self) -> &[NamedSaga]
        ensures value { result.now ≡ self.now.sagas }
        ensures rising { IsTrue (names_rise (map (λ named. named.name) self.now.sagas)) }
    {
        self.parts.sagas.parts()
    }

    fn named_command(&self, name: &Name) -> Option<&NamedCommand>
        ensures value { option_copied result ≡ find (λ named. same_name named.name name.now) self.now.commands }
        ensures shape { IfSome result (λ named. IsTrue (command_fits (length self.now.aggregate.fields) named.now.command)) }
    {
        self.commands().iter().find(|named| named.name.same(name))
    }

    /// The command of this name. Its guards use fields of the aggregate, and are fewer than 2^32; it has 1 to 8 events with
    /// at most 16 fields each.
    pub fn command(&self, name: &Name) -> Option<&Command>
        ensures value { option_copied result ≡ command_named self.now name.now }
        ensures shape { IfSome result (λ command. IsTrue (command_fits (length self.now.aggregate.fields) command.now)) }
    {
        match self.named_command(name) {
            Some(named) => Some(&named.command),
            None => None,
        }
    }

    /// The rules of the projection of this name.
    pub fn projection(&self, name: &Name) -> Option<&Rules>
        ensures value { option_copied result ≡ projection_named self.now name.now }
    {
        match self
            .projections()
            .iter()
            .find(|named| named.name.same(name))
        {
            Some(named) => Some(&named.rules),
            None => None,
        }
    }

    /// The rules of the saga of this name.
    pub fn saga(&self, name: &Name) -> Option<&SagaRules>
        ensures value { option_copied result ≡ saga_named self.now name.now }
    {
        match self.sagas().iter().find(|named| named.name.same(name)) {
            Some(named) => Some(&named.rules),
            None => None,
        }
    }
}

impl Duplicate for Sheet {
    fn copy(&self, alloc: Global) -> Result<Sheet, NoMemory> {
        Ok(Sheet {
            parts: self.parts.copy(alloc)?,
        })
    }
}
