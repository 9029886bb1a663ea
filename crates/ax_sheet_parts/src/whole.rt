use crate::{Commands, Projections, SagaList};
use ax_rules::Rules;
use ax_upcast::Chain;
use ax_values::{Duplicate, Name, NoMemory};
use std::alloc::Global;

/// The members of a sheet.
#[derive(Drop)]
pub struct SheetParts {
    pub name: Name,
    pub revision: u32,
    pub aggregate: Rules,
    pub commands: Commands,
    pub chain: Chain,
    pub projections: Projections,
    pub sagas: SagaList,
}

impl Duplicate for SheetParts {
    fn copy(&self, alloc: Global) -> Result<SheetParts, NoMemory> {
        Ok(SheetParts {
            name: self.name.copy(alloc)?,
            revision: self.revision,
            aggregate: self.aggregate.copy(alloc)?,
            commands: self.commands.copy(alloc)?,
            chain: self.chain.copy(alloc)?,
            projections: self.projections.copy(alloc)?,
            sagas: self.sagas.copy(alloc)?,
        })
    }
}
