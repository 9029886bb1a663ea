ghost use Rattle.std.specs.Prelude.{◌≡◌, ◌+◌, ◌^◌, ◌<◌, ◌≤◌, ◌*◌, [], length, map, slice_get, IsTrue, IfOk, OnOk};
ghost use Rattle.std.specs.Option.{option_copied};
ghost use Rattle.ax_state.specs.Every.{count};
ghost use Rattle.ax_state.specs.Setting.{IsSetting, is_projection, processor_number, projection_at, whole_at};
ghost use Rattle.ax_state.specs.State.{actor_name};
ghost use Rattle.ax_world.specs.WorldTables.{starting, state_of, processor_tables_at, desk_of};
ghost use Rattle.ax_world.specs.EditsApplied.{edits_applied};
ghost use Rattle.ax_world.specs.Fits.{IsWorld, Fits, HasRoom};

use crate::named::number_of;
use crate::parts::Parts;
use crate::place::ProcessorTables;
use crate::start::{empty_desks, first_places, row_count};
use crate::{Desk, Edits, Notice};
use ax_claims::Rows;
use ax_letters::Queue;
use ax_log::Log;
use ax_projections::Table;
use ax_rules::Rules;
use ax_sheet::{Processors, Sheet};
use ax_values::{ItemName, Name, Names, NoMemory};
use std::alloc::Global;
use std::marker::Model;

/// The state of the machine, which is well formed, with the rows of its projections: each is the fold of its aggregate's
/// items, as far as the processor has covered them.
#[derive(Drop)]
pub struct World {
    parts: Parts,
}

impl Model for World {
    ghost use Rattle.std.specs.Coded.{codes};
    ghost use Rattle.ax_rules.specs.ExprCode.{coded_expr};
    ghost use Rattle.ax_tokens.specs.TokenCode.{coded_token};
    ghost use Rattle.ax_world.specs.WorldTables.{WorldTablesView};
    ghost use Rattle.ax_world.specs.Fits.{IsWorld};

    ghost Value = { WorldTablesView };

    ghost coded = { Prim.hlevel (codes, coded_expr, coded_token) };

    ghost view = { λ w. w.parts };

    ghost invariant = { λ w. IsWorld w.parts.tables };
}

impl World {
    /// The starting world: no time has passed, no cell is there, each processor has its first segments with token 0, no
    /// owner and the fences from 1 on, has no letter, no dropped item and no mark, and keeps failed items as letters; there
    /// is no notice, and each desk is empty.
    pub fn start(
        alloc: Global,
        sheet: Sheet,
        processors: Processors,
        actors: Names,
    ) -> Result<World, NoMemory>
        requires { IsSetting (record { sheet = sheet; processors = processors; actors = actors }) }
        ensures { IfOk result (λ world. world.tables ≡ starting (record { sheet = sheet; processors = processors; actors = actors })) }
    {
        let processor_tables = first_places(alloc, processors.parts())?;
        let desks = empty_desks(alloc, actors.parts())?;
        let fence = row_count(processors.parts());
        let _ = sheet.commands();
        Ok(World {
            parts: Parts {
                sheet,
                processors,
                actors,
                clock: 0,
                fence,
                log: Log::new(alloc),
                processor_tables,
                notices: Vec::new(alloc),
                desks,
            },
        })
    }

    pub fn sheet(&self) -> &Sheet
        ensures { result.now ≡ self.now.tables.setting.sheet }
    {
        &self.parts.sheet
    }

    /// The processors, in the order of the head.
    pub fn processors(&self) -> &Processors
        ensures { result.now ≡ self.now.tables.setting.processors }
    {
        &self.parts.processors
    }

    /// The number of the processor of this name; how many there are, where none has it.
    pub fn processor(&self, name: &Name) -> u32
        ensures { result ≡ processor_number self.now.tables.setting.processors name.now }
    {
        number_of(self.parts.processors.parts(), name)
    }

    /// The rules of a projection processor.
    pub fn projection(&self, processor: u32) -> &Rules
        requires { IsTrue (is_projection self.now.tables.setting processor) }
        ensures { result.now ≡ projection_at self.now.tables.setting processor }
    {
        self.facts();
        let declared = &self.processors().parts()[processor as usize];
        let Some(rules) = self.sheet().projection(&declared.name) else {
            unreachable!()
        };
        rules
    }

    /// The actors, in the order of the head.
    pub fn actors(&self) -> &Names
        ensures { result.now ≡ self.now.tables.setting.actors }
    {
        &self.parts.actors
    }

    /// The name of an actor.
    pub fn actor_name(&self, actor: u32) -> &Name
        requires { actor < length self.now.tables.setting.actors }
        ensures { result.now ≡ actor_name (state_of self.now.tables) actor }
    {
        &self.parts.actors.parts()[actor as usize]
    }

    /// Says to a proof that the state is well formed and each kept row is the fold of the log. It does nothing.
    pub fn facts(&self)
        ensures { IsWorld self.now.tables }
    {
        let _ = &self.parts;
    }

    /// In milliseconds.
    pub fn clock(&self) -> u64
        ensures value { result ≡ self.now.tables.clock }
        ensures world { IsWorld self.now.tables }
    {
        self.parts.clock
    }

    /// The last fence that was given.
    pub fn fence(&self) -> u64
        ensures value { result ≡ self.now.tables.fence }
    {
        self.parts.fence
    }

    pub fn log(&self) -> &Log
        ensures value { result.now.cells ≡ self.now.tables.cells }
        ensures world { IsWorld self.now.tables }
    {
        &self.parts.log
    }

    /// The token rows of a processor.
    pub fn rows(&self, processor: u32) -> &Rows
        requires { processor < length self.now.tables.processor_tables }
        ensures { result.now ≡ (processor_tables_at self.now.tables processor).processor_state.rows }
    {
        &self.parts.processor_tables[processor as usize].rows
    }

    /// The rows of a projection processor.
    pub fn table(&self, processor: u32) -> &Table
        requires { processor < length self.now.tables.processor_tables }
        ensures { result.now.entries ≡ (processor_tables_at self.now.tables processor).table }
    {
        &self.parts.processor_tables[processor as usize].table
    }

    /// The letters of a processor, by sequence: the failed items of each, which wait until they are handled again (Axon's
    /// reference guide: the sequenced dead-letter queue).
    #[tactic(auto, using(crate::proofs::Wholes::whole_in))]
    pub fn queue(&self, processor: u32) -> &Queue
        requires { processor < length self.now.tables.processor_tables }
        ensures sequences { result.now.sequences ≡ (processor_tables_at self.now.tables processor).processor_state.queue }
        ensures whole { result.now.whole ≡ whole_at self.now.tables.setting processor }
    {
        self.facts();
        &self.tables_at(processor).queue
    }

    /// The items that a processor dropped for good, by aggregate, number and part. Its rows are folded without them (Axon's
    /// reference guide: items that are not enqueued, and letters that are evicted).
    pub fn drops(&self, processor: u32) -> &[ItemName]
        requires { processor < length self.now.tables.processor_tables }
        ensures { result.now ≡ (processor_tables_at self.now.tables processor).processor_state.drops }
    {
        &self.parts.processor_tables[processor as usize].drops
    }

    /// The policy of a processor: true where it keeps a failed item as a letter, false where it drops it (Axon's reference
    /// guide: the enqueue policy).
    pub fn policy(&self, processor: u32) -> bool
        requires { processor < length self.now.tables.processor_tables }
        ensures { result ≡ (processor_tables_at self.now.tables processor).processor_state.keep }
    {
        self.parts.processor_tables[processor as usize].keep
    }

    /// The items that are marked to fail in a processor, by aggregate, number and part.
    pub fn marks(&self, processor: u32) -> &[ItemName]
        requires { processor < length self.now.tables.processor_tables }
        ensures { result.now ≡ (processor_tables_at self.now.tables processor).processor_state.marks }
    {
        &self.parts.processor_tables[processor as usize].marks
    }

    /// The notices of projections: each says that an item was applied whose rule announces. None is there twice.
    pub fn notices(&self) -> &[Notice]
        ensures { result.now ≡ self.now.tables.notices }
    {
        &self.parts.notices
    }

    /// What an actor holds.
    #[tactic(auto, using(crate::proofs::OneProcessorChanges::got_map))]
    pub fn desk(&self, actor: u32) -> &Desk
        requires { actor < length self.now.tables.desks }
        ensures desk { slice_get self.now.tables.desks actor ≡ Some (desk_of result.now) }
        ensures batch { slice_get self.now.tables.bases actor ≡ Some result.now.batch }
    {
        &self.parts.desks[actor as usize]
    }

    /// Makes room for the edits. What is kept stays, also where memory is wanting.
    pub fn prepare(&mut self, edits: &Edits) -> Result<(), NoMemory>
        requires { Fits self.old.tables edits.now }
        ensures tables { self.new.tables ≡ self.old.tables }
        ensures room { OnOk result (HasRoom self.new.room edits.now) }
    {
        self.parts.prepare(edits.parts())
    }

    /// Makes the edits, one after another. It takes no memory.
    pub fn install(&mut self, edits: Edits)
        requires fits { Fits self.old.tables edits }
        requires room { HasRoom self.old.room edits }
        ensures { self.new.tables ≡ edits_applied edits self.old.tables }
    {
        self.parts.make_all(edits);
    }

    #[tactic(auto, using(crate::proofs::OneProcessorChanges::got_map))]
    fn tables_at(&self, processor: u32) -> &ProcessorTables
        requires { processor < length self.now.tables.processor_tables }
        ensures { slice_get self.now.tables.processor_tables processor ≡ Some result.now.place }
    {
        &self.parts.processor_tables[processor as usize]
    }
}
