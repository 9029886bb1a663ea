ghost use Rattle.std.specs.Prelude.{◌≡◌, ◌<◌, map, length, slice_set, IfOk};
ghost use Rattle.ax_world.specs.WorldTables.{desk_of, no_desk};
ghost use Rattle.ax_world.specs.Holding.{is_held_at};

use ax_basis::Basis;
use ax_segments::Segment;
use ax_values::{Duplicate, ListOf, Name, NoMemory, Records};
use std::alloc::Global;
use std::marker::Model;

/// The fence of a claim.
#[derive(Drop)]
pub struct Held {
    pub processor: u32,
    pub segment: Segment,
    pub fence: u64,
}

pub type HeldList = ListOf<Held>;

/// Cells of the log from `first` on, for records that go on with a stream from its number `first_seq` on.
#[derive(Drop)]
pub struct Reservation {
    pub first: u32,
    pub first_seq: u32,
    pub records: Records,
}

/// A sequence of letters that was taken to handle them again.
#[derive(Drop)]
pub struct Grip {
    pub processor: u32,
    pub sequence: Name,
    /// The number of the take. A later take of the same sequence has another.
    pub number: u64,
}

/// What one actor holds: the fences of its claims, the cells that it has reserved, the batch that it has fetched, and the
/// sequence of letters that it has taken.
#[derive(Drop)]
pub struct Desk {
    pub held: HeldList,
    pub reservation: Option<Reservation>,
    pub batch: Option<Basis>,
    pub taken: Option<Grip>,
}

impl Model for Held {
    ghost use Rattle.ax_state.specs.State.{Held as Kept};

    ghost Value = { Kept };

    ghost view = { λ held. record { processor = held.processor; segment = held.segment; fence = held.fence } };
}

impl Model for Reservation {
    ghost use Rattle.ax_state.specs.State.{Reservation as Kept};

    ghost Value = { Kept };

    ghost view = { λ held. record { first = held.first; first_seq = held.first_seq; records = held.records } };
}

impl Model for Grip {
    ghost use Rattle.ax_state.specs.State.{Grip as Kept};

    ghost Value = { Kept };

    ghost view = { λ grip. record { processor = grip.processor; sequence = grip.sequence; number = grip.number } };
}

impl Model for Desk {
    ghost use Rattle.std.specs.Coded.{codes};
    ghost use Rattle.ax_tokens.specs.TokenCode.{coded_token};
    ghost use Rattle.ax_world.specs.WorldTables.{DeskTables};

    ghost Value = { DeskTables };

    ghost coded = { Prim.hlevel (codes, coded_token) };

    ghost view = { λ desk. record { held = desk.held; reservation = desk.reservation; batch = desk.batch; taken = desk.taken } };
}

impl Held {
    /// Whether the fence is that of a segment of the processor.
    pub fn is_at(&self, processor: u32, segment: Segment) -> bool
        ensures { result ≡ is_held_at processor segment self.now }
    {
        self.processor == processor && self.segment == segment
    }
}

impl Duplicate for Held {
    fn copy(&self, _alloc: Global) -> Result<Held, NoMemory> {
        Ok(Held {
            processor: self.processor,
            segment: self.segment,
            fence: self.fence,
        })
    }
}

impl Duplicate for Reservation {
    fn copy(&self, alloc: Global) -> Result<Reservation, NoMemory> {
        Ok(Reservation {
            first: self.first,
            first_seq: self.first_seq,
            records: self.records.copy(alloc)?,
        })
    }
}

impl Duplicate for Grip {
    fn copy(&self, alloc: Global) -> Result<Grip, NoMemory> {
        Ok(Grip {
            processor: self.processor,
            sequence: self.sequence.copy(alloc)?,
            number: self.number,
        })
    }
}

impl Duplicate for Desk {
    fn copy(&self, alloc: Global) -> Result<Desk, NoMemory> {
        Ok(Desk {
            held: self.held.copy(alloc)?,
            reservation: self.reservation.copy(alloc)?,
            batch: self.batch.copy(alloc)?,
            taken: self.taken.copy(alloc)?,
        })
    }
}

impl Desk {
    /// A desk that holds nothing.
    pub fn empty(alloc: Global) -> Desk
        ensures { result ≡ no_desk }
    {
        Desk {
            held: HeldList::new(alloc),
            reservation: None,
            batch: None,
            taken: None,
        }
    }

    /// A copy with another reservation.
    pub fn with_reservation(
        &self,
        alloc: Global,
        reservation: Option<Reservation>,
    ) -> Result<Desk, NoMemory>
        ensures { IfOk result (λ desk. desk ≡ record self.now { reservation = reservation }) }
    {
        Ok(Desk {
            held: self.held.copy(alloc)?,
            reservation,
            batch: self.batch.copy(alloc)?,
            taken: self.taken.copy(alloc)?,
        })
    }

    /// A copy with other fences held.
    pub fn with_held(&self, alloc: Global, held: HeldList) -> Result<Desk, NoMemory>
        ensures { IfOk result (λ desk. desk ≡ record self.now { held = held }) }
    {
        Ok(Desk {
            held,
            reservation: self.reservation.copy(alloc)?,
            batch: self.batch.copy(alloc)?,
            taken: self.taken.copy(alloc)?,
        })
    }

    /// A copy with another batch.
    pub fn with_batch(&self, alloc: Global, batch: Option<Basis>) -> Result<Desk, NoMemory>
        ensures { IfOk result (λ desk. desk ≡ record self.now { batch = batch }) }
    {
        Ok(Desk {
            held: self.held.copy(alloc)?,
            reservation: self.reservation.copy(alloc)?,
            batch,
            taken: self.taken.copy(alloc)?,
        })
    }

    /// A copy with another sequence of letters taken, or none.
    pub fn with_taken(&self, alloc: Global, taken: Option<Grip>) -> Result<Desk, NoMemory>
        ensures { IfOk result (λ desk. desk ≡ record self.now { taken = taken }) }
    {
        Ok(Desk {
            held: self.held.copy(alloc)?,
            reservation: self.reservation.copy(alloc)?,
            batch: self.batch.copy(alloc)?,
            taken,
        })
    }
}

/// Puts a desk in the place of an actor's. It takes no memory.
#[tactic(auto, using(crate::proofs::OneProcessorChanges::map_set))]
pub(crate) fn set_desk(desks: &mut Vec<Desk>, actor: u32, desk: Desk)
    requires { actor < length desks.old.items }
    ensures desks { map desk_of desks.new.items ≡ slice_set (map desk_of desks.old.items) actor (desk_of desk) }
    ensures bases { map (λ x. x.batch) desks.new.items ≡ slice_set (map (λ x. x.batch) desks.old.items) actor desk.batch }
{
    desks[actor as usize] = desk;
}
