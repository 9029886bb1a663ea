ghost use Rattle.std.specs.Prelude.{◌≡◌, ◌+◌, ◌-◌, ◌<◌, ◌≤◌, ◌++◌, [], ◌∷◌, length, slice_index_or, remove, slice_get, Some, None, IsOk, IfOk, OnOk, OnErr};
ghost use Rattle.std.specs.Option.{option_copied};
ghost use Rattle.ax_letters.specs.Letters.{is_free_at, first_touched, with_letter};
ghost use Rattle.ax_letters.specs.Room.{blank, IsTouched};

use crate::{Letter, Taken};
use ax_rules::Why;
use ax_values::{ItemName, Name, NoMemory};
use std::alloc::Global;
use std::marker::Model;

/// For how long a take stands, in milliseconds.
const TAKE_PERIOD: u64 = 30_000;

/// The letters of a sequence, with memory set aside for some more.
#[derive(Drop)]
pub(crate) struct Sequence {
    name: Name,
    letters: Vec<Letter>,
    taken: Option<Taken>,
    /// For how many letters more memory was set aside.
    room: usize,
}

impl Model for Sequence {
    ghost use Rattle.std.specs.Prelude.{◌+◌, ◌≤◌, vec_len, vec_capacity};
    ghost use Rattle.ax_letters.specs.Room.{Kept};

    ghost Value = { Kept };

    ghost view = { λ s. record { sequence = record { name = s.name; letters = s.letters.items; taken = s.taken }; room = s.room } };

    ghost invariant = { λ s. vec_len s.letters + s.room ≤ vec_capacity s.letters };
}

impl Sequence {
    /// The sequence of a name, without letters.
    pub(crate) fn new(alloc: Global, name: Name) -> Sequence
        ensures { result ≡ record { sequence = blank name; room = 0 } }
    {
        Sequence {
            name,
            letters: Vec::new(alloc),
            taken: None,
            room: 0,
        }
    }

    pub(crate) fn name(&self) -> &Name
        ensures { result.now ≡ self.now.sequence.name }
    {
        &self.name
    }

    pub(crate) fn letters(&self) -> &[Letter]
        ensures { result.now ≡ self.now.sequence.letters }
    {
        &self.letters
    }

    pub(crate) fn taken(&self) -> Option<&Taken>
        ensures { option_copied result ≡ self.now.sequence.taken }
    {
        self.taken.as_ref()
    }

    /// For how many letters more memory was set aside.
    pub(crate) fn room(&self) -> usize
        ensures { result ≡ self.now.room }
    {
        self.room
    }

    /// Whether it may be taken at the moment `now`: it is not taken, or since more than 30,000 ms.
    pub(crate) fn is_free_at(&self, now: u64) -> bool
        ensures { result ≡ is_free_at now self.now.sequence.taken }
    {
        match &self.taken {
            Some(taken) => now.saturating_sub(taken.since) > TAKE_PERIOD,
            None => true,
        }
    }

    /// When its first letter was touched.
    pub(crate) fn touched(&self) -> u64
        ensures { result ≡ first_touched self.now.sequence.letters }
    {
        match self.letters() {
            [first, ..] => first.touched,
            [] => 0,
        }
    }

    /// Sets memory aside for one letter more.
    pub(crate) fn expect(&mut self) -> Result<(), NoMemory>
        ensures sequence { self.new.sequence ≡ self.old.sequence }
        ensures ok { OnOk result (self.new.room ≡ self.old.room + 1) }
        ensures err { OnErr result (self.new.room ≡ self.old.room) }
    {
        let Some(room) = self.room.checked_add(1) else {
            return Err(NoMemory);
        };
        self.letters.reserve(room)?;
        self.room = room;
        Ok(())
    }

    /// Adds a letter at the end, with memory that was set aside.
    pub(crate) fn put(&mut self, letter: Letter)
        requires { 0 < self.old.room }
        ensures { self.new ≡ record { sequence = with_letter self.old.sequence letter; room = self.old.room - 1 } }
    {
        self.room -= 1;
        self.letters.push_reserved(letter);
    }

    /// Takes out the letter at a place.
    pub(crate) fn remove(&mut self, place: usize) -> Letter
        requires { place < length self.old.sequence.letters }
        ensures letter { slice_get self.old.sequence.letters place ≡ Some result }
        ensures rest { self.new ≡ record self.old { sequence = record self.old.sequence { letters = remove self.old.sequence.letters place } } }
    {
        self.letters.remove(place)
    }

    /// Gives the letter at a place a new cause and moment.
    pub(crate) fn touch(&mut self, place: usize, why: Why, now: u64)
        requires { place < length self.old.sequence.letters }
        ensures { IsTouched place why now self.old self.new }
    {
        let letter = &mut self.letters[place];
        letter.touched = now;
        letter.why = why;
    }

    /// Takes or frees it.
    pub(crate) fn hold(&mut self, taken: Option<Taken>)
        ensures { self.new ≡ record self.old { sequence = record self.old.sequence { taken = taken } } }
    {
        self.taken = taken;
    }
}
