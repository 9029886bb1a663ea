ghost use Rattle.std.specs.Prelude.{◌≡◌, ◌+◌, ◌<◌, ◌≤◌, [], ◌∷◌, length, map, option_map, slice_get, IsTrue, Some, None, Ok, Err, OnOk, OnErr, IfOk, IfSome, IfNone, ok_or};
ghost use Rattle.std.specs.Option.{option_copied};
ghost use Rattle.ax_values.specs.Words.{sequence_in};
ghost use Rattle.ax_letters.specs.Letters.{IsQueue, is_parked, letters_of, taken_of, letter_of, sequence_named, sequence_of, oldest_free, enqueue, evict, requeue, hold};
ghost use Rattle.ax_letters.specs.Room.{HasRoom, IsLetterPlace, KeepsRoom, MakesRoom, TakesRoom, room_of, sequences_of};
ghost use Rattle.ax_letters.specs.Answers.{IsRefusal, IsTake, enqueue_refusal, taking};

use crate::choice::{oldest, oldest_free};
use crate::places::{insert_reserved, place_among, place_of, prepare, take_letter, take_prepared};
use crate::sequence::Sequence;
use crate::{Letter, QueueFault, Taken};
use ax_rules::Why;
use ax_values::{Duplicate, ItemName, Name, NoMemory, Same};
use std::alloc::Global;
use std::marker::Model;

/// How many sequences a processor may have.
const MAX_SEQUENCES: usize = 1024;

/// How many letters a sequence may have.
const MAX_LETTERS: usize = 1024;

/// The parked items of a processor by sequence: that of an aggregate, or of the whole processor. A sequence is there while
/// it has letters, at most 1,024 of them in the order in which they came, and a processor has at most 1,024 sequences.
#[derive(Drop)]
pub struct Queue {
    whole: Option<Name>,
    /// By name.
    sequences: Vec<Sequence>,
    /// Sequences without letters that may come, by name.
    prepared: Vec<Sequence>,
}

impl Model for Queue {
    ghost use Rattle.std.specs.Prelude.{vec_capacity};
    ghost use Rattle.ax_letters.specs.Room.{QueueView, IsStored, queue_of, spares};

    ghost Value = { QueueView };

    ghost view = { λ q. record {
      whole = q.whole;
      sequences = queue_of q.sequences.items;
      room = record { there = spares q.sequences.items; prepared = spares q.prepared.items };
    } };

    ghost invariant = { λ q. IsStored q.sequences.items q.prepared.items (vec_capacity q.sequences) };
}

impl Queue {
    /// The queue without letters, of a processor that is one sequence under its name where it is `whole`.
    pub fn new(alloc: Global, whole: Option<Name>) -> Queue
        ensures whole { result.whole ≡ whole }
        ensures sequences { result.sequences ≡ [] }
    {
        Queue {
            whole,
            sequences: Vec::new(alloc),
            prepared: Vec::new(alloc),
        }
    }

    /// Whether a sequence has letters.
    pub fn contains(&self, sequence: &Name) -> bool
        ensures { result ≡ is_parked sequence.now self.now.sequences }
    {
        self.sequence(sequence).is_some()
    }

    /// How many sequences have letters.
    pub fn sequence_count(&self) -> u32
        ensures value { result ≡ length self.now.sequences }
        ensures kept { IsQueue self.now.sequences }
    {
        self.sequences.len() as u32
    }

    /// The name of the sequence at a place, counted from 0 in the order of the names. None comes exactly from the count on.
    pub fn sequence_at(&self, place: u32) -> Option<&Name>
        ensures { option_copied result ≡ slice_get (map (λ s. s.name) self.now.sequences) place }
    {
        match self.sequences.get(place as usize) {
            Some(sequence) => Some(sequence.name()),
            None => None,
        }
    }

    /// The letters of a sequence, in the order in which they came.
    pub fn letters_of(&self, sequence: &Name) -> &[Letter]
        ensures { result.now ≡ letters_of sequence.now self.now.sequences }
    {
        match self.sequence(sequence) {
            Some(sequence) => sequence.letters(),
            None => &[],
        }
    }

    /// Who took a sequence. None comes exactly where it is not taken.
    pub fn taken(&self, sequence: &Name) -> Option<&Taken>
        ensures { option_copied result ≡ taken_of sequence.now self.now.sequences }
    {
        match self.sequence(sequence) {
            Some(sequence) => sequence.taken(),
            None => None,
        }
    }

    /// The next sequence at the moment `now`, in milliseconds: of those that are not taken, or since more than 30,000 ms,
    /// the one whose first letter was touched least recently, and of such the first by name. None comes exactly where no
    /// sequence is free.
    pub fn oldest_free(&self, now: u64) -> Option<&Name>
        ensures { option_copied result ≡ option_map (λ s. s.name) (oldest_free now self.now.sequences) }
    {
        oldest_free(&self.sequences, now).map(|sequence| sequence.name())
    }

    /// The sequence that a take at the moment `now`, in milliseconds, gets: the next one. None comes exactly where there
    /// are no letters, LettersTaken exactly where there are and no sequence is free; memory may be wanting for the name in it.
    pub fn take(&self, alloc: Global, now: u64) -> Result<Option<&Name>, QueueFault>
        ensures { IsTake (taking now self.now.sequences) result }
    {
        if let Some(name) = self.oldest_free(now) {
            return Ok(Some(name));
        }
        match oldest(&self.sequences).and_then(|sequence| sequence.taken()) {
            Some(taken) => Err(QueueFault::LettersTaken {
                by: taken.by.copy(alloc)?,
                since: taken.since,
            }),
            None => Ok(None),
        }
    }

    /// Puts a letter at the end of its sequence, which begins with it where it has none.
    /// SequencesFull comes exactly where the sequence has no letters and 1,024 others have; SequenceFull exactly where it
    /// has 1,024 letters. Memory may be wanting only where neither comes, and not where `room` was made for the letter.
    pub fn enqueue(&mut self, letter: Letter) -> Result<(), QueueFault>
        ensures whole { self.new.whole ≡ self.old.whole }
        ensures ok { OnOk result (self.new.sequences ≡ enqueue self.old.whole letter self.old.sequences) }
        ensures err { OnErr result (self.new.sequences ≡ self.old.sequences) }
        ensures cause { IsRefusal (enqueue_refusal self.old.whole letter self.old.sequences) result }
        ensures roomy { 0 < room_of (sequence_of self.old.whole letter) self.old.room → result ≡ Err QueueFault.Memory → ⊥ }
        ensures room { TakesRoom self.old.room self.new.room (sequence_of self.old.whole letter ∷ []) }
    {
        self.admit(&letter)?;
        self.put(letter);
        Ok(())
    }

    /// Takes the first letter of the item out. With the last letter of a sequence its take ends.
    /// NoLetter comes exactly where the item has none. It takes no memory; the letters after it, at most 1,023, move one place
    /// down, so that `letters_of` stays one slice.
    pub fn evict(&mut self, item: &ItemName) -> Result<Letter, QueueFault>
        ensures value { result ≡ ok_or (letter_of self.old.whole item.now self.old.sequences) QueueFault.NoLetter }
        ensures whole { self.new.whole ≡ self.old.whole }
        ensures ok { OnOk result (self.new.sequences ≡ evict self.old.whole item.now self.old.sequences) }
        ensures err { OnErr result (self.new ≡ self.old) }
    {
        let Some((place, at)) = self.place_of_letter(item) else {
            return Err(QueueFault::NoLetter);
        };
        Ok(take_letter(&mut self.sequences, place, at))
    }

    /// Gives the first letter of the item a new cause, and the moment `now`, in milliseconds, as that of its last failure.
    /// NoLetter comes exactly where the item has none.
    pub fn requeue(&mut self, item: &ItemName, why: Why, now: u64) -> Result<(), QueueFault>
        ensures value { result ≡ ok_or (option_map (λ _. tt) (letter_of self.old.whole item.now self.old.sequences)) QueueFault.NoLetter }
        ensures whole { self.new.whole ≡ self.old.whole }
        ensures ok { OnOk result (self.new.sequences ≡ requeue self.old.whole item.now why now self.old.sequences) }
        ensures err { OnErr result (self.new ≡ self.old) }
    {
        let Some((place, at)) = self.place_of_letter(item) else {
            return Err(QueueFault::NoLetter);
        };
        self.sequences[place].touch(at, why, now);
        Ok(())
    }

    /// Takes a sequence that has letters, or ends its take.
    pub fn hold(&mut self, sequence: &Name, taken: Option<Taken>)
        requires { IsTrue (is_parked sequence.now self.old.sequences) }
        ensures { self.new ≡ record self.old { sequences = hold sequence.now taken self.old.sequences } }
    {
        let Ok(place) = place_of(&self.sequences, sequence) else {
            unreachable!()
        };
        self.sequences[place].hold(taken);
    }

    /// Takes all letters out.
    pub fn clear(&mut self)
        ensures whole { self.new.whole ≡ self.old.whole }
        ensures sequences { self.new.sequences ≡ [] }
    {
        self.sequences.clear();
        self.prepared.clear();
    }

    /// Sets memory aside, so that these letters take none when they are enqueued in order: then each enqueue gives Ok or its
    /// refusal. The letters of the queue stay as they are, also where memory is wanting.
    pub fn room(&mut self, letters: &[Letter]) -> Result<(), NoMemory>
        ensures whole { self.new.whole ≡ self.old.whole }
        ensures sequences { self.new.sequences ≡ self.old.sequences }
        ensures room { OnOk result (HasRoom self.new.room (sequences_of self.old.whole letters.now)) }
        ensures kept { KeepsRoom self.old.room self.new.room }
    {
        for letter in letters {
            self.expect(letter)?;
        }
        Ok(())
    }

    /// Refuses a letter that is too many, or sets memory aside for it where there is none.
    fn admit(&mut self, letter: &Letter) -> Result<(), QueueFault>
        ensures whole { self.new.whole ≡ self.old.whole }
        ensures sequences { self.new.sequences ≡ self.old.sequences }
        ensures cause { IsRefusal (enqueue_refusal self.old.whole letter.now self.old.sequences) result }
        ensures roomy { 0 < room_of (sequence_of self.old.whole letter.now) self.old.room → result ≡ Err QueueFault.Memory → ⊥ }
        ensures room { OnOk result (0 < room_of (sequence_of self.old.whole letter.now) self.new.room) }
        ensures kept { KeepsRoom self.old.room self.new.room }
    {
        if let Some(fault) = self.refusal(letter) {
            return Err(fault);
        }
        if self.room_for(letter) == 0 {
            self.expect(letter)?;
        }
        Ok(())
    }

    /// Why a letter may not come.
    fn refusal(&self, letter: &Letter) -> Option<QueueFault>
        ensures { result ≡ enqueue_refusal self.now.whole letter.now self.now.sequences }
    {
        match self.sequence(sequence_in(&self.whole, &letter.item.name)) {
            Some(sequence) => {
                if sequence.letters().len() >= MAX_LETTERS {
                    Some(QueueFault::SequenceFull)
                } else {
                    None
                }
            }
            None => {
                if self.sequences.len() >= MAX_SEQUENCES {
                    Some(QueueFault::SequencesFull)
                } else {
                    None
                }
            }
        }
    }

    /// For how many letters of its sequence there is memory.
    fn room_for(&self, letter: &Letter) -> usize
        ensures { result ≡ room_of (sequence_of self.now.whole letter.now) self.now.room }
    {
        let name = sequence_in(&self.whole, &letter.item.name);
        match place_of(&self.sequences, name) {
            Ok(place) => self.sequences[place].room(),
            Err(_) => match place_of(&self.prepared, name) {
                Ok(place) => self.prepared[place].room(),
                Err(_) => 0,
            },
        }
    }

    /// Puts a letter that may come at the end of its sequence, with memory that was set aside.
    fn put(&mut self, letter: Letter)
        requires room { 0 < room_of (sequence_of self.old.whole letter) self.old.room }
        requires fits { enqueue_refusal self.old.whole letter self.old.sequences ≡ None }
        ensures whole { self.new.whole ≡ self.old.whole }
        ensures sequences { self.new.sequences ≡ enqueue self.old.whole letter self.old.sequences }
        ensures room { TakesRoom self.old.room self.new.room (sequence_of self.old.whole letter ∷ []) }
    {
        let name = sequence_in(&self.whole, &letter.item.name);
        match place_of(&self.sequences, name) {
            Ok(place) => self.sequences[place].put(letter),
            Err(place) => {
                let mut sequence = take_prepared(&mut self.prepared, name);
                sequence.put(letter);
                insert_reserved(&mut self.sequences, place, sequence);
            }
        }
    }

    /// Sets memory aside for one letter more.
    fn expect(&mut self, letter: &Letter) -> Result<(), NoMemory>
        ensures whole { self.new.whole ≡ self.old.whole }
        ensures sequences { self.new.sequences ≡ self.old.sequences }
        ensures room { OnOk result (MakesRoom self.old.room self.new.room (sequence_of self.old.whole letter.now)) }
        ensures kept { KeepsRoom self.old.room self.new.room }
    {
        let name = sequence_in(&self.whole, &letter.item.name);
        match place_of(&self.sequences, name) {
            Ok(place) => self.sequences[place].expect(),
            Err(_) => prepare(&mut self.sequences, &mut self.prepared, name),
        }
    }

    /// Where the first letter of the item stands: the place of its sequence, and its place in it.
    fn place_of_letter(&self, item: &ItemName) -> Option<(usize, usize)>
        ensures there { IfSome result (λ p. IsLetterPlace self.now.whole item.now self.now.sequences p.0 p.1) }
        ensures none { IfNone result (letter_of self.now.whole item.now self.now.sequences ≡ None) }
    {
        let name = sequence_in(&self.whole, item);
        let Ok(place) = place_of(&self.sequences, name) else {
            return None;
        };
        match place_among(self.sequences[place].letters(), item) {
            Some(at) => Some((place, at)),
            None => None,
        }
    }

    fn sequence(&self, name: &Name) -> Option<&Sequence>
        ensures { option_map (λ s. s.now.sequence) result ≡ sequence_named name.now self.now.sequences }
    {
        match place_of(&self.sequences, name) {
            Ok(place) => Some(&self.sequences[place]),
            Err(_) => None,
        }
    }
}

/// The name of the item's sequence: that of its aggregate, or of the whole processor.
fn sequence_in<'a>(whole: &'a Option<Name>, item: &'a ItemName) -> &'a Name
    ensures { result.now ≡ sequence_in whole.now item.now.aggregate }
{
    match whole {
        Some(whole) => whole,
        None => &item.aggregate,
    }
}
