ghost use Rattle.std.specs.Prelude.{◌≡◌, ◌+◌, ◌<◌, ◌≤◌, ◌∷◌, [], length, find, insert, slice_get, vec_capacity, IsTrue, IsOk, Some, None, OnOk, OnErr, IfOk, IfSome, IfNone};
ghost use Rattle.ax_values.specs.Words.{place_where, rises};
ghost use Rattle.ax_letters.specs.Letters.{is_letter_of};
ghost use Rattle.ax_letters.specs.Room.{Kept, AreBlank, IsPlaceOf, IsTakenOut, blank, kept_below, room_under, taken_from, count_of};

use crate::Letter;
use crate::sequence::Sequence;
use ax_values::{Duplicate, ItemName, Name, NoMemory, Same};

/// Where a sequence stands among those that rise by name, or else where it would stand.
pub(crate) fn place_of(sequences: &[Sequence], name: &Name) -> Result<usize, usize>
    requires { IsTrue (rises kept_below sequences.now) }
    ensures { IsPlaceOf name.now sequences.now result }
{
    sequences.binary_search_by(|sequence| sequence.name().cmp(name))
}

/// The place of the first letter of the item.
pub(crate) fn place_among(letters: &[Letter], item: &ItemName) -> Option<usize>
    ensures there { IfSome result (λ at. (at < length letters.now) × (place_where (is_letter_of item.now) letters.now ≡ at)) }
    ensures none { IfNone result (find (is_letter_of item.now) letters.now ≡ None) }
{
    for (place, letter) in letters.iter().enumerate() {
        if letter.item.name.same(item) {
            return Some(place);
        }
    }
    None
}

/// Takes a sequence that may come out of those that are prepared.
pub(crate) fn take_prepared(prepared: &mut Vec<Sequence>, name: &Name) -> Sequence
    requires rising { IsTrue (rises kept_below prepared.old.items) }
    requires blanks { AreBlank prepared.old.items }
    requires room { 0 < room_under name.now prepared.old.items }
    ensures sequence { result.sequence ≡ blank name.now }
    ensures rest { IsTakenOut name.now prepared.old.items prepared.new.items result.room }
    ensures room { 0 < result.room }
    ensures len { length prepared.new.items + 1 ≡ length prepared.old.items }
{
    let Ok(place) = place_of(prepared, name) else {
        unreachable!()
    };
    prepared.remove(place)
}

/// Sets memory aside for one letter more of a sequence that may come.
pub(crate) fn prepare(
    sequences: &mut Vec<Sequence>,
    prepared: &mut Vec<Sequence>,
    name: &Name,
) -> Result<(), NoMemory>
    requires rising { IsTrue (rises kept_below prepared.old.items) }
    requires blanks { AreBlank prepared.old.items }
    requires placed { length sequences.old.items + length prepared.old.items ≤ vec_capacity sequences.old }
    ensures sequences { sequences.new.items ≡ sequences.old.items }
    ensures rising { IsTrue (rises kept_below prepared.new.items) }
    ensures blanks { AreBlank prepared.new.items }
    ensures placed { length sequences.new.items + length prepared.new.items ≤ vec_capacity sequences.new }
    ensures room { OnOk result ((a : Name) → room_under a prepared.old.items + count_of a (name.now ∷ []) ≤ room_under a prepared.new.items) }
    ensures kept { (a : Name) → room_under a prepared.old.items ≤ room_under a prepared.new.items }
{
    match place_of(prepared, name) {
        Ok(place) => prepared[place].expect(),
        Err(place) => {
            sequences.reserve(prepared.len() + 1)?;
            let alloc = *sequences.allocator();
            let mut sequence = Sequence::new(alloc, name.copy(alloc)?);
            sequence.expect()?;
            prepared.insert(place, sequence)?;
            Ok(())
        }
    }
}

/// Puts a sequence at a place, where there is memory for it.
pub(crate) fn insert_reserved(sequences: &mut Vec<Sequence>, place: usize, sequence: Sequence)
    requires within { place ≤ length sequences.old.items }
    requires room { length sequences.old.items < vec_capacity sequences.old }
    ensures items { sequences.new.items ≡ insert sequences.old.items place sequence }
    ensures capacity { vec_capacity sequences.new ≡ vec_capacity sequences.old }
{
    if sequences.insert(place, sequence).is_err() {
        unreachable!()
    }
}

/// Takes a letter out of the sequence at a place, and with the last one the sequence.
pub(crate) fn take_letter(sequences: &mut Vec<Sequence>, place: usize, at: usize) -> Letter
    requires within { place < length sequences.old.items }
    requires letter { (k : Kept) → slice_get sequences.old.items place ≡ Some k → at < length k.sequence.letters }
    ensures letter { (k : Kept) → slice_get sequences.old.items place ≡ Some k → slice_get k.sequence.letters at ≡ Some result }
    ensures rest { (k : Kept) → slice_get sequences.old.items place ≡ Some k → sequences.new.items ≡ taken_from sequences.old.items place at k }
    ensures capacity { vec_capacity sequences.new ≡ vec_capacity sequences.old }
{
    let letter = sequences[place].remove(at);
    if sequences[place].letters().is_empty() {
        drop(sequences.remove(place));
    }
    letter
}
