ghost use Rattle.std.specs.Prelude.{◌≡◌, ◌↔◌, ◌≤◌, ℕ, not, ◌||◌, filter, nat_lt, length, IsTrue, IfOk};
ghost use Rattle.std.specs.List.{list_all};
ghost use Rattle.ax_log.specs.Log.{is_settled};
ghost use Rattle.ax_values.specs.Words.{rises};
ghost use Rattle.ax_tokens.specs.Outside.{from, begins_with};
ghost use Rattle.ax_tokens.specs.Plain.{contains, has, is_canonical_plain, nothing, union, settles, advanced_plain, includes, same_plain};

use ax_values::{Cell, Duplicate, ListOf, NoMemory, Same};
use std::alloc::Global;
use std::marker::Model;

/// Indexes below a bound, rising without repeats.
pub type Gaps = ListOf<u32>;

/// A set of indexes of the log: those below `next` that are no gaps. Gaps rise without repeats and lie below `next`, and
/// `next - 1` is no gap, so that each set is written in one way alone. It is a gap-aware token of Axon Framework, whose
/// index is `next - 1`.
#[derive(Drop)]
pub struct Plain {
    next: u32,
    gaps: Gaps,
}

impl Model for Plain {
    ghost use Rattle.std.specs.Prelude.{IsTrue};
    ghost use Rattle.ax_tokens.specs.Plain.{Plain as Part, is_canonical_plain};

    ghost Value = { Part };

    ghost view = { λ p. record { next = p.next; gaps = p.gaps } };

    ghost invariant = { λ p. IsTrue (is_canonical_plain (record { next = p.next; gaps = p.gaps })) };
}

impl Plain {
    /// The set of the indexes below `next` that are no gaps.
    pub fn of(next: u32, gaps: Gaps) -> Plain
        requires { IsTrue (is_canonical_plain (record { next = next; gaps = gaps })) }
        ensures value { result ≡ record { next = next; gaps = gaps } }
    {
        Plain { next, gaps }
    }

    /// The empty set.
    pub fn nothing(alloc: Global) -> Plain
        ensures value { result ≡ nothing }
    {
        Plain {
            next: 0,
            gaps: ListOf::new(alloc),
        }
    }

    /// One more than the last index in the set, or 0.
    pub fn next(&self) -> u32
        ensures value { result ≡ self.now.next }
        ensures canonical { IsTrue (is_canonical_plain self.now) }
    {
        self.next
    }

    /// The indexes below `next` that are not in the set, rising.
    pub fn gaps(&self) -> &[u32]
        ensures value { result.now ≡ self.now.gaps }
        ensures canonical { IsTrue (is_canonical_plain self.now) }
    {
        self.gaps.parts()
    }

    /// Whether the index is in the set, by a binary search.
    pub fn has(&self, index: u32) -> bool
        ensures value { result ≡ has self.now index }
    {
        index < self.next() && is_absent(self.gaps(), index)
    }

    /// The indexes that either set has.
    pub fn union(&self, alloc: Global, other: &Plain) -> Result<Plain, NoMemory>
        ensures value { IfOk result (λ both. both ≡ union self.now other.now) }
        ensures sets { IfOk result (λ both. (index : ℕ) → has both index ≡ (has self.now index || has other.now index)) }
        ensures canonical { IfOk result (λ both. IsTrue (is_canonical_plain both)) }
    {
        if self.next() < other.next() {
            other.with_shorter(alloc, self)
        } else {
            self.with_shorter(alloc, other)
        }
    }

    /// The indexes of the set, and those below `to` whose cells are not reserved.
    pub fn advance(&self, alloc: Global, cells: &[Cell], to: u32) -> Result<Plain, NoMemory>
        requires { to ≤ length cells.now }
        ensures value { IfOk result (λ later. later ≡ advanced_plain cells.now to self.now) }
        ensures sets { IfOk result (λ later. (index : ℕ) → has later index ≡ (has self.now index || settles cells.now to index)) }
        ensures canonical { IfOk result (λ later. IsTrue (is_canonical_plain later)) }
    {
        let gaps = still_reserved(alloc, self.gaps(), cells, to)?;
        self.covered_to(gaps, cells, to)
    }

    /// Whether the set has all that the other has.
    pub fn includes(&self, other: &Plain) -> bool
        ensures value { result ≡ includes self.now other.now }
        ensures sets { IsTrue result ↔ ((index : ℕ) → IsTrue (has other.now index) → IsTrue (has self.now index)) }
    {
        other.next() <= self.next() && lack_all(self.gaps(), other)
    }

    /// The set with the cells from its `next` on to `to`, where the gaps below that `next` are known.
    fn covered_to(&self, mut gaps: Vec<u32>, cells: &[Cell], to: u32) -> Result<Plain, NoMemory>
        requires cells { to ≤ length cells.now }
        requires gaps { gaps.items ≡ filter (λ gap. not (settles cells.now to gap)) self.now.gaps }
        ensures value { IfOk result (λ later. later ≡ advanced_plain cells.now to self.now) }
    {
        let mut next = self.next();
        let mut kept = gaps.len();
        for index in self.next()..to {
            if is_settled(cells, index) {
                next = index + 1;
                kept = gaps.len();
            } else {
                gaps.push(index)?;
            }
        }
        gaps.truncate(kept);
        Ok(Plain {
            next,
            gaps: ListOf::of(gaps),
        })
    }

    /// The union with a set that ends no later.
    fn with_shorter(&self, alloc: Global, shorter: &Plain) -> Result<Plain, NoMemory>
        requires { shorter.now.next ≤ self.now.next }
        ensures value { IfOk result (λ both. both ≡ union self.now shorter.now) }
    {
        let gaps = gaps_of_both(alloc, self.gaps(), shorter)?;
        Ok(Plain {
            next: self.next(),
            gaps: ListOf::of(gaps),
        })
    }
}

impl Duplicate for Plain {
    fn copy(&self, alloc: Global) -> Result<Plain, NoMemory> {
        Ok(Plain {
            next: self.next,
            gaps: self.gaps.copy(alloc)?,
        })
    }
}

impl Same for Plain {
    fn same(&self, other: &Plain) -> bool
        ensures value { result ≡ same_plain self.now other.now }
        ensures equal { IsTrue result ↔ (self.now ≡ other.now) }
    {
        self.next() == other.next() && self.gaps() == other.gaps()
    }
}

/// Whether none of the indexes is in the set.
fn lack_all(gaps: &[u32], other: &Plain) -> bool
    ensures { result ≡ list_all (λ gap. not (has other.now gap)) gaps.now }
{
    gaps.iter().all(|&gap| !other.has(gap))
}

/// Whether a list that rises lacks an index.
fn is_absent(gaps: &[u32], index: u32) -> bool
    requires { IsTrue (rises nat_lt gaps.now) }
    ensures { result ≡ not (contains gaps.now index) }
{
    gaps.binary_search(&index).is_err()
}

/// Of the gaps of one set, those that are not in the other either.
fn gaps_of_both(alloc: Global, gaps: &[u32], other: &Plain) -> Result<Vec<u32>, NoMemory>
    requires { IsTrue (rises nat_lt gaps.now) }
    ensures { IfOk result (λ both. both.items ≡ filter (λ gap. not (has other.now gap)) gaps.now) }
{
    let mut both = Vec::new(alloc);
    let mut rest = other.gaps();
    for &gap in gaps {
        rest = from(rest, gap);
        if gap >= other.next() || begins_with(rest, gap) {
            both.push(gap)?;
        }
    }
    Ok(both)
}

/// What is left of a rising list after all that is below an index.
fn from(gaps: &[u32], index: u32) -> &[u32]
    ensures { result.now ≡ from index gaps.now }
{
    let mut rest = gaps;
    while let [first, behind @ ..] = rest
        && *first < index
    {
        rest = behind;
    }
    rest
}

fn begins_with(gaps: &[u32], index: u32) -> bool
    ensures { result ≡ begins_with index gaps.now }
{
    match gaps {
        [] => false,
        [first, ..] => *first == index,
    }
}

/// Whether the index has a cell that is not reserved.
fn is_settled(cells: &[Cell], index: u32) -> bool
    ensures { result ≡ is_settled cells.now index }
{
    match cells.get(index as usize) {
        Some(Cell::Reserved { .. }) => false,
        Some(Cell::Void) | Some(Cell::Event(_)) => true,
        None => false,
    }
}

/// The gaps that stay gaps where the cells below `to` are covered.
fn still_reserved(
    alloc: Global,
    gaps: &[u32],
    cells: &[Cell],
    to: u32,
) -> Result<Vec<u32>, NoMemory>
    ensures { IfOk result (λ kept. kept.items ≡ filter (λ gap. not (settles cells.now to gap)) gaps.now) }
{
    let mut kept = Vec::new(alloc);
    for &gap in gaps {
        if gap >= to || !is_settled(cells, gap) {
            kept.push(gap)?;
        }
    }
    Ok(kept)
}
