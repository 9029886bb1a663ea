use ax_rules::Why;
use ax_values::{Item, ListOf, Name};

/// A parked item, as the dead letter of Axon's reference guide.
#[derive(Drop)]
pub struct Letter {
    pub item: Item,
    /// The index of its record in the log.
    pub index: u32,
    /// When it was parked or failed last, in milliseconds.
    pub touched: u64,
    /// Whether it was handled before a reset of its processor.
    pub replayed: bool,
    /// Why it is parked.
    pub why: Why,
}

pub type Letters = ListOf<Letter>;

/// Who took a sequence to handle its letters again.
#[derive(Drop)]
pub struct Taken {
    /// The actor.
    pub by: Name,
    /// When, in milliseconds.
    pub since: u64,
    /// The number of the take, by which its actor knows it.
    pub number: u64,
}
