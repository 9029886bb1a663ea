use ax_rules::{Row, Why};
use ax_values::ListOf;

/// What becomes of an item.
#[derive(Drop)]
pub enum Outcome {
    /// It has changed its aggregate's row as the rules say.
    Applied,
    /// It becomes a letter.
    Parked(Why),
    /// It is recorded as dropped, and its aggregate's row stays.
    Dropped(Why),
}

pub type Outcomes = ListOf<Outcome>;

pub type RowList = ListOf<Row>;

/// What is made of a share: the outcomes of its items, and a row for each of its members.
#[derive(Drop)]
pub struct ShareResult {
    pub outcomes: Outcomes,
    pub rows: RowList,
}

pub type Results = ListOf<ShareResult>;
