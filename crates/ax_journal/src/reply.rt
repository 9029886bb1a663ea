ghost use Rattle.std.specs.Prelude.{◌≡◌};
ghost use Rattle.ax_journal.specs.Replies.{reply_number};

use ax_segments::Segment;
use ax_values::{ItemName, Line, Name, Seen};

/// The answer to an order.
#[derive(Drop)]
pub enum Reply {
    Done,
    /// The clock, or the time of a claim that was extended, in milliseconds.
    Now {
        moment: u64,
    },
    Reserved {
        cell: u32,
        count: u32,
        first: u32,
    },
    Appended {
        seq: u32,
        count: u32,
    },
    Voided {
        cell: u32,
    },
    Snapshot {
        events: u32,
    },
    Delivered {
        sent: u64,
        cell: u32,
        count: u32,
    },
    Rejected {
        sent: u64,
        guard: u32,
    },
    Fenced {
        fence: u64,
    },
    Halves {
        lower: Segment,
        upper: Segment,
    },
    Merged {
        segment: Segment,
    },
    Segments {
        count: u32,
    },
    Fetched {
        records: u32,
    },
    Committed {
        applied: u32,
        parked: u32,
        dropped: u32,
    },
    Letters {
        count: u32,
        aggregate: Name,
    },
    NoLetters,
    Settled {
        settled: u32,
        left: u32,
    },
    Dropped {
        item: ItemName,
    },
    Advanced {
        records: u32,
        started: u32,
        ended: u32,
        sent: u64,
    },
    /// A report of so many lines follows.
    Lines {
        count: u64,
    },
    /// 20: the first guard that is false, or has no value, for the aggregate's state.
    GuardFails {
        guard: u32,
    },
    /// 21: the stream's length is not the reservation's.
    Conflict {
        expected: u32,
        found: u32,
    },
    /// 22: the first cell of the reservation that is void.
    VoidedCell {
        cell: u32,
    },
    /// 23
    NoReservation,
    /// 24: the cell's reservation is not yet 60,000 milliseconds old.
    Young {
        since: u64,
    },
    /// 25: there is no such cell, or it is not reserved.
    NotReserved,
    /// 26: there is no row of this segment.
    NoSegment,
    /// 27: the row has another owner, and its claim is not expired.
    Claimed {
        owner: Name,
        since: u64,
    },
    /// 28: the row has another fence than the one that is held, or is gone.
    Stale {
        held: u64,
        found: Option<u64>,
    },
    /// 29
    NotHeld,
    /// 30: the segment cannot be split.
    MaskFull,
    /// 31: the segment has no partner among the rows.
    Alone,
    /// 32
    NoBatch,
    /// 33: what the batch saw of an aggregate has changed.
    Changed {
        aggregate: Name,
        read: Seen,
        found: Seen,
    },
    /// 34: there would be too many sequences of letters.
    SequencesFull,
    /// 35: there would be too many letters of this aggregate.
    SequenceFull {
        aggregate: Name,
    },
    /// 36
    NoLetter,
    /// 37: all sequences are taken; by whom, and since when, the first of them is.
    LettersTaken {
        by: Name,
        since: u64,
    },
    /// 38
    NoTake,
    /// 39: there would be too many cells.
    LogFull,
    /// 40: no command waits.
    NothingWaits,
    /// 50: the keeper failed in this step.
    KeeperFailed,
    /// 60: the first item of the batch that does not apply, and why, in the words that are printed.
    NotApplied {
        item: ItemName,
        why: Line,
    },
}

impl Reply {
    /// The number that the reply begins with: 0 where the order was not refused.
    pub fn number(&self) -> u32
        ensures { result ≡ reply_number self.now }
    {
        match self {
            Reply::GuardFails { .. } => 20,
            Reply::Conflict { .. } => 21,
            Reply::VoidedCell { .. } => 22,
            Reply::NoReservation => 23,
            Reply::Young { .. } => 24,
            Reply::NotReserved => 25,
            Reply::NoSegment => 26,
            Reply::Claimed { .. } => 27,
            Reply::Stale { .. } => 28,
            Reply::NotHeld => 29,
            Reply::MaskFull => 30,
            Reply::Alone => 31,
            Reply::NoBatch => 32,
            Reply::Changed { .. } => 33,
            Reply::SequencesFull => 34,
            Reply::SequenceFull { .. } => 35,
            Reply::NoLetter => 36,
            Reply::LettersTaken { .. } => 37,
            Reply::NoTake => 38,
            Reply::LogFull => 39,
            Reply::NothingWaits => 40,
            Reply::KeeperFailed => 50,
            Reply::NotApplied { .. } => 60,
            _ => 0,
        }
    }
}
