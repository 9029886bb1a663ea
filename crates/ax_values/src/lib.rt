//! The words of the texts: names, texts, numbers, payloads, items and records, with readers of exactly their grammar.
#![tactic(auto)]

mod cell;
mod cut;
mod given;
mod identifier;
mod item;
mod list;
mod memory;
mod name;
mod number;
mod payload;
mod record;
mod same;
mod seen;
mod text;
mod undo;
mod value;

pub use cell::Cell;
pub use cut::{between, cut_at, line_words};
pub use given::Given;
pub use identifier::event_id;
pub use item::{Item, ItemName, ItemNames, Items};
pub use list::{Duplicate, Line, ListOf, copy_all};
pub use memory::NoMemory;
pub use name::{Name, Names};
pub use number::{
    read_int, read_number, read_number_to, read_u32, write_int, write_number, write_u32,
};
pub use payload::Payload;
pub use record::{Record, Records};
pub use same::{Same, all_same};
pub use seen::{Mark, Marks, Seen};
pub use text::Text;
pub use undo::undo_on_error;
pub use value::{Field, Value};
