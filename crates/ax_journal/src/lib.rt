//! The orders and replies of the machine, with their printed texts.
#![tactic(auto)]

mod arguments;
mod entry;
mod fields;
mod form;
mod order;
mod part;
mod reply;
mod reply_text;
mod segment;
mod steps;

pub use arguments::Arguments;
pub use entry::{Entry, Lines, write_entry, write_lines};
pub use form::{BUILT, Form, Shape, read_form};
pub use order::{Order, Orders, write_order};
pub use reply::Reply;
pub use reply_text::write_reply;
pub use segment::{read_segment, write_segment};
pub use steps::{read_step, read_steps};
