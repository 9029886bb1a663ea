//! Sagas: what one item does to one saga, after the sagas of Axon Framework.
#![tactic(auto)]

mod args;
mod dispatching;
mod handling;
mod link;
mod links;
mod saga;
mod sent;
mod source;

pub use handling::{begin, receive};
pub use link::Link;
pub use links::Links;
pub use saga::{Received, Saga, place_among};
pub use sent::{Delivery, Sending, Sends, Sent};
