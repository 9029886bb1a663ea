//! The world: one well-formed state with the rows that are folds of its log, and the edits that lead from one to the next.
#![tactic(auto)]

mod desk;
mod edit;
mod holding;
mod marks;
mod named;
mod notice;
mod parts;
mod place;
mod places;
mod start;
mod world;

pub use desk::{Desk, Grip, Held, HeldList, Reservation};
pub use edit::{Edit, Edits, Move};
pub use holding::{held_check, held_fence};
pub use notice::Notice;
pub use world::World;
