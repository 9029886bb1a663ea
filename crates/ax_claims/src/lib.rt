//! Claims: which segments a processor has, how far each is, and who works on it.
#![tactic(auto)]

mod changes;
mod refused;
mod row;
mod rows;

pub use refused::{ClaimFault, Refused};
pub use row::TokenRow;
pub use rows::Rows;
