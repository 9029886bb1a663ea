//! The JSON values of which the text of a sheet is made.
#![tactic(auto)]

mod commands;
mod parts;
mod rules;
mod sagas;
mod upcasters;
mod values;
mod whole;

pub use whole::sheet_data;
