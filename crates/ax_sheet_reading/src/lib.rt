//! Sheets as they are read: from the text to the members of a sheet.
#![tactic(auto)]

mod command;
mod saga;
mod upcasters;
mod whole;

pub use whole::sheet_in;
