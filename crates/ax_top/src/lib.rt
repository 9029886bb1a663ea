//! The program as one call: words, a script from a source, and the text of its run, or of its rows made again from the log,
//! into a sink.
#![tactic(auto)]

mod answer;
mod status;
mod task;
#[cfg(test)]
mod tests;
mod text;
mod top;

pub use ax_script::ScriptKind;
pub use status::Status;
pub use top::run_script;
