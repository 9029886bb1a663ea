//! The state of the machine: its definitions, and what holds of each part of it.
#![tactic(auto)]
