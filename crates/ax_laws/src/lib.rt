//! Lemmas that more than one crate needs: on tests, options and lists. There is no code.
#![tactic(auto)]
