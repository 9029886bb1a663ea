//! Rules of a sheet as they are read, and what the other parts are read by: values, lists and objects, expressions, guards
//! and given values.
#![tactic(auto)]

mod each;
mod expr;
mod given;
mod names;
mod readers;
mod rules;

pub use each::{ReadsItem, ReadsMember, list_of, named_of, optional_list, wanted_object};
pub use expr::copied;
pub use given::{given_of, templates_of};
pub use names::Names;
pub use readers::{
    flag_of, name_of, object_of, only_item, pair_of, small_of, three_items, triple_of, two_items,
};
pub use rules::{
    fields_and_rules, guards_of, optional_guards, optional_sets, rules_of, wanted_fields,
};
