//! What programs of cases share: each line of the input is a case, and the same line of the output is its answer.
//!
//! A line is a word and, after a space, what the word is about, in which `^` and two digits stand for a byte. Empty lines, lines
//! that begin with `#`, and lines that begin with `==`, the names of groups of cases, are printed as they stand.
#![tactic(auto)]

mod fault;
mod lines;
mod parts;
#[cfg(test)]
mod tests;
mod words;

pub use fault::CaseFault;
pub use lines::{CaseLine, Cases, perform_all};
pub use parts::{
    int_of, item_of, name_of, payload_of, u32_of, u64_of, whole_item_of, write_either, write_ints,
};
pub use words::{first_word, four_words, three_words, two_words};

/// Some of the case whose text the word is; None comes exactly where there is no such text. It stands last in a function.
#[macro_export]
macro_rules! case_named {
    ($word:expr; $($text:literal => $case:expr),+) => {{
        $(
            if $word == $text.as_slice() {
                return Some($case);
            }
        )+
        None
    }};
}
