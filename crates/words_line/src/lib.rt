//! The words of the program's line, and the plan that they make.
//!
//! The first word names a command. Each command has one row in a table: what `clap` reads of its line, whether arguments
//! may stand behind a `--`, and the plan. `read_words` reads the words by it. Its contract cites `plan_of`, the plan of
//! the words or what is wrong with them, over all lists of words, by clap's own function of a line.
//!
//! What a line means can be read without clap: `reads` says which parameter of the command each word or pair of words
//! names, and with which value, and `plan_read` is the plan of what is read so. The laws say that the two plans are one,
//! for all words, and that the order of a line's uses doesn't matter.
//!
//! The program's top calls will stand on this crate: they carry the plan out, or answer with what is wrong with the words.
//!
//! As clap takes words: `-` and the empty word are names; `+5` and `05` are numbers; options and flags stand anywhere,
//! each at most once, as `--x v` or `--x=v`; a word for help or for a version is refused like an unknown one.
#![tactic(auto)]

mod laws;
mod plan;
mod table;
mod words;

pub use laws::{uses_in_any_order, words_are_read};
pub use plan::{Plan, Text, Texts, WordsError, WordsFault};
pub use words::read_words;

#[cfg(test)]
mod tests;
