//! Command lines: which command the words mean, and its parts. It knows no files.
//!
//! `specs/Words` says which words mean which command. `words`: what takes no memory is looked at
//! first (how many words, what each looks like), and `rename` is read; `arguments`: the words of a
//! run are read by `clap` as one simple command; `operands`: operands get the numbers of their
//! words, which `clap` doesn't tell, and two of one text are looked for. `laws`: words mean one
//! command at most.
#![tactic(auto)]

mod arguments;
mod laws;
mod operands;
mod words;

pub use laws::words_mean_one_command;
pub use words::{Command, MAX_WORDS, Operand, WordsFault, read_words};
