//! The top call: what a command line asks for is done between a shelf of files and a sink for
//! output. It carries the promise of the program in its contract, and knows no Java.
//!
//! `runs`: [`run`] goes from words to a [`Status`]. `renames` fetches one file, and `answers` makes
//! a session with it, does the one step, and makes the text or the line (`lines`). `scripts` begins
//! a run: script, steps, files, session; `replies` takes the steps; `outputs` builds all output and
//! then writes it. Both commands give `run` one record, `specs/Runs: Comes`: what is written, or
//! why a run ends before. `statuses`, `messages`: the number, and the line for standard error,
//! which takes no memory. `endings`: [`serve`] runs the words between a shelf, a sink and a sink
//! for standard error, and ends; it has `run`'s clauses and those on number and message.
#![tactic(auto)]

mod answers;
mod endings;
mod lines;
mod messages;
mod outputs;
mod renames;
mod replies;
mod runs;
mod scripts;
mod statuses;

pub use endings::{Ending, end, serve, status_of};
pub use messages::Message;
pub use runs::run;
pub use statuses::Status;
