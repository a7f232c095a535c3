//! The outside: where sources are fetched and stored, and where output goes. It knows nothing of
//! Java.
//!
//! A [`Shelf`] holds files by their names, and a [`Sink`] takes bytes. Both count their faults, so
//! that a caller knows a fault that happened in a call of its own; a shelf also counts what it
//! served. Each may tell contracts what it holds or took.
//!
//! `DirShelf` and `OutSink` are the real ones, over files and over standard output or standard
//! error. Contracts don't know what these hold. `MemoryShelf` and `MemorySink` keep all in memory,
//! and their whole behaviour is known; they fail at the calls that they were made with.
//!
//! Modules: `shelves`, `sinks` (the traits), `dir_shelf`, `out_sink`, `memory_shelf`,
//! `memory_sink`, `file_lists`, `store_logs` (their state), `transfers` (the loops over `read` and
//! `write`, one generic body for files and memory; a count rises there and nowhere else),
//! `in_place`, `faults`, `slow_files` (for tests). The tests stay here, since they call private
//! loops.
#![tactic(auto)]

mod dir_shelf;
mod faults;
mod file_lists;
mod in_place;
mod memory_shelf;
mod memory_sink;
mod out_sink;
mod shelves;
mod sinks;
#[cfg(test)]
mod slow_files;
mod store_logs;
#[cfg(test)]
mod tests;
mod transfers;

pub use dir_shelf::DirShelf;
pub use faults::{Failed, FetchFault, Memory};
pub use file_lists::names_differ;
pub use memory_shelf::MemoryShelf;
pub use memory_sink::MemorySink;
pub use out_sink::OutSink;
pub use shelves::{MAX_FILE, Shelf};
pub use sinks::Sink;
pub use store_logs::MAX_STORES;
