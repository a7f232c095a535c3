//! Tests of command lines, scripts, reports, sessions and runs, over public calls alone. They stand
//! in a crate of their own, so that the crates which they test are proved once.
//!
//! Questions and answers stand in texts, a row a line, which one loop reads (`rows`): what words
//! mean, what scripts are read as, shows, runs and renames (`words`, `scripts`, `shows`,
//! `dependences`, `runs`, `renames`, `renaming`, `kinds`, `locals`, `rules`, `endings`). Beside the rows: files
//! that are fetched and stored, texts of reports and faults, sessions, want of memory (`files`,
//! `reports`, `faults`, `sessions`, `memory`).
#![tactic(auto)]

#[cfg(test)]
mod dependences;
#[cfg(test)]
mod depths;
#[cfg(test)]
mod endings;
#[cfg(test)]
mod faults;
#[cfg(test)]
mod files;
#[cfg(test)]
mod kinds;
#[cfg(test)]
mod locals;
#[cfg(test)]
mod memory;
#[cfg(test)]
mod renames;
#[cfg(test)]
mod renaming;
#[cfg(test)]
mod reports;
#[cfg(test)]
mod rows;
#[cfg(test)]
mod rules;
#[cfg(test)]
mod runs;
#[cfg(test)]
mod scripts;
#[cfg(test)]
mod sessions;
#[cfg(test)]
mod shows;
#[cfg(test)]
mod words;
