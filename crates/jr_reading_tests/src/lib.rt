//! Tests of what cuts texts into tokens, reads trees of them, holds trees and prints them; of a
//! program's table, of what looks names up in it, and of what stands on them. Public calls alone.
//!
//! What is expected is what the Java Language Specification and `javac` say of a text, or the
//! specification of a format. Questions and answers stand in texts, a row a line, which one loop
//! reads (`rows`). Programs are texts: `building` reads them and builds their tables, `keys` and
//! `scopes` make keys and places of texts. All of it is one crate: a crate with a test is proved a
//! second time, and each crate of tests proves anew how the trees that it holds are dropped.
//!
//! `edits`, `layouts`, `grid`, `numbers`: what edits make of a text, where bytes go, the reordering
//! grid, numbers by name. `flow`, `depending`: paths of graphs, what of sites may change places and
//! what depends on what.
//! `lexing`, `limits`, `faults`: items and texts of each size up to the limits. `samples`, `trees`,
//! `paths`, `deepest`, `drops`: trees made by hand, paths and copies, the stack that the deepest
//! trees take, what a drop frees. `reading`, `expressions` with `shown`, `units`, `printing`: texts
//! read and trees printed. `tables`, `builds`, `programs`, `lookups`, `spellings`, `locals`,
//! `types`, `names`, `rewriting`: declarations and what stands on them. `members`, `graphs` with
//! `methods` and `parts`: one member bound, its sites and edges, and those of its parts.
#![tactic(auto)]

#[cfg(test)]
mod building;
#[cfg(test)]
mod builds;
#[cfg(test)]
mod deepest;
#[cfg(test)]
mod depending;
#[cfg(test)]
mod drops;
#[cfg(test)]
mod edits;
#[cfg(test)]
mod expressions;
#[cfg(test)]
mod faults;
#[cfg(test)]
mod flow;
#[cfg(test)]
mod graphs;
#[cfg(test)]
mod grid;
#[cfg(test)]
mod keys;
#[cfg(test)]
mod layouts;
#[cfg(test)]
mod lexing;
#[cfg(test)]
mod limits;
#[cfg(test)]
mod locals;
#[cfg(test)]
mod lookups;
#[cfg(test)]
mod members;
#[cfg(test)]
mod methods;
#[cfg(test)]
mod names;
#[cfg(test)]
mod numbers;
#[cfg(test)]
mod parts;
#[cfg(test)]
mod paths;
#[cfg(test)]
mod printing;
#[cfg(test)]
mod programs;
#[cfg(test)]
mod reading;
#[cfg(test)]
mod rewriting;
#[cfg(test)]
mod rows;
#[cfg(test)]
mod samples;
#[cfg(test)]
mod scopes;
#[cfg(test)]
mod shown;
#[cfg(test)]
mod spellings;
#[cfg(test)]
mod tables;
#[cfg(test)]
mod trees;
#[cfg(test)]
mod types;
#[cfg(test)]
mod units;
