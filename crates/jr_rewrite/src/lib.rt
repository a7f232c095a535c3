//! Trees rewritten at their words, and at spots: the new tree, the changes of the text that make
//! it, and what is lost. It knows neither rows nor spellings: a `Choosing` (`specs/Rewrites`) says
//! for each reference, written type and declared name what may become of it, and `Spots` what
//! becomes of a part of a tree that a refactoring rewrites in its own way.
//!
//! `respellings`: what becomes of a word, its text and what stands in front of it. `puts`: the
//! changes of one word. `changes`: changes as edits. `laws`: the spliced text reads as the new
//! tree (`rewritings_read`) and as no other (`rewritings_are_one`).
//!
//! Definitions: `Rewritten` (what comes of a part: new tree, changes in text order, how many words
//! are respelled, what is lost), `Spots`, `Rewrites` (the recursion over the language, with spots
//! and without), `Along` and `AlongMembers` (old and new trees side by side), `Suitable` and
//! `SuitableSpots` (which choices and spots mean something at their place), `Woven` (what becomes
//! of a text from a place on), `Edited` (changes as entries of edits).
#![tactic(auto)]

mod changes;
mod laws;
mod puts;
mod respellings;

pub use changes::{Change, edits};
pub use laws::{changes_are_parts, rewritings_are_one, rewritings_read};
pub use puts::{put_before, put_behind, put_class, put_super, put_word};
pub use respellings::{Front, Respelling, front_and_word};
