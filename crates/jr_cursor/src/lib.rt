//! What the identifier at a byte of a program names: the declaration that it declares or is bound
//! to. It asks for no refactoring.
//!
//! `targets`: [`target`] finds where the identifier begins that holds the byte (`words`), asks each
//! written member of the file: its own name, the names of its parameters and locals (`names`;
//! `searches` is one walk that counts locals), and what binding knows of a reference there
//! (`within`); what is of the prelude is passed over (`preludes`). Marks are spans. `laws`:
//! [`one_is_target`] says that there is one at most.
#![tactic(auto)]

mod laws;
mod names;
mod preludes;
mod searches;
mod targets;
mod within;
mod words;

pub use laws::one_is_target;
pub use targets::target;
