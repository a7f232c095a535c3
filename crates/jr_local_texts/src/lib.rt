//! What extract local and inline local owe the one form of refactorings (`jr_plan: IsFit`): laws.
//! Nothing in it runs.
//!
//! [`extracts_fit`], [`inlines_fit`]: the texts that their spots put and take away are cut into the
//! tokens of what they make, and the new trees are shaped; regions are sound, names of images are
//! identifiers, and each token of a file may stand where it ends. So the changed files read as the
//! new trees (`jr_plan: proofs/Planned: plans_read`).
//!
//! [`extracts_use`], [`inlines_use`]: a plan puts the declaration, or takes it away, by a list's
//! spot, and the expression becomes the name, a read a copy: none of these is rewritten node by node.
//!
//! Definitions: `specs/Fitting`, `Using`.
#![tactic(auto)]

mod laws;

pub use laws::{extracts_fit, extracts_use, inlines_fit, inlines_use};
