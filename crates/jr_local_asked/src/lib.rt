//! The local that inline local finds: a statement of the file declares it, and the identifier at
//! the step's place declares it or is bound to it.
//!
//! `declarations`: [`declared_local`], where a body of the file declares a local (`specs/Declaring`).
//! `asked`: [`asked_local`], the local at a place (`specs/Asking`).
#![tactic(auto)]

mod asked;
mod declarations;

pub use asked::{AskedLocal, asked_local};
pub use declarations::{DeclaredLocal, declared_local};
