//! What extract local and inline local find in a program, and why each is refused at its place, by
//! what binding knows: no new tree is made.
//!
//! `values`: an expression of a body of which a local can take the value (`specs/SoughtValues`);
//! `selecting`: [`selected_value`], which a span selects in a file (`specs/Chosen`). `extracting`:
//! [`extract_found`], that or the first refusal of extract local (`specs/Extracts`).
#![tactic(auto)]

mod extracting;
mod selecting;
mod values;

pub use extracting::{ExtractFound, extract_found};
pub use selecting::{SelectedValue, selected_value};
pub use values::Value;
