//! What extract local and inline local ask of a list of statements about its locals: which are
//! declared in it, which are in scope at an element, and where one is named. It knows a tree alone,
//! and takes no stack for `if` and `while` that nest without braces.
//!
//! `declarations`: one walk finds the first local that has a name, the local of a number with the
//! list from its declaration on, or how many there are (`specs/Declarations`); `laws`: the names
//! that these take, and the ways to them (`specs/DeclarationLaws`). `scopes`: [`at_element`], what
//! is known at the element of a list to which a path leads (`specs/Scopes`); `taken`: the first
//! local whose name is taken there. `names`: where a local is named in the list behind its
//! declaration, how it is used there and what bars the place; the one read; the first target
//! (`specs/Namings`). `places`: what stands against each of the two steps at a place, in the order
//! of refusals (`specs/Places`).
#![tactic(auto)]

mod declarations;
mod laws;
mod names;
mod places;
mod scopes;
mod taken;

pub use declarations::{Declaration, behind_stmt, count_locals, declaration_of, first_declared};
pub use laws::{declarations_have_ways, declared_names, ways_are_declared};
pub use names::{Naming, first_target, namings, only_read};
pub use places::{ExtractPlace, InlinePlace, extract_place, inline_place};
pub use scopes::{AtElement, at_element};
pub use taken::{at_body, first_taken};
