//! Where in a member's body an expression stands that has a given span, and what is told of that
//! place: by one search inward, each time into the first part that doesn't end in front of the
//! span's end; and the first `return` of a list. It knows neither names nor sites, and takes no
//! stack for `if` and `while` that nest without braces.
//!
//! `search`: [`find`], the search in a list of statements, with the expression's path, how it is
//! used, what bars it, and the nearest element of a list (`specs/SoughtStatements`);
//! `statement_steps`: where it goes from a statement. `exprs`: the search within an expression;
//! `steps`: where it goes from one. `returns`: [`first_return`]. `laws`: what isn't found isn't
//! there.
#![tactic(auto)]

mod exprs;
mod laws;
mod returns;
mod search;
mod statement_steps;
mod steps;

pub use exprs::{InExpr, in_expr};
pub use laws::none_has_the_span;
pub use returns::first_return;
pub use search::{Found, find};
pub use steps::{Bars, Usage};
