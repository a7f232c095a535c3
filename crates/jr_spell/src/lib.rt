//! Spellings: the first one of a kept reference that still means its declaration. It asks rows and
//! a scope, and knows no trees and no refactoring.
//!
//! [`respell`] answers a spelling with its text, [`take_form`] its form alone. `references`: the
//! row of the table of spellings that a reference has, and its operand. `spellings`: a [`Form`] is
//! a small value without names (`OnCastThis` is `((K) this).x`). `respelling`: the table, one
//! constant row a form of reference, and one loop that tries the forms of a row in order.
//! `binding`: a test a spelling, each with one clause, true exactly where the relation holds
//! (`specs/Binds`); over `variables`, `classes` (words of classes, as types and in front of a dot),
//! `members`, `superclasses`, `declaring`, `shown`. It asks `jr_lookup` by number and copies no
//! key. `texts`: the text of each form. `laws`: `spellings_rebind`.
#![tactic(auto)]

mod binding;
mod classes;
mod declaring;
mod laws;
mod members;
mod references;
mod respelling;
mod shown;
mod spellings;
mod superclasses;
mod taking;
mod texts;
mod variables;

pub use laws::spellings_rebind;
pub use references::{Operand, RefForm, Reference};
pub use respelling::respell;
pub use spellings::{Form, Spelling};
pub use taking::take_form;
