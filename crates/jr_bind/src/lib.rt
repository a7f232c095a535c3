//! What the names of a member are bound to, the types of its expressions, and the rules that it
//! breaks (JLS 6, 8, 14, 15). It knows no other member's body.
//!
//! `jr_bind_parts: note_part` walks a part of a program and writes one log. `bounds`: a [`Bound`] is
//! what is known of one member: its references by place (found by halves, without memory), its
//! errors in order, each once, and types by path; places count from the member's first byte.
//! `binding`: [`bind`] binds a written member and counts one step, [`bind_member`] finds it by its
//! key first. `errors`, `references` make these of a log; references that mean one declaration share
//! it (`sharing`). `views`: a [`View`] lends a whole program that has no fault and no error
//! (`specs/Programs: IsProgram`).
#![tactic(auto)]

mod binding;
mod bounds;
mod errors;
mod references;
mod sharing;
mod views;

pub use binding::{bind, bind_member, member_of_key};
pub use bounds::{Bound, Reference};
pub use errors::BindError;
pub use views::View;
