//! The bodies of methods and constructors, in which the steps on code look for what they ask: a
//! body's statements, what is known where they begin, and what binding knows of its member.
//!
//! `codes`: [`code_of`] a part of a program (`specs/MemberCode`, `Bodies`). `laws` (`specs/BodyLaws`): a body of
//! a program has nested spans, and the type of an expression to which a way leads is what binding
//! knows by the way's path.
#![tactic(auto)]

mod codes;
mod laws;

pub use codes::{Code, code_of};
pub use laws::{bodies_are_nested, bodies_have_types};
