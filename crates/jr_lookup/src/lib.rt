//! What a name finds: variables, types, members, methods and constructors (JLS 6, 15.9.3, 15.11,
//! 15.12). It knows no bodies: a place is a [`Scope`].
//!
//! `lookups` has the seven calls by keys, each with one clause, its relation of `jr_table: Lookup`.
//! Below them the same by numbers (`fields`, `type_names`, `calls`), which copy no key; a walk that
//! binds a member uses these. `access`, `choice` (the most specific of several: each is set against
//! the best so far, and the one that is left against all), `shown` (numbers to keys), `scopes`,
//! `scope_local`, `scope_locals`, `locals` (what is in scope).
#![tactic(auto)]

mod access;
mod calls;
mod choice;
mod fields;
mod locals;
mod lookups;
mod scope_local;
mod scope_locals;
mod scopes;
mod shown;
mod type_names;

pub use calls::{call_at, ctor_at, method_at};
pub use fields::{field_at, field_in_at, member_type_at};
pub use locals::last_local;
pub use lookups::{ctor_of, field_of, member_type, method_named, method_of, type_named, variable};
pub use scope_local::ScopeLocal;
pub use scope_locals::ScopeLocals;
pub use scopes::Scope;
pub use type_names::type_at;
