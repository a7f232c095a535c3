//! Which locals of a member are never null, and which expressions: flags that are made one by one,
//! and the law that they tell exactly what the rules say. Nothing in it is executed.
//!
//! `specs/Flags`: one flag a local, in the order of their numbers. A local is never null where it
//! isn't assigned and its initializer is never null by the flags of the locals before it.
#![tactic(auto)]

mod laws;

pub use laws::flags_tell_never_null;
