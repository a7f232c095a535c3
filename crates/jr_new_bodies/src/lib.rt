//! What becomes of a body: one walk over its expressions and statements that gathers the
//! changes of the text, how many references are respelled, and those that are lost. It binds
//! nothing again, and knows no members.
//!
//! `outputs`: an [`Output`] has the changes in text order, how many references are respelled, which
//! are lost; a call a form of word puts what is chosen for it. A name in front of a dot, or in
//! front of a member class, is put first; `put_end` and `put_member_class` take away what was
//! gathered since `start_of` where it goes.
//!
//! Spots. `spots`: expressions that a refactoring rewrites in its own way, by their bytes, each
//! with the text that comes there; the walk asks for them in front of each expression that has to
//! bind tightly enough (`levels`), and else goes on node by node.
//!
//! Expressions. `here`: a place is `jr_new_words: Scopes` with what binding knows of the member and
//! its first byte; types come from `jr_bind: Bound::ty` by path, the class in front of a dot from
//! `Bound::decl` by place. `meanings`: what stands in front of a dot, and the types of arguments;
//! `new_types`: the types of what stands there now.
//! `chosen`, `called`: what jr_new_words chooses for each form; its none never comes, as nothing in
//! a sound program is unbound. `type_names`: written types. `node_words`: the words of nodes.
//! `walk`: expressions.
//!
//! Statements. `places`: how a place moves (a local comes into scope, its initializer ends, a block
//! ends), each with the place that it leads to (`specs/Moves: Goes`). `locals`: the word, the type
//! and the initializer of a local. `statements`: statements, which answer the number of the next
//! local.
//!
//! What the walk rests on (`specs/Known: ExpReady`, over statements `specs/Ready`) has four parts,
//! each of which the parts of an expression inherit: marks fit, no rule is broken, each reference
//! is found by its place, each type by its path.
#![tactic(auto)]

mod called;
mod chosen;
mod here;
mod levels;
mod locals;
mod meanings;
mod new_types;
mod node_words;
mod outputs;
mod places;
mod spots;
mod statements;
mod type_names;
mod walk;

pub use called::super_ctor_choice;
pub use here::{Here, next};
pub use outputs::{Output, keep_loss, new_output, put_alone};
pub use places::{declare, leave_own};
pub use spots::{PartSpot, Spots};
pub use statements::{maybe, stmt, stmts};
pub use type_names::written_type;
pub use walk::{exprs, piece};
