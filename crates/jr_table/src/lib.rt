//! The declarations of a program: keys, types, rows, the table; and what lookup, binding and the
//! rules mean, as definitions that every crate can cite. It knows no bodies as code, only their
//! pure trees.
//!
//! A declaration is known outside by its key, inside by the number of its row: `entries_of` makes
//! of the rows a list in which each class that a row names is the number of that class's row. All
//! relations on superclasses and members are over entries and numbers; `specs/Keyed` says them of
//! keys. Crates above work on numbers and hand out keys at their border.
//!
//! A table keeps its rows, their entries, and indexes made once in `of_rows`: `class_index`,
//! `member_index` (rows by the class that they are found in and their name), `spans` (when a class
//! is entered and left on a walk of the tree of classes; the walk of `numbered` promises nothing,
//! its numbers are tested, and where they fail the call climbs). `wanted` is what is looked for
//! among members, `climbing` the one loop that finds it; `gathering`, `overloads`, `signatures`:
//! methods of a name. `kinds`, `rules`: faults and rules by name. `facts`: what binding knows.
//!
//! `lookup_laws`, `binding_laws`, `noting_laws`: laws on public functions with empty bodies. Pure
//! keys stand in specs that name no Rust type, views in `TypeView`, `KeyView`, `RowView`,
//! `FoundView`. Behind `-- exact` in a file of specs stands the function that a body computes.
#![tactic(auto)]

mod answers;
mod binding_laws;
mod class_index;
mod classes;
mod climbing;
mod copies;
mod decls;
mod entries;
mod facts;
mod first_wanted;
mod found;
mod gathering;
mod keys;
mod kinds;
mod lookup_laws;
mod member_index;
mod members;
mod method_lists;
mod method_number;
mod noting_laws;
mod numbered;
mod numbering;
mod overloads;
mod prelude_rows;
mod rows;
mod rules;
mod signatures;
mod spans;
mod table_kinds;
mod tables;
mod type_lists;
mod types;
mod wanted;
mod widening;

pub use answers::Answer;
pub use binding_laws::{notes_are_exact, references_are_exact, types_are_exact, walks_are_exact};
pub use classes::ClassKey;
pub use decls::{Decl, LocalKey, MemberKey};
pub use entries::{Entry, Kind, Kinds, Sort};
pub use facts::Facts;
pub use found::Found;
pub use keys::{CtorKey, FieldKey, MethodKey};
pub use kinds::DeclKind;
pub use lookup_laws::lookups_are_exact;
pub use noting_laws::{
    declarations_are_noted, errors_are_told, heads_are_noted, lists_are_noted, parts_are_noted,
    parts_have_errors, statements_are_noted,
};
pub use prelude_rows::prelude;
pub use rows::{Mods, Row};
pub use rules::Rule;
pub use tables::Table;
pub use type_lists::Tys;
pub use types::Ty;
pub use wanted::Wanted;
