//! How each kept reference of a program is spelled in what becomes of it: the choice for one
//! reference at a time, given by what its name is looked up with. The walk over trees stands above
//! it; it knows none.
//!
//! `mappings`, `numbers`: what becomes of keys and locals. `programs`: the old table, the new one,
//! the keys. `scopes`: what is known at a place in both programs. A call a form of reference looks
//! the old declaration up and answers its choice, or none where the lookup finds no such
//! declaration: `variables`, `fields`, `calls`, `ctors`, `types`, `classes` (in front of a dot),
//! `superclasses`, `declaring` (declared names). `choices`: what comes of a word, with owned texts.
//! `fronts`, `class_words`, `values`: what the words in front of a dot find in the new program,
//! looked up as they are.
//!
//! All forms but classes in front of a dot go one way: `ways` says how a name is looked up and how
//! its image is asked; `taking` looks it up the one way (`looking`), takes the image of what is
//! found (`finding`), and asks for that the other way (`asking`). `choosing` is `jr_spell:
//! take_form` in a scope with no locals but those that can bear on the reference (`nearby`). Nearly
//! all names stay as they are, and these cost no copies: `staying`, `staying_by` look a name up by
//! number in both tables; what they don't cover goes the long way.
#![tactic(auto)]

mod asking;
mod calls;
mod choices;
mod choosing;
mod class_words;
mod classes;
mod ctors;
mod declaring;
mod fields;
mod finding;
mod fronts;
mod looking;
mod mappings;
mod nearby;
mod numbers;
mod programs;
mod scopes;
mod staying;
mod staying_by;
mod superclasses;
mod taking;
mod types;
mod values;
mod variables;
mod ways;

pub use calls::{call, simple_call, static_call, super_call};
pub use choices::{Choice, Chosen, ChosenFront, Lost};
pub use class_words::{first_word, next_word};
pub use classes::{left_class, member_class, qualifier, top_parent};
pub use ctors::{creation, super_ctor};
pub use declaring::{local_choice, member_choice};
pub use fields::{field, static_field, super_field};
pub use fronts::InFront;
pub use mappings::{KeyMapping, class_type_to, type_to, types_to};
pub use numbers::{GoneLocal, LocalMapping, MadeLocal, Renumbering};
pub use programs::{Programs, Tables, tables_of};
pub use scopes::Scopes;
pub use types::{made_type, qualified_type, simple_type};
pub use variables::variable;
