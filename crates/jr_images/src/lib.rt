//! What declarations, rows and scopes become under a rename, and what a rename means, as
//! definitions that the crates of the walk and of the plan cite. It walks over no tree, and knows
//! no plan.
//!
//! `images`: the key, type, declaration and rows of the new program for each of the old. An image
//! is a function of the list of renamed declarations, tested by equality; no old name is kept
//! beside it. `decl_sets`: a [`DeclSet`] is the declarations that get the name; where they are
//! several methods, `method_index` finds each by the class around its class and by its class's
//! name, so that no key is asked against all of them. `decl_tests`: its tests. `text_laws`: each
//! renamed text reads as its new tree. `reference_laws`: where nothing is lost, each reference,
//! written type, superclass and `super(..)` of the new trees is bound by the new rows, from
//! scratch, to the image of what it was bound to (`references_are_kept`).
//!
//! Definitions: `Targets` (what an identifier declares or is bound to), `Families` (what is
//! renamed with it), `Images`, `Regions` (the same for any refactoring, of which a rename is a
//! case: images of keys, what is seen from a place, the types that expressions have now), `Words`
//! and `Spelling` (how each reference is asked in the new program, and the first spelling that
//! binds to the image: the `jr_rewrite: Choosing` of a rename), `Standing` (places of the new
//! program beside those of the old one), `Keeping`, `Refusals` (methods of the prelude; the first
//! loss of the files), `Renames` (what is renamed, and a rename's own refusals).
#![tactic(auto)]

mod decl_sets;
mod decl_tests;
mod images;
mod method_index;
mod reference_laws;
mod text_laws;

pub use decl_sets::DeclSet;
pub use images::{
    NewName, class_to, ctor_to, decl_to, field_to, local_to, member_to, method_to, rows_to,
    type_to, types_to,
};
pub use reference_laws::references_are_kept;
pub use text_laws::{renamed_texts_read, rows_are_named};
