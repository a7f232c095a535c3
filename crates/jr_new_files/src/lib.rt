//! What becomes of a program under a rename: one walk over its written members, and what comes of
//! each file. It knows no refusal.
//!
//! `parts`: `part` takes one written member, the head of a class, a field, a method or a
//! constructor, with what binding knows of it by its number, and calls `heads`, `fields`, `methods`
//! or `ctors` (by `members`). `beginnings` makes the places (none for a primitive type, nor for a
//! field without an initializer), `words` puts declared names. A type in a declaration is
//! seen from a place of the member without parameters, a superclass from the body of the class
//! around it. A written `super(..)` has no word that could change: its constructor is asked, and
//! only where it is lost its word `super` is looked for among the file's tokens (`supers`). What
//! the walks below rest on (`specs/Ready`) comes from `jr_bind: IsProgram` alone; `part_laws` says
//! so ([`written_members_are_ready`]).
//!
//! `files`: one loop over the written members, each of which adds to its file what `part` gives,
//! unless the rename leaves it as it is (`unaffected`: the names in which the two programs differ;
//! of a local that gets another name, every member but the one that declares it). `file_laws`:
//! files are rewritten (`jr_images: Renames.Rewrite`) by rewriting the written members of
//! `jr_members: written_members`, each by itself and in the order of that list, so the walk needs
//! no loop over classes, units and files. `spared_laws`: where no class gets another name, no local
//! of the member does, and of fields and methods only such of names that the member avoids
//! (`specs/Spared: IsSpared`), all its references stay as they are: no text changes, nothing is
//! respelled and nothing is lost; so such a member is passed over. `losses`: the first file that
//! loses something, and there the first of the least place, by numbers, so that no loss is copied.
//! `programs`: [`rewrite`] makes the edits of each file and adds up what is respelled.
#![tactic(auto)]

mod beginnings;
mod ctors;
mod fields;
mod file_laws;
mod files;
mod heads;
mod losses;
mod members;
mod methods;
mod part_laws;
mod parts;
mod programs;
mod spared_laws;
mod supers;
mod unaffected;
mod words;

pub use beginnings::{param_types, push_params};
pub use file_laws::files_are_rewritten;
pub use losses::least_loss;
pub use part_laws::{written_members_are_ready, written_members_are_sound};
pub use programs::{Rewriting, rewrite};
pub use spared_laws::spared_give_nothing;
pub use words::is_static;
