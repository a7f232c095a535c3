//! Laws of each plan of a rename; nothing is run by them. They ask of a plan no more than that it
//! is one, in a program without faults and errors (`jr_bind: IsProgram`).
//!
//! Where no class is renamed, the images of the old rows are the rows of the new program, which has
//! no fault of declarations (`locals_give_images`, `fields_give_images`, `methods_give_images`).
//! Where a class is renamed that holds if each class of the new trees has a superclass
//! (`classes_give_images`): a private class that loses its name may lay another class of that name
//! open. `constructors_give_images`: the same of a constructor, with which nothing gets another
//! name. `plans_keep_programs` has these for a plan, and that each reference is kept
//! (`jr_images: references_are_kept`). Where one local is renamed, each key is its own image
//! (`locals_keep_keys`). What is renamed is one set, a program is rewritten in one way, and a step
//! is planned in one way or refused for one reason (`renamed_is_one`, `rewriting_is_one`,
//! `plan_is_one`).
#![tactic(auto)]

mod class_laws;
mod local_laws;
mod new_programs;
mod one_plan_laws;
mod plan_laws;

pub use class_laws::{classes_give_images, constructors_give_images};
pub use local_laws::locals_keep_keys;
pub use new_programs::{
    classes_stay_fair, fields_give_images, locals_give_images, methods_give_images, plans_become,
    renamings_stay_fair,
};
pub use one_plan_laws::{plan_is_one, renamed_is_one, rewriting_is_one};
pub use plan_laws::plans_keep_programs;
