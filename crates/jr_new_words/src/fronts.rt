//! What stands in front of a dot.
ghost use Rattle.std.specs.Prelude.{◌≡◌, ◌↔◌, IsTrue, IfOk, option_map};
ghost use Rattle.jr_table.specs.TypeView.{class_key_of};
ghost use Rattle.jr_images.specs.Words.{class_name, named_class};
ghost use Rattle.jr_new_words.specs.FrontView.{in_front_of};

use jr_table::ClassKey;
use std::alloc::AllocError;

/// What words in front of a dot find in the new program: the name of a class, a value of a class,
/// or neither.
#[derive(Clone, Copy, Drop)]
pub enum InFront<'a> {
    Class(&'a ClassKey),
    Value(&'a ClassKey),
    Neither,
}

/// The class whose name it is.
fn named_class<'a>(front: &InFront<'a>) -> Option<&'a ClassKey>
    ensures { option_map (λ k. class_key_of k.now) result ≡ named_class (in_front_of front.now) }
{
    match *front {
        InFront::Class(key) => Some(key),
        InFront::Value(_) => None,
        InFront::Neither => None,
    }
}

/// The same key once more.
pub(crate) fn named_copy(front: &InFront<'_>) -> Result<Option<ClassKey>, AllocError>
    ensures { IfOk result (λ o. option_map class_key_of o ≡ named_class (in_front_of front.now)) }
{
    match named_class(front) {
        None => Ok(None),
        Some(key) => Ok(Some(key.copy()?)),
    }
}

/// Whether it is the name of this class.
pub(crate) fn names_class(front: &InFront<'_>, class: &ClassKey) -> bool
    ensures { IsTrue result ↔ (in_front_of front.now ≡ class_name (class_key_of class.now)) }
{
    match *front {
        InFront::Class(key) => *key == *class,
        InFront::Value(_) => false,
        InFront::Neither => false,
    }
}
