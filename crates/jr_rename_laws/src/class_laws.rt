//! Laws that no call's clause can carry.
ghost use Rattle.jr_rename_laws.specs.ClassLaws.{ClassesGiveImages, BuiltRowsAreImages};
ghost use Rattle.jr_rename_laws.specs.ClassLaws.{ConstructorsGiveImages};

use crate::new_programs::{classes_stay_fair, renamings_stay_fair};
use jr_images::references_are_kept;
use jr_text::Mark;

/// Where a class is renamed and each class of the new trees, read again, has a superclass, these
/// trees have no fault of declarations, their rows are the images of the old ones, and each member
/// stands where the one stood whose image it is (JLS 8.1, 8.5). That there are superclasses has to
/// be asked: a private class that loses its name may lay another class of that name open, by which
/// a superclass is then named that leads back to its own class. Where rows can be made of the new
/// trees at all, they are the images.
pub fn classes_give_images<A: Mark, B>()
    ensures images { ClassesGiveImages A B }
    ensures rows { BuiltRowsAreImages A B }
{
    references_are_kept::<A>();
    classes_stay_fair::<A>();
}

/// Where the declaration is a constructor, whose name is that of its class (JLS 8.8), nothing gets
/// another name. If the new trees, read again, are a program, its rows are the images of the old
/// ones, and each member stands where the one stood whose image it is.
pub fn constructors_give_images<A: Mark, B>()
    ensures { ConstructorsGiveImages A B }
{
    references_are_kept::<A>();
    renamings_stay_fair::<A>();
}
