//! What written types mean.
ghost use Rattle.std.specs.Prelude.{◌≡◌, option_map};
ghost use Rattle.jr_build_declared.specs.DeclaredView.{declaration_key_of, text_of, written_of};
ghost use Rattle.jr_build_hierarchy.specs.HierarchyView.{hierarchy_of, meaning_of};
ghost use Rattle.jr_build_hierarchy.specs.Hierarchies as pure;

use crate::hierarchies::Hierarchy;
use jr_build_declared::declarations::{DeclaredKey, Written};

/// The type that a written one means.
#[derive(Clone, Copy, PartialEq, Eq, Hash, Drop)]
pub enum Meaning<'a> {
    Int,
    Boolean,
    Class(DeclaredKey<'a>),
}

/// The type of a class by its number.
fn class_meaning<'a>(hierarchy: &Hierarchy<'a>, class: Option<u32>) -> Option<Meaning<'a>>
    ensures { option_map meaning_of result ≡ pure.class_type (hierarchy_of hierarchy.now) class }
{
    let class = class?;
    let key = hierarchy.key_at(class)?;
    Some(Meaning::Class(key))
}

/// What a type means that is written in the body of a class; none where it means nothing.
pub fn means<'a>(
    hierarchy: &Hierarchy<'a>,
    of: &DeclaredKey<'a>,
    written: &Written<'a>,
) -> Option<Meaning<'a>>
    ensures { option_map meaning_of result
        ≡ pure.meaning (hierarchy_of hierarchy.now) (declaration_key_of of.now) (written_of written.now) }
{
    match written {
        Written::Int => Some(Meaning::Int),
        Written::Boolean => Some(Meaning::Boolean),
        Written::Named { at: _, outer, name } => {
            class_meaning(hierarchy, hierarchy.meant_class(of, outer, name))
        }
    }
}

/// The superclass of a class; none where it has none.
pub fn parent<'a>(hierarchy: &Hierarchy<'a>, of: &DeclaredKey<'a>) -> Option<DeclaredKey<'a>>
    ensures { option_map declaration_key_of result
        ≡ pure.parent_key (hierarchy_of hierarchy.now) (declaration_key_of of.now) }
{
    match hierarchy.parent_of(of) {
        None => None,
        Some(parent) => hierarchy.key_at(parent),
    }
}
