//! The superclass of each class.
ghost use Rattle.std.specs.Prelude.{◌≡◌, ◌+◌, ◌<◌, ◌^◌, IfOk, length, map};
ghost use Rattle.jr_build_declared.specs.DeclaredView.{declaration_of};
ghost use Rattle.jr_build_hierarchy.specs.HierarchyView.{hierarchy_of};
ghost use Rattle.jr_build_hierarchy.specs.Hierarchies as pure;
ghost use Rattle.jr_build_hierarchy.specs.Superclasses.{AreUnique, HasClasses, KnowsTops, IsHierarchy};

use crate::class_numbers::{class_keys, inner_names, numbers, privates};
use crate::hierarchies::Hierarchy;
use jr_build_declared::declarations::{DeclaredItem, DeclaredKind};
use std::alloc::{AllocError, Global};

impl<'a> Hierarchy<'a> {
    ghost use Rattle.std.specs.Prelude.{◌≡◌, ◌+◌, ◌<◌, ◌^◌, IsTrue, IfOk, false};
    ghost use Rattle.std.specs.Prelude.{length, map, is_some};
    ghost use Rattle.jr_build_declared.specs.DeclaredView.{item_of, declaration_of};
    ghost use Rattle.jr_build_hierarchy.specs.HierarchyView.{hierarchy_of};
    ghost use Rattle.jr_build_hierarchy.specs.Hierarchies as pure;
    ghost use Rattle.jr_build_hierarchy.specs.Superclasses.{KnowsTops, IsSettled, IsHierarchy};

    /// What the declarations' top-level classes name.
    fn declaration_parents(
        &self,
        alloc: Global,
        declarations: &[DeclaredItem<'a>],
    ) -> Result<Vec<Option<u32>>, AllocError>
        ensures { IfOk result (λ parents. parents.items
            ≡ pure.declaration_parents (hierarchy_of self.now) (map declaration_of declarations.now)) }
    {
        let mut parents = Vec::new(alloc);
        for declaration in declarations {
            parents.push(self.parent_of_outer_item(&declaration.item))?;
        }
        Ok(parents)
    }

    /// The superclasses of top-level classes and of the prelude's.
    fn top_parents(
        &self,
        alloc: Global,
        declarations: &[DeclaredItem<'a>],
    ) -> Result<Vec<Option<u32>>, AllocError>
        ensures { IfOk result (λ parents. parents.items
            ≡ pure.top_parents (hierarchy_of self.now) (map declaration_of declarations.now)) }
    {
        let mut parents = self.declaration_parents(alloc, declarations)?;
        let object = self.top("Object");
        parents.push(None)?;
        parents.push(object)?;
        parents.push(object)?;
        parents.push(object)?;
        Ok(parents)
    }

    /// What is told of the superclass of a number, where it isn't known.
    fn new_parent(&self, number: u32, item: &DeclaredKind<'a>) -> Option<u32>
        ensures { result ≡ pure.tells (hierarchy_of self.now) number (item_of item.now) }
    {
        match self.parent_at(number) {
            None => self.parent_of_item(item),
            Some(_) => None,
        }
    }

    /// Keeps what is told of the superclass of a number, and answers whether something is.
    pub fn tell(&mut self, number: u32, item: &DeclaredKind<'a>) -> bool
        requires { number < length self.old.parents.items }
        ensures told { hierarchy_of self.new ≡ pure.with_parent (hierarchy_of self.old) number
            (pure.tells (hierarchy_of self.old) number (item_of item.now)) }
        ensures answers { result
            ≡ is_some (pure.tells (hierarchy_of self.old) number (item_of item.now)) }
    {
        match self.new_parent(number, item) {
            None => false,
            Some(parent) => {
                self.parents[number as usize] = Some(parent);
                true
            }
        }
    }

    /// Looks once at each class whose superclass isn't known, and answers whether one was found.
    fn round(&mut self, declarations: &[DeclaredItem<'a>]) -> bool
        requires few { length declarations.now + 4 < 2 ^ 32 }
        requires knows { KnowsTops (map declaration_of declarations.now) (hierarchy_of self.old) }
        ensures knows { KnowsTops (map declaration_of declarations.now) (hierarchy_of self.new) }
        ensures settled { result ≡ false
            → IsSettled (map declaration_of declarations.now) (hierarchy_of self.new) }
        ensures fewer { IsTrue result → pure.unknown (hierarchy_of self.new).parents
            < pure.unknown (hierarchy_of self.old).parents }
    {
        let mut found = false;
        for (number, declaration) in declarations.iter().enumerate() {
            let told = self.tell(number as u32, &declaration.item);
            found = found | told;
        }
        found
    }

    /// Finds what is left of superclasses of member classes, round by round, until a round finds
    /// none: mostly the first.
    fn settle(&mut self, declarations: &[DeclaredItem<'a>])
        requires few { length declarations.now + 4 < 2 ^ 32 }
        requires knows { KnowsTops (map declaration_of declarations.now) (hierarchy_of self.old) }
        ensures { IsHierarchy (map declaration_of declarations.now) (hierarchy_of self.new) }
    {
        loop {
            let found = self.round(declarations);
            if !found {
                return;
            }
        }
    }
}

/// The classes, with no superclasses.
fn classes<'a>(
    alloc: Global,
    declarations: &[DeclaredItem<'a>],
) -> Result<Hierarchy<'a>, AllocError>
    requires few { length declarations.now + 4 < 2 ^ 32 }
    requires unique { AreUnique (map declaration_of declarations.now) }
    ensures { IfOk result (λ h. HasClasses (map declaration_of declarations.now) (hierarchy_of h)) }
{
    let keys = class_keys(alloc, declarations)?;
    let privates = privates(alloc, declarations)?;
    let index = numbers(alloc, &keys)?;
    let inner = inner_names(alloc, &keys)?;
    Ok(Hierarchy {
        keys,
        privates,
        index,
        inner,
        parents: Vec::new(alloc),
    })
}

/// The classes, with the superclasses of top-level classes.
fn with_tops<'a>(
    alloc: Global,
    declarations: &[DeclaredItem<'a>],
) -> Result<Hierarchy<'a>, AllocError>
    requires few { length declarations.now + 4 < 2 ^ 32 }
    requires unique { AreUnique (map declaration_of declarations.now) }
    ensures { IfOk result (λ h. KnowsTops (map declaration_of declarations.now) (hierarchy_of h)) }
{
    let mut hierarchy = classes(alloc, declarations)?;
    hierarchy.parents = hierarchy.top_parents(alloc, declarations)?;
    Ok(hierarchy)
}

/// The classes of a program, each with its superclass where it has one (JLS 8.1.4).
pub fn hierarchy<'a>(
    alloc: Global,
    declarations: &[DeclaredItem<'a>],
) -> Result<Hierarchy<'a>, AllocError>
    requires few { length declarations.now + 4 < 2 ^ 32 }
    requires unique { AreUnique (map declaration_of declarations.now) }
    ensures { IfOk result (λ h. IsHierarchy (map declaration_of declarations.now) (hierarchy_of h)) }
{
    let mut hierarchy = with_tops(alloc, declarations)?;
    hierarchy.tell_in_order(alloc, declarations)?;
    hierarchy.settle(declarations);
    Ok(hierarchy)
}
