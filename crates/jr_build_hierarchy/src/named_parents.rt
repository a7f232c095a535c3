//! The class that is named as a superclass.
use crate::hierarchies::Hierarchy;
use jr_build_declared::declarations::{DeclaredKind, Written};

impl<'a> Hierarchy<'a> {
    ghost use Rattle.std.specs.Prelude.{◌≡◌, Some, option_map};
    ghost use Rattle.jr_build_declared.specs.DeclaredView.{item_of, written_of, text_of};
    ghost use Rattle.jr_build_hierarchy.specs.HierarchyView.{hierarchy_of};
    ghost use Rattle.jr_build_hierarchy.specs.Hierarchies as pure;

    /// What a top-level class names as its superclass (JLS 8.1.4).
    fn parent_of_top(&self, written: &Option<Written<'a>>) -> Option<u32>
        ensures { result
            ≡ pure.parent_of_top (hierarchy_of self.now) (option_map written_of written.now) }
    {
        match written {
            None => self.top("Object"),
            Some(written) => self.named_by_top(written),
        }
    }

    /// The superclass of that name, where a top-level class writes it.
    fn named_by_top(&self, written: &Written<'a>) -> Option<u32>
        ensures { result
            ≡ pure.parent_of_top (hierarchy_of self.now) (Some (written_of written.now)) }
    {
        match written {
            Written::Int | Written::Boolean => None,
            Written::Named { at: _, outer, name } => match outer {
                None => self.top(name),
                Some(_) => None,
            },
        }
    }

    /// What a member class names as its superclass, as far as superclasses are known.
    fn parent_of_inner(&self, outer: &'a str, written: &Option<Written<'a>>) -> Option<u32>
        ensures { result ≡ pure.parent_of_inner (hierarchy_of self.now) outer.now
            (option_map written_of written.now) }
    {
        match written {
            None => self.top("Object"),
            Some(written) => self.named_by_inner(outer, written),
        }
    }

    /// The superclass of that name, where a member class of `around` writes it.
    fn named_by_inner(&self, around: &'a str, written: &Written<'a>) -> Option<u32>
        ensures { result ≡ pure.parent_of_inner (hierarchy_of self.now) around.now
            (Some (written_of written.now)) }
    {
        match written {
            Written::Int | Written::Boolean => None,
            Written::Named { at: _, outer, name } => match outer {
                None => self.found_in_top(around, name),
                Some(left) => self.member_type_of(self.found_in_top(around, left), name),
            },
        }
    }

    /// What a class names, by the class around it.
    fn parent_in(&self, outer: &Option<&'a str>, written: &Option<Written<'a>>) -> Option<u32>
        ensures { result ≡ pure.parent_in (hierarchy_of self.now)
            (option_map text_of outer.now) (option_map written_of written.now) }
    {
        match outer {
            None => self.parent_of_top(written),
            Some(outer) => self.parent_of_inner(outer, written),
        }
    }

    /// What the class that an item declares names as its superclass.
    pub fn parent_of_item(&self, item: &DeclaredKind<'a>) -> Option<u32>
        ensures { result ≡ pure.parent_of_item (hierarchy_of self.now) (item_of item.now) }
    {
        match item {
            DeclaredKind::Class(class) => self.parent_in(&class.key.outer, &class.parent),
            DeclaredKind::Field(_) | DeclaredKind::Method(_) | DeclaredKind::Ctor(_) => None,
        }
    }

    /// What a class names, where it is no member class.
    fn parent_of_outer(&self, outer: &Option<&'a str>, written: &Option<Written<'a>>) -> Option<u32>
        ensures { result ≡ pure.parent_of_outer (hierarchy_of self.now)
            (option_map text_of outer.now) (option_map written_of written.now) }
    {
        match outer {
            None => self.parent_of_top(written),
            Some(_) => None,
        }
    }

    /// What a top-level class names as its superclass; nothing of other items.
    pub fn parent_of_outer_item(&self, item: &DeclaredKind<'a>) -> Option<u32>
        ensures { result ≡ pure.parent_of_outer_item (hierarchy_of self.now) (item_of item.now) }
    {
        match item {
            DeclaredKind::Class(class) => self.parent_of_outer(&class.key.outer, &class.parent),
            DeclaredKind::Field(_) | DeclaredKind::Method(_) | DeclaredKind::Ctor(_) => None,
        }
    }
}
