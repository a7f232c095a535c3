//! Member types, and what a class's name means.
use crate::hierarchies::Hierarchy;
use jr_build_declared::declarations::DeclaredKey;

impl<'a> Hierarchy<'a> {
    ghost use Rattle.std.specs.Prelude.{◌≡◌, option_map, length};
    ghost use Rattle.jr_build_declared.specs.DeclaredView.{declaration_key_of, text_of};
    ghost use Rattle.jr_build_hierarchy.specs.HierarchyView.{hierarchy_of};
    ghost use Rattle.jr_build_hierarchy.specs.Hierarchies as pure;

    /// The member class of the name that is declared nearest upwards.
    ///
    /// There may be a cycle: no class is passed twice before one that declares the member class.
    fn nearest(&self, class: u32, name: &'a str) -> Option<u32>
        ensures { result ≡ pure.nearest (length (hierarchy_of self.now).keys)
            (hierarchy_of self.now) name.now class }
    {
        let mut class = class;
        for _turn in 0..self.keys.len() {
            if let Some(own) = self.own_at(class, name) {
                return Some(own);
            }
            let Some(parent) = self.parent_at(class) else {
                return None;
            };
            class = parent;
        }
        None
    }

    /// The member class of the name that is declared nearest upwards from a superclass.
    fn nearest_from(&self, parent: Option<u32>, name: &'a str) -> Option<u32>
        ensures { result ≡ pure.nearest_from (hierarchy_of self.now) name.now parent }
    {
        match parent {
            None => None,
            Some(parent) => self.nearest(parent, name),
        }
    }

    /// The member class of the name that a superclass declares nearest.
    ///
    /// Most names are those of no member class: for them no class is looked at.
    fn nearest_above(&self, parent: Option<u32>, name: &'a str) -> Option<u32>
        ensures { result ≡ pure.nearest_above (hierarchy_of self.now) name.now parent }
    {
        match self.some_inner(name) {
            None => None,
            Some(_) => self.nearest_from(parent, name),
        }
    }

    /// The member type of a class: the class that it declares, or else what it inherits (JLS 8.5).
    pub fn member_type(&self, class: &DeclaredKey<'a>, name: &'a str) -> Option<u32>
        ensures { result
            ≡ pure.member_type (hierarchy_of self.now) (declaration_key_of class.now) name.now }
    {
        match self.own(class, name) {
            Some(own) => Some(own),
            None => self.inherited_class(self.nearest_above(self.parent_of(class), name)),
        }
    }

    /// The member type of a class by its number.
    fn member_type_at(&self, class: u32, name: &'a str) -> Option<u32>
        ensures { result ≡ pure.member_type_at (hierarchy_of self.now) class name.now }
    {
        match self.key_at(class) {
            None => None,
            Some(class) => self.member_type(&class, name),
        }
    }

    /// The member type of the class that was found.
    pub fn member_type_of(&self, class: Option<u32>, name: &'a str) -> Option<u32>
        ensures { result ≡ pure.member_type_of (hierarchy_of self.now) class name.now }
    {
        match class {
            None => None,
            Some(class) => self.member_type_at(class, name),
        }
    }

    /// What a simple name means in a top-level class, outside its member classes (JLS 6.4.1).
    pub fn found_in_top(&self, outer: &'a str, name: &'a str) -> Option<u32>
        ensures { result ≡ pure.found_in_top (hierarchy_of self.now) outer.now name.now }
    {
        match self.member_type(
            &DeclaredKey {
                outer: None,
                name: outer,
            },
            name,
        ) {
            Some(class) => Some(class),
            None => self.top(name),
        }
    }

    /// What a simple name means around a class.
    fn found_around(&self, outer: &Option<&'a str>, name: &'a str) -> Option<u32>
        ensures { result
            ≡ pure.found_around (hierarchy_of self.now) (option_map text_of outer.now) name.now }
    {
        match outer {
            None => self.top(name),
            Some(outer) => self.found_in_top(outer, name),
        }
    }

    /// What a simple name means in a class (JLS 6.4.1).
    fn found_type(&self, class: &DeclaredKey<'a>, name: &'a str) -> Option<u32>
        ensures { result
            ≡ pure.found_type (hierarchy_of self.now) (declaration_key_of class.now) name.now }
    {
        match self.member_type(class, name) {
            Some(class) => Some(class),
            None => self.found_around(&class.outer, name),
        }
    }

    /// The class that a name means in a class, perhaps written behind another.
    pub fn meant_class(
        &self,
        class: &DeclaredKey<'a>,
        left: &Option<&'a str>,
        name: &'a str,
    ) -> Option<u32>
        ensures { result ≡ pure.meant_class (hierarchy_of self.now) (declaration_key_of class.now)
            (option_map text_of left.now) name.now }
    {
        match left {
            None => self.found_type(class, name),
            Some(left) => self.member_type_of(self.found_type(class, left), name),
        }
    }
}
