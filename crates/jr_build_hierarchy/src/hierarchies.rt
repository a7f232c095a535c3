//! Classes by numbers, with the superclass of each.
use jr_build_declared::declarations::DeclaredKey;
use jr_build_declared::key_index::KeyIndex;
use jr_index::Names;

/// The classes of a program and the prelude.
///
/// A class of the program has the number of its declaration, and the prelude's stand behind all declarations.
#[derive(Drop)]
pub struct Hierarchy<'a> {
    /// The class of each number; none where the declaration declares no class.
    pub keys: Vec<Option<DeclaredKey<'a>>>,
    pub privates: Vec<bool>,
    pub index: KeyIndex<'a>,
    /// Member classes by their names alone.
    pub inner: Names<'a>,
    /// The superclass of each class, as far as it is known.
    pub parents: Vec<Option<u32>>,
}

impl<'a> Hierarchy<'a> {
    ghost use Rattle.std.specs.Prelude.{◌≡◌, option_map};
    ghost use Rattle.jr_table.specs.Prelude.{top_key};
    ghost use Rattle.jr_build_declared.specs.DeclaredView.{declaration_key_of};
    ghost use Rattle.jr_build_hierarchy.specs.HierarchyView.{hierarchy_of};
    ghost use Rattle.jr_build_hierarchy.specs.Hierarchies as pure;

    /// The number of a class.
    #[tactic(auto, unfolding(crate::specs::HierarchyView::hierarchy_of))]
    pub fn number(&self, class: &DeclaredKey<'a>) -> Option<u32>
        ensures { result ≡ (hierarchy_of self.now).number (declaration_key_of class.now) }
    {
        self.index.find(class)
    }

    /// The number of a class that is no member class.
    pub fn top(&self, name: &'a str) -> Option<u32>
        ensures { result ≡ (hierarchy_of self.now).number (top_key name.now) }
    {
        self.number(&DeclaredKey { outer: None, name })
    }

    /// The number of a member class.
    pub fn inner(&self, outer: &'a str, name: &'a str) -> Option<u32>
        ensures { result ≡ (hierarchy_of self.now).number (pure.inner_key outer.now name.now) }
    {
        self.number(&DeclaredKey {
            outer: Some(outer),
            name,
        })
    }

    /// Whether a member class has the name.
    #[tactic(auto, unfolding(crate::specs::HierarchyView::hierarchy_of))]
    pub fn some_inner(&self, name: &'a str) -> Option<u32>
        ensures { result ≡ (hierarchy_of self.now).inner name.now }
    {
        self.inner.find(name)
    }

    /// The class of a number.
    #[tactic(auto, unfolding(crate::specs::HierarchyView::hierarchy_of))]
    pub fn key_at(&self, number: u32) -> Option<DeclaredKey<'a>>
        ensures { option_map declaration_key_of result ≡ pure.key_at (hierarchy_of self.now) number }
    {
        match self.keys.get(number as usize) {
            None => None,
            Some(key) => *key,
        }
    }

    /// The superclass of a number, as far as it is known.
    #[tactic(auto, unfolding(crate::specs::HierarchyView::hierarchy_of))]
    pub fn parent_at(&self, number: u32) -> Option<u32>
        ensures { result ≡ pure.parent_at (hierarchy_of self.now) number }
    {
        match self.parents.get(number as usize) {
            None => None,
            Some(parent) => *parent,
        }
    }

    /// Whether a class is private.
    #[tactic(auto, unfolding(crate::specs::HierarchyView::hierarchy_of))]
    fn is_private_at(&self, number: u32) -> bool
        ensures { result ≡ pure.is_private_at (hierarchy_of self.now) number }
    {
        match self.privates.get(number as usize) {
            None => false,
            Some(is_private) => *is_private,
        }
    }

    /// The member class that a class declares, where that is a top-level class.
    pub fn own(&self, class: &DeclaredKey<'a>, name: &'a str) -> Option<u32>
        ensures { result ≡ pure.own (hierarchy_of self.now) (declaration_key_of class.now) name.now }
    {
        match class.outer {
            None => self.inner(class.name, name),
            Some(_) => None,
        }
    }

    /// The member class that the class of a number declares.
    pub fn own_at(&self, class: u32, name: &'a str) -> Option<u32>
        ensures { result ≡ pure.own_at (hierarchy_of self.now) name.now class }
    {
        match self.key_at(class) {
            None => None,
            Some(class) => self.own(&class, name),
        }
    }

    /// What a class hands down: nothing, where it is private (JLS 8.5).
    pub fn inherited_class(&self, class: Option<u32>) -> Option<u32>
        ensures { result ≡ pure.inherited (hierarchy_of self.now) class }
    {
        match class {
            None => None,
            Some(class) => {
                if self.is_private_at(class) {
                    None
                } else {
                    Some(class)
                }
            }
        }
    }

    /// The superclass of a class, as far as it is known.
    pub fn parent_of(&self, class: &DeclaredKey<'a>) -> Option<u32>
        ensures { result ≡ pure.parent_of (hierarchy_of self.now) (declaration_key_of class.now) }
    {
        match self.number(class) {
            None => None,
            Some(class) => self.parent_at(class),
        }
    }
}
