//! What is found by looking for it, class by class upwards.
ghost use Rattle.std.specs.Prelude.{◌≡◌, IsTrue, ◌↔◌, slice_get};

use crate::first_wanted::first_wanted;
use crate::tables::Table;
use crate::wanted::Wanted;

impl Table {
    ghost use Rattle.jr_table.specs.Entries.{entries_of};
    ghost use Rattle.jr_table.specs.Chains.{IsSubclassAt};
    ghost use Rattle.jr_table.specs.Looking.{own_row, nearest, member, is_private_at, inherited};
    ghost use Rattle.jr_table.specs.Wanted.{passes};

    /// Whether a row is private.
    pub fn is_private(&self, number: u32) -> bool
        ensures { result ≡ is_private_at (entries_of self.now) number }
    {
        match self.entries().get(number as usize) {
            None => false,
            Some(entry) => entry.is_private,
        }
    }

    /// Whether class `sub` is class `sup` or has it as a superclass, perhaps through others
    /// (JLS 8.1.4).
    pub fn is_subclass_at(&self, sub: u32, sup: u32) -> bool
        ensures { IsTrue result ↔ IsSubclassAt (entries_of self.now) sub sup }
    {
        match self.spans().is_within(sub, sup) {
            None => self.climbs_to(sub, sup),
            Some(is_within) => is_within,
        }
    }

    /// The same, by climbing.
    fn climbs_to(&self, sub: u32, sup: u32) -> bool
        ensures { IsTrue result ↔ IsSubclassAt (entries_of self.now) sub sup }
    {
        self.keeps_rows();
        let mut class = sub;
        loop {
            if class == sup {
                return true;
            }
            let Some(parent) = self.parent_of(class) else {
                return false;
            };
            class = parent;
        }
    }

    /// The row that declares in the class what is looked for.
    #[tactic(auto, unfolding(crate::specs::Looking::own_row))]
    pub fn own(&self, class: u32, wanted: &Wanted<'_>) -> Option<u32>
        ensures { result ≡ own_row (entries_of self.now) (passes wanted.now) class }
    {
        self.keeps_rows();
        first_wanted(self.members(), self.entries(), class, wanted)
    }

    /// The row that declares what is looked for in the nearest class upwards.
    pub fn nearest(&self, class: u32, wanted: &Wanted<'_>) -> Option<u32>
        ensures { result ≡ nearest (entries_of self.now) (passes wanted.now) class }
    {
        self.keeps_rows();
        let mut class = class;
        loop {
            if let Some(number) = self.own(class, wanted) {
                return Some(number);
            }
            let Some(parent) = self.parent_of(class) else {
                return None;
            };
            class = parent;
        }
    }

    /// What a class hands down of a row: nothing, where it is private.
    fn without_private(&self, number: Option<u32>) -> Option<u32>
        ensures { result ≡ inherited (entries_of self.now) number }
    {
        match number {
            None => None,
            Some(number) => {
                if self.is_private(number) {
                    None
                } else {
                    Some(number)
                }
            }
        }
    }

    /// The row of the member that is looked for.
    pub fn member(&self, class: u32, wanted: &Wanted<'_>) -> Option<u32>
        ensures { result ≡ member (entries_of self.now) (passes wanted.now) class }
    {
        self.keeps_rows();
        if let Some(number) = self.own(class, wanted) {
            return Some(number);
        }
        match self.parent_of(class) {
            None => None,
            Some(parent) => self.without_private(self.nearest(parent, wanted)),
        }
    }
}
