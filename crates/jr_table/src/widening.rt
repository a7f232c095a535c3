//! Assignability by the numbers of classes.
ghost use Rattle.std.specs.Prelude.{◌≡◌};

use crate::entries::Kind;
use crate::tables::Table;
use crate::wanted::same_kind;

impl Table {
    ghost use Rattle.jr_table.specs.Entries.{entries_of};
    ghost use Rattle.jr_table.specs.Calls.{widens, assignable, fits};

    /// Whether one type is null or a class and the other a class that takes it.
    fn widens_at(&self, from: Kind, to: Kind) -> bool
        ensures { result ≡ widens (entries_of self.now) from to }
    {
        self.keeps_rows();
        match (from, to) {
            (Kind::Null, Kind::Class(_)) => true,
            (Kind::Class(sub), Kind::Class(sup)) => self.is_subclass_at(sub, sup),
            _ => false,
        }
    }

    /// Whether a value of the one type may be assigned to a variable of the other: a type to
    /// itself, a class to its superclasses, null to every class (JLS 5.2).
    #[tactic(auto, unfolding(crate::specs::Calls::assignable))]
    pub fn is_assignable_at(&self, from: Kind, to: Kind) -> bool
        ensures { result ≡ assignable (entries_of self.now) from to }
    {
        same_kind(from, to) | self.widens_at(from, to)
    }

    /// Whether there are as many types as parameters, and each may be assigned to its parameter
    /// (JLS 15.12.2.2).
    pub fn fit(&self, types: &[Kind], params: &[Kind]) -> bool
        ensures { result ≡ fits (entries_of self.now) types.now params.now }
    {
        let mut types = types;
        let mut params = params;
        loop {
            match (types.split_first(), params.split_first()) {
                (None, None) => return true,
                (Some((first, rest)), Some((second, others))) => {
                    if !self.is_assignable_at(*first, *second) {
                        return false;
                    }
                    types = rest;
                    params = others;
                }
                _ => return false,
            }
        }
    }
}
