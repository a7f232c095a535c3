//! Lists of types that were met.
use crate::entries::Kind;
use std::alloc::{AllocError, Global};
use std::collections::HashSet;

/// Lists of types that were met.
#[derive(Drop)]
pub(crate) struct Signatures<'a> {
    lists: HashSet<&'a [Kind]>,
}

impl<'a> Signatures<'a> {
    ghost use Rattle.std.specs.Prelude.{◌≡◌, ◌||◌, List, OnOk, false};
    ghost use Rattle.jr_table.specs.declared.entries.Kind.{Kind};
    ghost use Rattle.jr_table.specs.Looking.{same_kinds};
    ghost use Rattle.jr_table.specs.Gathering.{is_met};

    pub(crate) fn new(alloc: Global) -> Signatures<'a>
        ensures { (params : List Kind) → is_met result params ≡ false }
    {
        Signatures {
            lists: HashSet::new(alloc),
        }
    }

    /// Whether the list was met.
    pub(crate) fn has(&self, params: &'a [Kind]) -> bool
        ensures { result ≡ is_met self.now params.now }
    {
        self.lists.contains(&params)
    }

    /// Notes a list.
    pub(crate) fn add(&mut self, list: &'a [Kind]) -> Result<(), AllocError>
        ensures { OnOk result ((params : List Kind)
            → is_met self.new params ≡ (same_kinds params list.now || is_met self.old params)) }
    {
        let _added = self.lists.insert(list)?;
        Ok(())
    }
}
