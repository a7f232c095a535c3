//! What is kept of a local, so that it can be taken away again.
ghost use Rattle.std.specs.Prelude.{◌≡◌, ℕ, List, Option, OnOk};
ghost use Rattle.jr_index.specs.Names as names;
ghost use Rattle.jr_scopes.specs.Numbers.{PutsPlace};
ghost use Rattle.jr_scopes.specs.Restoring as pure;

use crate::helds::Held;
use crate::numbers::Numbers;
use jr_ast::Name;
use jr_index::Names;
use std::alloc::AllocError;

/// A local, and the places of the last ones before it that have its name, and its number.
#[derive(Clone, Copy, Drop)]
pub struct Known<'a> {
    pub held: Held<'a>,
    pub named: Option<u32>,
    pub numbered: Option<u32>,
}

impl<'a> Known<'a> {
    ghost use Rattle.std.specs.Str.{bytes_eq};
    ghost use Rattle.jr_scopes.specs.Tracked.{name_in, number_in, same_number};

    pub(crate) fn has_name(&self, name: &Name) -> bool
        ensures { result ≡ bytes_eq (name_in self.now) name.now }
    {
        self.held.name.as_str() == name.as_str()
    }

    pub(crate) fn has_number(&self, number: u32) -> bool
        ensures { result ≡ same_number (number_in self.now) number }
    {
        self.held.number == number
    }
}

/// Puts the place, if there is one, under the name.
pub(crate) fn restore_name<'a>(
    names: &mut Names<'a>,
    name: &'a Name,
    place: Option<u32>,
) -> Result<(), AllocError>
    ensures { OnOk result (pure.RestoresName names.old name.now place names.new) }
{
    match place {
        None => Ok(()),
        Some(place) => {
            let _before = names.put(name.as_str(), place)?;
            Ok(())
        }
    }
}

/// Puts the place, if there is one, under the number.
pub(crate) fn restore_number(
    numbers: &mut Numbers,
    number: u32,
    place: Option<u32>,
) -> Result<(), AllocError>
    ensures { OnOk result (pure.RestoresNumber numbers.old number place numbers.new) }
{
    match place {
        None => Ok(()),
        Some(place) => numbers.put(number, place),
    }
}
