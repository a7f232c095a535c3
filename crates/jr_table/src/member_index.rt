//! Members by their class and their name.
ghost use Rattle.std.specs.Prelude.{◌≡◌, ◌<◌, ◌^◌, ◌+◌, map, length, IfOk};
ghost use Rattle.jr_index.specs.Linked.{place_of, AreOwned};
ghost use Rattle.jr_table.specs.MemberIndex.{owner_by, member_place, LinksMembers};

use crate::entries::{Entry, Sort};
use jr_index::{Linked, Place};
use std::alloc::{AllocError, Global};

/// The class that a row is found in: of a class the one around it.
fn owner(entry: &Entry) -> Option<u32>
    ensures { result ≡ owner_by entry.now.sort entry.now.class entry.now.outer }
{
    match entry.sort {
        Sort::Class => entry.outer,
        Sort::Field => Some(entry.class),
        Sort::Method => Some(entry.class),
        Sort::Ctor => Some(entry.class),
        Sort::Local => Some(entry.class),
    }
}

fn place(entry: &Entry) -> Place<'_>
    ensures { place_of result ≡ member_place entry.now }
{
    Place {
        owner: owner(entry),
        name: entry.name.as_str(),
    }
}

fn places<'a>(alloc: Global, entries: &'a [Entry]) -> Result<Vec<Place<'a>>, AllocError>
    ensures { IfOk result (λ v. map place_of v.items ≡ map member_place entries.now) }
{
    let mut places = Vec::with_capacity(alloc, entries.len())?;
    for entry in entries {
        places.push(place(entry))?;
    }
    Ok(places)
}

/// The members of each class by name, those of one name in the order of their rows.
pub(crate) fn members(alloc: Global, entries: &[Entry]) -> Result<Linked, AllocError>
    requires few { length entries.now < 2 ^ 32 }
    requires owned { AreOwned (map member_place entries.now) (length entries.now + 1) }
    ensures { IfOk result (LinksMembers entries.now) }
{
    let places = places(alloc, entries)?;
    let members = Linked::of_places(alloc, entries.len() + 1, &places)?;
    Ok(members)
}
