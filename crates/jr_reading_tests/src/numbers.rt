//! Numbers by owner and name: names of two owners.
ghost use Rattle.std.specs.Prelude.{◌≡◌, Some};
ghost use Rattle.jr_index.specs.Linked.{place_of};

use jr_index::{Linked, NameTable, Place};
use std::alloc::{AllocError, Global};

/// Whether the last number under a name is found, and the one before told.
fn last_is_found(alloc: Global) -> Result<bool, AllocError> {
    let mut table = NameTable::of_owners(alloc, 2)?;
    let first = table.put(1, "a", 5)?;
    let second = table.put(1, "a", 7)?;
    let are_told = (first == None) & (second == Some(5));
    Ok(are_told & (table.find(1, "a") == Some(7)) & (table.find(0, "a") == None))
}

/// An owner and a name.
fn place<'a>(owner: u32, name: &'a str) -> Place<'a>
    ensures { place_of result ≡ (Some owner, name.now) }
{
    Place {
        owner: Some(owner),
        name,
    }
}

/// Whether the numbers of a place stand one behind the other.
fn are_linked(alloc: Global) -> Result<bool, AllocError> {
    let places = [place(0, "a"), place(1, "a"), place(0, "b"), place(0, "a")];
    let linked = Linked::of_places(alloc, 2, &places)?;
    let is_first = (linked.first(0, "a") == Some(0)) & (linked.next(0) == Some(3));
    let is_last = linked.next(3) == None;
    let is_other = (linked.first(1, "a") == Some(1)) & (linked.first(1, "b") == None);
    Ok(is_first & is_last & is_other)
}

#[test]
fn numbers_are_found_by_names(rt: HostRuntime) {
    assert!(rt; last_is_found(rt.alloc()).expect(&rt, "memory"));
    assert!(rt; are_linked(rt.alloc()).expect(&rt, "memory"));
}
