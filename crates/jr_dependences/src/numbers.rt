//! Sites that name fields and locals by numbers: a key's number is that of the first site that has
//! it.
ghost use Rattle.std.specs.Prelude.{◌≡◌, ◌↔◌, ◌<◌, ◌^◌, IfOk, IsTrue, length, map};
ghost use Rattle.jr_dependences.specs.Numbers.{HasField, HasLocal, IsFirst};
ghost use Rattle.jr_dependences.specs.Numbers.{IsFieldNumber, IsNumbered, IsRowOf};

use jr_sync::Site;
use std::alloc::{AllocError, Global};

/// A site that names fields and locals by numbers.
pub(crate) type NumberedSite = Site<u32, u32>;

/// Whether the site accesses the field.
fn has_field<K: Eq, L: Eq>(site: &Site<K, L>, field: &K) -> bool
    ensures { IsTrue result ↔ HasField (λ x y. IsTrue (K.eq x y)) field.now site.now }
{
    match site {
        Site::Access(_, Some(other)) => *other == *field,
        Site::Access(_, None) => false,
        Site::Read(_) | Site::Write(_) | Site::Check | Site::Call | Site::Loop => false,
    }
}

/// Whether the site reads or writes the local.
fn has_local<K: Eq, L: Eq>(site: &Site<K, L>, local: &L) -> bool
    ensures { IsTrue result ↔ HasLocal (λ x y. IsTrue (L.eq x y)) local.now site.now }
{
    match site {
        Site::Read(other) => *other == *local,
        Site::Write(other) => *other == *local,
        Site::Access(_, _) | Site::Check | Site::Call | Site::Loop => false,
    }
}

/// The number of the first site that accesses the field; 0 if none does.
fn field_number<K: Eq, L: Eq>(sites: &[&Site<K, L>], field: &K) -> u32
    requires { length sites.now < 2 ^ 32 }
    ensures { IsFirst (HasField (λ x y. IsTrue (K.eq x y)) field.now)
        (map (λ s. s.now) sites.now) result }
{
    for n in 0..sites.len() {
        if has_field(sites[n], field) {
            return n as u32;
        }
    }
    0
}

/// The number of the first site that reads or writes the local; 0 if none does.
fn local_number<K: Eq, L: Eq>(sites: &[&Site<K, L>], local: &L) -> u32
    requires { length sites.now < 2 ^ 32 }
    ensures { IsFirst (HasLocal (λ x y. IsTrue (L.eq x y)) local.now)
        (map (λ s. s.now) sites.now) result }
{
    for n in 0..sites.len() {
        if has_local(sites[n], local) {
            return n as u32;
        }
    }
    0
}

/// The number of a field, if there is one.
fn number_of<K: Eq, L: Eq>(sites: &[&Site<K, L>], field: &Option<K>) -> Option<u32>
    requires { length sites.now < 2 ^ 32 }
    ensures { IsFieldNumber (λ x y. IsTrue (K.eq x y)) (λ x y. IsTrue (L.eq x y))
        (map (λ s. s.now) sites.now) field.now result }
{
    match field {
        None => None,
        Some(field) => Some(field_number(sites, field)),
    }
}

/// The same site by numbers.
fn numbered_site<K: Eq, L: Eq>(sites: &[&Site<K, L>], site: &Site<K, L>) -> NumberedSite
    requires { length sites.now < 2 ^ 32 }
    ensures { IsNumbered (λ x y. IsTrue (K.eq x y)) (λ x y. IsTrue (L.eq x y))
        (map (λ s. s.now) sites.now) site.now result }
{
    match site {
        Site::Read(local) => Site::Read(local_number(sites, local)),
        Site::Write(local) => Site::Write(local_number(sites, local)),
        Site::Access(kind, field) => Site::Access(*kind, number_of(sites, field)),
        Site::Check => Site::Check,
        Site::Call => Site::Call,
        Site::Loop => Site::Loop,
    }
}

/// The sites of a row, in their order, with numbers for fields and locals: they depend on one
/// another as those do.
pub(crate) fn numbered<K: Eq, L: Eq>(
    alloc: Global,
    sites: &[&Site<K, L>],
) -> Result<Vec<NumberedSite>, AllocError>
    requires { length sites.now < 2 ^ 32 }
    ensures count { IfOk result (λ row. length row.items ≡ length sites.now) }
    ensures depend { IfOk result (λ row. IsRowOf (λ x y. IsTrue (K.eq x y))
        (λ x y. IsTrue (L.eq x y)) (map (λ s. s.now) sites.now) row.items) }
{
    let mut row = Vec::with_capacity(alloc, sites.len())?;
    for n in 0..sites.len() {
        row.push(numbered_site(sites, sites[n]))?;
    }
    Ok(row)
}
