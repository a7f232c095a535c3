//! How two sites depend on one another, by what they are.
ghost use Rattle.std.specs.Prelude.{◌≡◌, ◌↔◌, IsTrue, is_some};
ghost use Rattle.std.specs.Option.{option_copied};
ghost use Rattle.jr_sync.specs.Sites.{is_wild, is_access, kind_of, field_of, read_of, written_of};
ghost use Rattle.jr_sync.specs.Sites.{is_store};
ghost use Rattle.jr_sync.specs.Relations.{Agree, AreKept, is_ordered, AreInConflict, Related};

use crate::grid::allowed;
use crate::{DepKind, Kind, Site};

fn is_wild<K, L>(site: &Site<K, L>) -> bool
    ensures { result ≡ is_wild site.now }
{
    match site {
        Site::Check | Site::Call | Site::Loop => true,
        Site::Read(_) | Site::Write(_) | Site::Access(_, _) => false,
    }
}

fn is_access<K, L>(site: &Site<K, L>) -> bool
    ensures { result ≡ is_access site.now }
{
    match site {
        Site::Access(_, _) => true,
        Site::Read(_) | Site::Write(_) | Site::Check | Site::Call | Site::Loop => false,
    }
}

fn is_store<K, L>(site: &Site<K, L>) -> bool
    ensures { result ≡ is_store site.now }
{
    match site {
        Site::Access(Kind::Store | Kind::VolatileStore, _) => true,
        Site::Access(Kind::Load | Kind::VolatileLoad, _) => false,
        Site::Access(Kind::Enter | Kind::Exit | Kind::Still, _) => false,
        Site::Read(_) | Site::Write(_) | Site::Check | Site::Call | Site::Loop => false,
    }
}

/// The kind of an access.
fn kind_of<K, L>(site: &Site<K, L>) -> Option<Kind>
    ensures { result ≡ kind_of site.now }
{
    match site {
        Site::Access(kind, _) => Some(*kind),
        Site::Read(_) | Site::Write(_) | Site::Check | Site::Call | Site::Loop => None,
    }
}

fn field_of<K, L>(site: &Site<K, L>) -> Option<&K>
    ensures { option_copied result ≡ field_of site.now }
{
    match site {
        Site::Access(_, Some(field)) => Some(field),
        Site::Access(_, None) => None,
        Site::Read(_) | Site::Write(_) | Site::Check | Site::Call | Site::Loop => None,
    }
}

/// The local that is read.
fn read_of<K, L>(site: &Site<K, L>) -> Option<&L>
    ensures { option_copied result ≡ read_of site.now }
{
    match site {
        Site::Read(local) => Some(local),
        Site::Write(_) | Site::Access(_, _) | Site::Check | Site::Call | Site::Loop => None,
    }
}

/// The local that is written.
fn written_of<K, L>(site: &Site<K, L>) -> Option<&L>
    ensures { option_copied result ≡ written_of site.now }
{
    match site {
        Site::Write(local) => Some(local),
        Site::Read(_) | Site::Access(_, _) | Site::Check | Site::Call | Site::Loop => None,
    }
}

/// Whether the site writes a local.
pub fn is_write<K, L>(site: &Site<K, L>) -> bool
    ensures { result ≡ is_some (written_of site.now) }
{
    match site {
        Site::Write(_) => true,
        Site::Read(_) | Site::Access(_, _) | Site::Check | Site::Call | Site::Loop => false,
    }
}

/// Whether both are there and equal.
fn agree<T: Eq>(one: Option<&T>, other: Option<&T>) -> bool
    ensures { IsTrue result ↔ Agree (λ x y. IsTrue (T.eq x y))
        (option_copied one.entry) (option_copied other.entry) }
{
    match one {
        None => false,
        Some(x) => match other {
            None => false,
            Some(y) => *x == *y,
        },
    }
}

/// Whether both are accesses that the grid keeps in this order.
fn are_kept<K, L>(a: &Site<K, L>, b: &Site<K, L>) -> bool
    ensures { IsTrue result ↔ AreKept a.now b.now }
{
    match kind_of(a) {
        None => false,
        Some(first) => match kind_of(b) {
            None => false,
            Some(second) => !allowed(first, second),
        },
    }
}

/// Whether both are accesses of one field, of which one stores.
fn are_in_conflict<K: Eq, L>(a: &Site<K, L>, b: &Site<K, L>) -> bool
    ensures { IsTrue result ↔ AreInConflict (λ x y. IsTrue (K.eq x y)) a.now b.now }
{
    let of_one_field = agree(field_of(a), field_of(b));
    of_one_field & (is_store(a) | is_store(b))
}

/// Whether one is wild, and the other is wild or an access.
fn are_ordered<K, L>(a: &Site<K, L>, b: &Site<K, L>) -> bool
    ensures { result ≡ is_ordered a.now b.now }
{
    (is_wild(a) & (is_wild(b) | is_access(b))) | (is_access(a) & is_wild(b))
}

/// Whether a site depends in this way on one that comes before it, as far as the two tell. Whether
/// control comes from the one to the other is not asked.
pub fn related<K: Eq, L: Eq>(kind: DepKind, before: &Site<K, L>, behind: &Site<K, L>) -> bool
    ensures { IsTrue result ↔ Related (λ x y. IsTrue (K.eq x y)) (λ x y. IsTrue (L.eq x y)) kind
        before.now behind.now }
{
    match kind {
        DepKind::Order => are_ordered(before, behind),
        DepKind::Field => are_in_conflict(before, behind),
        DepKind::Sync => are_kept(before, behind),
        DepKind::Flow => agree(written_of(before), read_of(behind)),
        DepKind::Anti => agree(read_of(before), written_of(behind)),
        DepKind::Output => agree(written_of(before), written_of(behind)),
    }
}
