//! Whether two pieces of code may change places.
ghost use Rattle.std.specs.Prelude.{◌^◌, ◌<◌, IsTrue, length};
ghost use Rattle.jr_sync.specs.Crossing.{IsFound, IsFirstBeside, IsFirstPair, IsCrossing};

use crate::relations::related;
use crate::{DepKind, Site};

/// The tests by which two pieces may have to stay in their order, as they are tried.
#[derive(Clone, Copy)]
enum Test {
    /// One site is wild, the other is wild or an access.
    Wild,
    /// Both sites are accesses.
    Accesses,
    /// Both sites are of one local.
    Locals,
}

fn wild_kind<K: Eq, L: Eq>(a: &Site<K, L>, b: &Site<K, L>) -> Option<DepKind>
    ensures { IsFound (λ x y. IsTrue (K.eq x y)) (λ x y. IsTrue (L.eq x y)) Test.Wild
        a.now b.now result }
{
    let is_order = related(DepKind::Order, a, b);
    if is_order {
        return Some(DepKind::Order);
    }
    None
}

fn access_kind<K: Eq, L: Eq>(a: &Site<K, L>, b: &Site<K, L>) -> Option<DepKind>
    ensures { IsFound (λ x y. IsTrue (K.eq x y)) (λ x y. IsTrue (L.eq x y)) Test.Accesses
        a.now b.now result }
{
    let is_field = related(DepKind::Field, a, b);
    if is_field {
        return Some(DepKind::Field);
    }
    let is_sync = related(DepKind::Sync, a, b);
    if is_sync {
        return Some(DepKind::Sync);
    }
    None
}

fn local_kind<K: Eq, L: Eq>(a: &Site<K, L>, b: &Site<K, L>) -> Option<DepKind>
    ensures { IsFound (λ x y. IsTrue (K.eq x y)) (λ x y. IsTrue (L.eq x y)) Test.Locals
        a.now b.now result }
{
    let is_flow = related(DepKind::Flow, a, b);
    if is_flow {
        return Some(DepKind::Flow);
    }
    let is_anti = related(DepKind::Anti, a, b);
    if is_anti {
        return Some(DepKind::Anti);
    }
    let is_output = related(DepKind::Output, a, b);
    if is_output {
        return Some(DepKind::Output);
    }
    None
}

fn found<K: Eq, L: Eq>(test: Test, a: &Site<K, L>, b: &Site<K, L>) -> Option<DepKind>
    ensures { IsFound (λ x y. IsTrue (K.eq x y)) (λ x y. IsTrue (L.eq x y)) test
        a.now b.now result }
{
    match test {
        Test::Wild => wild_kind(a, b),
        Test::Accesses => access_kind(a, b),
        Test::Locals => local_kind(a, b),
    }
}

fn first_beside<K: Eq, L: Eq>(
    test: Test,
    site: &Site<K, L>,
    second: &[Site<K, L>],
) -> Option<(u32, DepKind)>
    requires { length second.now < 2 ^ 32 }
    ensures { IsFirstBeside (λ x y. IsTrue (K.eq x y)) (λ x y. IsTrue (L.eq x y)) test
        site.now second.now result }
{
    for j in 0..second.len() {
        if let Some(kind) = found(test, site, &second[j]) {
            return Some((j as u32, kind));
        }
    }
    None
}

fn first_pair<K: Eq, L: Eq>(
    test: Test,
    first: &[Site<K, L>],
    second: &[Site<K, L>],
) -> Option<(u32, u32, DepKind)>
    requires first { length first.now < 2 ^ 32 }
    requires second { length second.now < 2 ^ 32 }
    ensures { IsFirstPair (λ x y. IsTrue (K.eq x y)) (λ x y. IsTrue (L.eq x y))
        first.now second.now test result }
{
    for i in 0..first.len() {
        if let Some((j, kind)) = first_beside(test, &first[i], second) {
            return Some((i as u32, j, kind));
        }
    }
    None
}

/// Why two pieces of code that stand one behind the other may not change places, by their sites in
/// evaluation order: a site of the first piece and one of the second, by number, and how the latter
/// depends on the former (JLS 17.4).
///
/// Three tests are tried in order, and the first that finds a pair answers with its first pair, by
/// place in `first` and then in `second`: one site is wild (`Check`, `Call`, `Loop`), and the other
/// is wild or an access; both are accesses, of one field and one of them stores, or else of kinds
/// that the grid doesn't allow in this order; both are of one local, and one of them writes. An
/// access of a final field is `Still`, and counts as no store. None exactly where no test finds a
/// pair: then the pieces may change places.
pub fn crossing<K: Eq, L: Eq>(
    first: &[Site<K, L>],
    second: &[Site<K, L>],
) -> Option<(u32, u32, DepKind)>
    requires first { length first.now < 2 ^ 32 }
    requires second { length second.now < 2 ^ 32 }
    ensures { IsCrossing (λ x y. IsTrue (K.eq x y)) (λ x y. IsTrue (L.eq x y))
        first.now second.now result }
{
    if let Some(pair) = first_pair(Test::Wild, first, second) {
        return Some(pair);
    }
    if let Some(pair) = first_pair(Test::Accesses, first, second) {
        return Some(pair);
    }
    first_pair(Test::Locals, first, second)
}
