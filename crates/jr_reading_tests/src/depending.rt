//! Sites of pieces of code: whether two pieces may change places, and which sites of one depend on
//! which. A site is told by what is done and, behind a dot, the number of its local or field.
ghost use Rattle.std.specs.Prelude.{◌≡◌, length};

use crate::flow::graph_of;
use crate::grid::kind_of;
use crate::rows::{cut_at, number};
use jr_dependences::{Dependence, dependences_of};
use jr_flow::Graph;
use jr_sync::{Site, crossing};
use std::alloc::Global;
use std::process::Abort;

/// The sites of two pieces, the one in front of the other; why they may not change places, with the
/// numbers of the two sites.
pub(crate) const PAIRS: &'static str = "
~# What runs may not tell apart: plain accesses of two fields, two loads of one, reads of a local.
~cross Load.1 / Store.2 => none
~cross Load.1 / Load.1 => none
~cross Read.1 / Read.1 => none
~cross Write.1 Store.2 / Read.2 Load.1 => none
~# The grid has a direction. What is final stays, and is no store.
~cross VolatileLoad.1 / Load.2 => Sync 0 0
~cross Load.2 / VolatileLoad.1 => none
~cross Store.2 / VolatileStore.1 => Sync 0 0
~cross VolatileStore.1 / Store.2 => none
~cross Enter / Store.1 => Sync 0 0
~cross Store.1 / Enter => none
~cross Store.1 / Exit => Sync 0 0
~cross Exit / Store.1 => none
~cross Still.1 / Load.2 => Sync 0 0
~cross Still.1 / Still.1 => Sync 0 0
~# One field, of which one access stores, is told before the grid.
~cross Load.1 / Store.1 => Field 0 0
~cross VolatileStore.1 / VolatileStore.1 => Field 0 0
~cross Store.1 / Load.1 => Field 0 0
~# What may throw, call or loop stays beside such, and beside accesses, but not beside locals.
~cross Check / Call => Order 0 0
~cross Loop / Load.1 => Order 0 0
~cross Enter / Check => Order 0 0
~cross Check / Write.1 => none
~cross Read.1 / Call => none
~# One local, of which one writes, whatever stands between.
~cross Write.1 / Read.1 => Flow 0 0
~cross Read.1 / Write.1 => Anti 0 0
~cross Write.1 / Write.1 => Output 0 0
~cross Write.1 Write.1 / Read.1 => Flow 0 0
~# Tests come one behind the other; of a test's pairs that of the first site in the first piece.
~cross Store.1 Check / Store.1 Load.2 => Order 1 0
~cross Write.1 Store.2 / Read.1 Store.2 => Field 1 1
~cross VolatileLoad.1 Store.2 / Store.3 Load.2 => Sync 0 0
~cross Load.1 Check / Load.2 Check => Order 0 1
~cross Read.1 Store.2 / Load.3 VolatileStore.4 => Sync 1 1
~cross Read.1 Write.2 / Write.2 Write.1 => Anti 0 1
";

/// Sites and edges between them; the dependences, by the first site, the second and the kind.
pub(crate) const LISTS: &'static str = "
~# Along edges alone, from a site to itself too.
~depend Write.0 Read.0 in 0-1 => Flow 0 1
~depend Write.0 Read.0 in 1-0 => Anti 1 0
~depend Store.1 in 0-0 => Field 0 0
~depend Store.1 Store.1 in 0-0 => Field 0 0
~depend Loop Load.1 in 0-1 1-0 0-1 => Order 0 0;Order 0 1;Order 1 0
~# What flows stops at a write of the local, and at no other; the rest doesn't stop.
~depend Write.0 Write.0 Read.0 in 0-1 1-2 => Output 0 1;Flow 1 2
~depend Write.0 Write.0 Read.0 in 0-1 0-2 1-2 => Output 0 1;Flow 0 2;Flow 1 2
~depend Write.0 Write.1 Read.0 in 0-1 1-2 => Flow 0 2
~depend Read.0 Write.0 Write.0 in 0-1 1-2 => Anti 0 1;Anti 0 2;Output 1 2
~depend Write.0 Read.0 in 0-1 1-0 => Output 0 0;Flow 0 1;Anti 1 0
~# A pair has each kind that there is.
~depend VolatileStore.1 VolatileStore.1 in 0-1 => Field 0 1;Sync 0 1
~depend Still.1 Still.1 in 0-1 => Sync 0 1
~depend Enter Load.1 Exit in 0-1 1-2 => Sync 0 1;Sync 0 2;Sync 1 2
~depend Exit Load.1 Enter in 0-1 1-2 => Sync 0 2
~depend Check Read.0 Call in 0-1 1-2 => Order 0 2
~depend Check Store.1 Store.1 in 0-1 1-2 2-1 => \
    Order 0 1;Order 0 2;Field 1 1;Field 1 2;Field 2 1;Field 2 2
";

/// A local's or a field's number, if there is one.
fn number_of(rt: &impl Abort, text: &str) -> Option<u32> {
    if text == "" {
        return None;
    }
    Some(number(rt, text))
}

fn site_of(rt: &impl Abort, word: &str) -> Site<u32, u32> {
    let (done, of) = cut_at(word, ".");
    match done {
        "Read" => Site::Read(number(rt, of)),
        "Write" => Site::Write(number(rt, of)),
        "Check" => Site::Check,
        "Call" => Site::Call,
        "Loop" => Site::Loop,
        kind => Site::Access(kind_of(kind), number_of(rt, of)),
    }
}

/// The sites, each a word.
fn sites(rt: &impl Abort, alloc: Global, text: &str) -> Vec<Site<u32, u32>> {
    let mut all = Vec::new(alloc);
    for word in text.split_whitespace() {
        all.push(site_of(rt, word)).expect(rt, "memory");
    }
    all
}

/// Why two pieces may not change places.
pub(crate) fn cross(rt: &impl Abort, alloc: Global, text: &str) -> String {
    let (first, second) = cut_at(text, " / ");
    let first = sites(rt, alloc, first);
    let second = sites(rt, alloc, second);
    assert!(rt; first.len() < 1000);
    assert!(rt; second.len() < 1000);
    match crossing(first.as_slice(), second.as_slice()) {
        None => format!(in alloc; "none").expect(rt, "memory"),
        Some((i, j, kind)) => format!(in alloc; "{kind:?} {i} {j}").expect(rt, "memory"),
    }
}

/// The dependences between sites.
fn listed(
    rt: &impl Abort,
    alloc: Global,
    graph: &Graph,
    sites: &[Site<u32, u32>],
) -> Vec<Dependence> {
    let mut row = Vec::new(alloc);
    for site in sites {
        row.push(site).expect(rt, "memory");
    }
    assert!(rt; row.len() < 1000);
    dependences_of(alloc, graph, row.as_slice()).expect(rt, "memory")
}

/// How many sites there are.
fn count(rt: &impl Abort, sites: &[Site<u32, u32>]) -> u32 {
    let mut count = 0u32;
    for _ in sites {
        count = count.wrapping_add(1);
    }
    assert!(rt; count < 1000);
    count
}

pub(crate) fn depend(rt: &impl Abort, alloc: Global, text: &str) -> String {
    let (named, edges) = cut_at(text, " in ");
    let sites = sites(rt, alloc, named);
    let graph = graph_of(rt, alloc, count(rt, sites.as_slice()), edges);
    let mut told = String::new(alloc);
    for found in &listed(rt, alloc, &graph, sites.as_slice()) {
        let kind = found.kind;
        let (first, second) = (found.first, found.second);
        let mark = if told.is_empty() { "" } else { ";" };
        write!(told, "{mark}{kind:?} {first} {second}").expect(rt, "memory");
    }
    told
}
