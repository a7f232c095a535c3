//! The lines of one member, by its graph.
ghost use Rattle.std.specs.Prelude.{◌≡◌, ◌<◌, ◌+◌, ◌∷◌, [], List, All, false, length, map, decimal};
ghost use Rattle.std.specs.Prelude.{IfOk, IfSome, OnOk, string_bytes};
ghost use Rattle.jr_dependences.specs.declared.dependence.Dependence as pure;
ghost use Rattle.jr_lines.specs.Lines.{bytes_of};
ghost use Rattle.jr_dependence_lines.specs.Tallies.{AreAll, Puts, PutsAll, PutsGraph, all_told};
ghost use Rattle.jr_dependence_lines.specs.Tallies.{place_texts, told};

use crate::tallies::{Tally, Words, count, put};
use jr_ast::Name;
use jr_dependences::{Dependence, kind_name, weight_of};
use jr_effect::{bare, dependences};
use jr_sites::{PlacedSite, SiteGraph};
use std::alloc::{AllocError, Global};

/// The text of a member, and the places of its sites as texts.
#[derive(Clone, Copy, Drop)]
pub(crate) struct Texts<'a> {
    pub head: &'a str,
    pub places: &'a [Name],
}

fn place_string(alloc: Global, start: u32, site: &PlacedSite) -> Result<String, AllocError>
    ensures { IfOk result (λ text. string_bytes text ≡ decimal (start + site.now.at)) }
{
    let at = u64::from(start) + u64::from(site.at);
    format!(in alloc; "{at}")
}

fn place_name(alloc: Global, start: u32, site: &PlacedSite) -> Result<Name, AllocError>
    ensures { IfOk result (λ name. name ≡ decimal (start + site.now.at)) }
{
    let text = place_string(alloc, start, site)?;
    Name::new(alloc, text.as_str())
}

// The places of the sites of a member that begins at a byte, from the file's first byte.
fn place_names(alloc: Global, start: u32, sites: &[PlacedSite]) -> Result<Vec<Name>, AllocError>
    ensures { IfOk result (λ v. v.items ≡ place_texts start sites.now) }
{
    let mut names = Vec::new(alloc);
    for site in sites {
        let name = place_name(alloc, start, site)?;
        names.push(name)?;
    }
    Ok(names)
}

// How many bytes each of the texts has.
fn lens_of(alloc: Global, texts: &[Name]) -> Result<Vec<u64>, AllocError>
    ensures { IfOk result (λ lens. lens.items ≡ map length texts.now) }
{
    let mut lens = Vec::with_capacity(alloc, texts.len())?;
    for text in texts {
        lens.push(text.as_str().len() as u64)?;
    }
    Ok(lens)
}

// Puts the line of a dependence.
fn put_line(
    alloc: Global,
    texts: &Texts<'_>,
    dependence: &Dependence,
    tally: &mut Tally,
) -> Result<(), AllocError>
    requires first { dependence.now.first < length texts.now.places.now }
    requires second { dependence.now.second < length texts.now.places.now }
    ensures { OnOk result (Puts tally.old tally.new (told texts.now.head.now texts.now.places.now
        dependence.now ∷ [])) }
{
    let words = Words {
        head: texts.head,
        kind: kind_name(dependence.kind),
        first: texts.places[dependence.first as usize].as_str(),
        second: texts.places[dependence.second as usize].as_str(),
    };
    put(alloc, tally, &words)
}

// Puts the lines of dependences, in their order.
fn put_lines(
    alloc: Global,
    texts: &Texts<'_>,
    list: &[Dependence],
    tally: &mut Tally,
) -> Result<(), AllocError>
    requires { All (λ d. (d.first < length texts.now.places.now)
        × (d.second < length texts.now.places.now)) list.now }
    ensures { OnOk result (Puts tally.old tally.new (all_told texts.now.head.now
        texts.now.places.now list.now)) }
{
    for dependence in list {
        put_line(alloc, texts, dependence, tally)?;
    }
    Ok(())
}

// How many bytes each line has without the texts of its kind and its places.
fn front_len(head: &str) -> Option<u64>
    ensures { IfSome result (λ n. n ≡ length head.now + 3) }
{
    (head.len() as u64).checked_add(3)
}

// What all lines of a graph weigh.
fn bytes_of_lines(alloc: Global, of: &SiteGraph, texts: &Texts<'_>) -> Result<u64, AllocError>
    requires { length texts.now.places.now ≡ length of.now.sites.items }
    ensures { IfOk result (λ n. (list : List pure.Dependence) × AreAll of.now list
        × (n ≡ bytes_of (all_told texts.now.head.now texts.now.places.now list))) }
{
    let Some(each) = front_len(texts.head) else {
        return Err(AllocError);
    };
    let lens = lens_of(alloc, texts.places)?;
    let sites = bare(alloc, of.graph.size, &of.sites)?;
    weight_of(alloc, &of.graph, &sites, each, lens.as_slice())
}

// Counts the lines of the dependences between the sites of a graph.
fn count_dependences(
    alloc: Global,
    of: &SiteGraph,
    texts: &Texts<'_>,
    tally: &mut Tally,
) -> Result<(), AllocError>
    requires places { length texts.now.places.now ≡ length of.now.sites.items }
    requires counts { tally.old.keeps ≡ false }
    ensures { OnOk result (PutsAll of.now texts.now tally.old tally.new) }
{
    let bytes = bytes_of_lines(alloc, of, texts)?;
    count(tally, bytes)
}

// Puts these lines, in order: by the first site, the second and the kind.
fn put_dependences(
    alloc: Global,
    of: &SiteGraph,
    texts: &Texts<'_>,
    tally: &mut Tally,
) -> Result<(), AllocError>
    requires { length texts.now.places.now ≡ length of.now.sites.items }
    ensures { OnOk result (PutsAll of.now texts.now tally.old tally.new) }
{
    let list = dependences(alloc, of)?;
    put_lines(alloc, texts, &list, tally)
}

// Puts them, or counts them alone.
fn tell_dependences(
    alloc: Global,
    of: &SiteGraph,
    texts: &Texts<'_>,
    tally: &mut Tally,
) -> Result<(), AllocError>
    requires { length texts.now.places.now ≡ length of.now.sites.items }
    ensures { OnOk result (PutsAll of.now texts.now tally.old tally.new) }
{
    if tally.keeps {
        put_dependences(alloc, of, texts, tally)
    } else {
        count_dependences(alloc, of, texts, tally)
    }
}

/// The lines of a graph of a member that begins at a byte and is told by a text.
pub(crate) fn put_graph(
    alloc: Global,
    head: &str,
    start: u32,
    of: &SiteGraph,
    tally: &mut Tally,
) -> Result<(), AllocError>
    ensures { OnOk result (PutsGraph head.now start of.now tally.old tally.new) }
{
    let names = place_names(alloc, start, &of.sites)?;
    let places = names.as_slice();
    let texts = Texts { head, places };
    tell_dependences(alloc, of, &texts, tally)
}
