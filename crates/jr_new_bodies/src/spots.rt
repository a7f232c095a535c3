//! Spots: expressions that a refactoring rewrites in its own way, and what comes there.
ghost use Rattle.std.specs.Prelude.{◌≡◌, option_map, map};
ghost use Rattle.jr_new_bodies.specs.Spotting as pure;
ghost use Rattle.jr_new_bodies.specs.SpotView.{part_of, spotting_of};

use jr_text::Span;

/// What comes in place of an expression. Bytes are those of the file.
#[derive(Clone, Copy, Drop)]
pub struct PartSpot<'a> {
    /// The bytes of the expression.
    pub at: Span,
    /// How tightly what comes there binds (JLS 15).
    pub level: u32,
    /// What is put there, and what is put there where the node around asks for more.
    pub bare: &'a str,
    pub grouped: &'a str,
    /// How many of its references are respelled.
    pub respelled: u64,
}

/// The spots of a walk.
#[derive(Clone, Copy, Drop)]
pub enum Spots<'a> {
    Nowhere,
    /// The first of those that have an expression's bytes is its spot.
    Parts(&'a [PartSpot<'a>]),
}

/// Whether they are the same bytes.
fn same_span(one: Span, other: Span) -> bool
    ensures { result ≡ pure.same_span one other }
{
    one.from == other.from && one.to == other.to
}

fn find_part<'a>(parts: &'a [PartSpot<'a>], at: Span) -> Option<&'a PartSpot<'a>>
    ensures { option_map (λ p. part_of p.now) result ≡ pure.find_part at (map part_of parts.now) }
{
    for part in parts {
        if same_span(part.at, at) {
            return Some(part);
        }
    }
    None
}

/// The spot that an expression of these bytes is, if it is one.
pub(crate) fn part_at<'a>(spots: &Spots<'a>, at: Span) -> Option<&'a PartSpot<'a>>
    ensures { option_map (λ p. part_of p.now) result
        ≡ pure.part_at at (spotting_of spots.now) }
{
    match *spots {
        Spots::Nowhere => None,
        Spots::Parts(parts) => find_part(parts, at),
    }
}

/// What is put there, where so much is asked.
pub(crate) fn text_of<'a>(part: &PartSpot<'a>, least: u32) -> &'a str
    ensures { result.now ≡ pure.text_of (part_of part.now) least }
{
    if least <= part.level {
        part.bare
    } else {
        part.grouped
    }
}
