//! Lines, and their order.
ghost use Rattle.std.specs.Prelude.{◌≡◌, ◌+◌, ◌*◌, ◌<◌, OnOk};
ghost use Rattle.jr_lines.specs.Lines as pure;
ghost use Rattle.jr_lines.specs.LineView.{place_of, line_of, lines_of};

use jr_table::{Decl, Rule};
use std::alloc::AllocError;

/// A byte of a file: so many behind the first one of a member.
#[derive(Clone, Copy, Drop)]
pub(crate) struct Byte {
    pub start: u32,
    pub offset: u32,
}

impl Byte {
    /// Its place in the file.
    pub fn place(self) -> u64
        ensures { result ≡ place_of self }
    {
        u64::from(self.start) + u64::from(self.offset)
    }
}

/// What is shown of a place of a file.
#[derive(Clone, Copy, Drop)]
pub(crate) enum Line<'a> {
    /// The reference that begins at this byte, as it is written, and what it is bound to.
    Reference {
        at: Byte,
        name: &'a str,
        decl: &'a Decl,
    },
    /// The rule that is broken there.
    Broken {
        at: Byte,
        rule: Rule,
    },
}

fn number(at: Byte, rank: u64) -> u64
    requires { rank < 32 }
    ensures { result ≡ place_of at * 32 + rank }
{
    at.place() * 32 + rank
}

/// A number by which lines are in order.
fn order(line: &Line<'_>) -> u64
    ensures { result ≡ pure.order_number (line_of line.now) }
{
    match line {
        Line::Reference { at, .. } => number(*at, 0),
        Line::Broken { at, rule } => number(*at, rule.rank()),
    }
}

/// Puts lines in order by place, a reference before what is broken there, each once.
pub(crate) fn in_order(lines: &mut Vec<Line<'_>>) -> Result<(), AllocError>
    requires { pure.AreApart (lines_of lines.old.items) }
    ensures { OnOk result (pure.AreLines (pure.Among (lines_of lines.old.items))
        (lines_of lines.new.items)) }
{
    lines.sort_by_key(order)?;
    lines.dedup_by_key(|line| order(line));
    Ok(())
}
