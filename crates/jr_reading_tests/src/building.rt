//! Programs from their texts.
ghost use Rattle.std.specs.Prelude.{◌≡◌, length, map};
ghost use Rattle.jr_ast.specs.View.{unit_of};
ghost use Rattle.jr_build_rows.specs.Heads.{ClassesHeads, UnitsHeads};

use jr_ast::Unit;
use jr_build::{BuildFault, build};
use jr_lex::{lex, measure};
use jr_punit::parse_unit;
use jr_table::Table;
use jr_text::{Span, Text};
use std::alloc::Global;
use std::process::Abort;

/// The unit that a text is.
fn unit_in(rt: &impl Abort, alloc: Global, text: &str) -> Unit<Span>
    ensures { ClassesHeads (unit_of result).classes }
{
    let text = Text::new(alloc, text.as_bytes()).expect(rt, "a text");
    let items = lex(alloc, &text).expect(rt, "items");
    measure(&items).expect(rt, "tokens within the limits");
    parse_unit(alloc, &text, &items).expect(rt, "a unit")
}

/// The units of files, whose texts `@` parts.
fn units_in(rt: &impl Abort, alloc: Global, texts: &str) -> Vec<Unit<Span>>
    ensures { UnitsHeads (map unit_of result.items) }
{
    let mut units = Vec::new(alloc);
    for text in texts.split('@') {
        units.push(unit_in(rt, alloc, text)).expect(rt, "memory");
    }
    units
}

/// Where the word `package` of each unit stands: at its beginning.
fn words_of(rt: &impl Abort, alloc: Global, units: &[Unit<Span>]) -> Vec<u32>
    ensures { length result.items ≡ length units.now }
{
    vec![in alloc; 0; units.len()].expect(rt, "memory")
}

/// The table of the program whose files have these texts, which `@` parts, or its first fault,
/// where this table is known already.
pub(crate) fn build_beside(
    rt: &impl Abort,
    alloc: Global,
    texts: &str,
    known: &mut Option<Table>,
) -> Result<Table, BuildFault> {
    let units = units_in(rt, alloc, texts);
    let words = words_of(rt, alloc, &units);
    assert!(rt; units.len() < 1000);
    build(alloc, &units, &words, known)
}

/// The table of the program whose files have these texts, which `@` parts, or its first fault.
pub(crate) fn build_texts(
    rt: &impl Abort,
    alloc: Global,
    texts: &str,
) -> Result<Table, BuildFault> {
    let mut known = None;
    build_beside(rt, alloc, texts, &mut known)
}

/// The table of a program without faults.
pub(crate) fn table_of(rt: &impl Abort, alloc: Global, texts: &str) -> Table {
    build_texts(rt, alloc, texts).expect(rt, "a program without faults")
}
