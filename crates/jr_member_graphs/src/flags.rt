//! Flags of locals, from what was gathered.
ghost use Rattle.std.specs.Prelude.{◌≡◌, ◌∷◌, [], IfOk, List, Some, map};
ghost use Rattle.jr_ast.specs.Tree as tree;
ghost use Rattle.jr_ast.specs.View.{expr_of};
ghost use Rattle.jr_bind_expr.specs.Fits.{FitsExp};
ghost use Rattle.jr_cover.specs.Spots.{Spot};
ghost use Rattle.jr_never_null.specs.Flags as pure;
ghost use Rattle.jr_table.specs.Decls as decls;
ghost use Rattle.jr_expr_sites.specs.KnownFacts.{known_of};
ghost use Rattle.jr_expr_sites.specs.Routes.{begins_by};
ghost use Rattle.jr_expr_sites.specs.Steps.{sites_in};
ghost use Rattle.jr_expr_sites.specs.StepView.{given, step_of, what_of};
ghost use Rattle.jr_member_graphs.specs.FlagRows.{
  AllFit,
  AreSpotted,
  IsSpotted,
  MarksLocals,
  MarksMore,
  behind_nones,
  listed,
  marked,
};
ghost use Rattle.jr_member_graphs.specs.NotesView.{begin_of, noted, with_written, written};
ghost use Rattle.jr_member_graphs.specs.OwnFlags.{no_others};

use crate::gather::Begin;
use jr_expr_sites::{Here, Step, What, is_never_null};
use jr_table::Facts;
use jr_text::Mark;
use std::alloc::{AllocError, Global};

fn written_by(what: &What<'_>) -> Option<u32>
    ensures { with_written (what_of what.now) [] ≡ listed result }
{
    match what {
        What::Writes(number) => Some(*number),
        What::Reads(_) => None,
        What::Loads(_) => None,
        What::Stores(_) => None,
        What::Enters => None,
        What::Exits => None,
        What::Creates => None,
        What::Checks => None,
        What::Calls => None,
        What::Loops => None,
    }
}

/// The local that is written at a step, if one is.
fn written_at(step: &Step<'_>) -> Option<u32>
    ensures { (key : decls.MemberKey)
        → written (sites_in (step_of key step.now ∷ [])) ≡ listed result }
{
    match step {
        Step::Site(site) => written_by(&site.what),
        Step::Opens(site) => written_by(&site.what),
        Step::Closes(site) => written_by(&site.what),
        Step::Pass => None,
        Step::Row => None,
        Step::Fork => None,
        Step::Leave => None,
        Step::Turns => None,
    }
}

fn mark_one(number: usize, marks: &mut Vec<bool>)
    ensures { MarksMore (number ∷ []) marks.old.items marks.new.items }
{
    if number >= marks.len() {
        return;
    }
    marks[number] = true;
}

/// Marks the local of the number, if there is one.
fn mark(number: Option<u32>, marks: &mut Vec<bool>)
    ensures { MarksMore (listed number) marks.old.items marks.new.items }
{
    match number {
        None => {}
        Some(number) => mark_one(number as usize, marks),
    }
}

/// Which of `count` locals are written at steps.
pub(crate) fn written_locals(
    alloc: Global,
    count: usize,
    steps: &[Step<'_>],
) -> Result<Vec<bool>, AllocError>
    ensures { (key : decls.MemberKey)
        → IfOk result (λ v. MarksLocals (noted key steps.now) count v.items) }
{
    let mut marks = vec![in alloc; false; count]?;
    for step in steps {
        mark(written_at(step), &mut marks);
    }
    Ok(marks)
}

/// Whether the local of a number is marked.
fn is_marked(marks: &[bool], number: usize) -> bool
    ensures { result ≡ marked marks.now number }
{
    match marks.get(number) {
        None => false,
        Some(mark) => *mark,
    }
}

/// Whether a local is never null whose number is that of the flags in `here`, by those flags.
fn next_flag<F: Facts, A: Mark>(here: &Here<'_, F>, is_assigned: bool, begin: &Begin<'_, A>) -> bool
    requires fits { FitsExp (begins_by A.span_from) A.fits_at begin.now.base
        (expr_of begin.now.of.now) }
    ensures { (e : tree.Exp Spot) → IsSpotted A.span_from (begin_of begin.now) e
        → result ≡ pure.next_flag (known_of (given F.decls F.types here.now) no_others).facts
        (λ _. is_assigned) here.now.never_null.now (Some e) }
{
    if is_assigned {
        return false;
    }
    is_never_null(here, begin.base, begin.of)
}

/// Which of the locals are never null, behind so many parameters; `marks` are those that are
/// assigned.
pub(crate) fn local_flags<F: Facts, A: Mark>(
    alloc: Global,
    here: &Here<'_, F>,
    params: usize,
    begins: &[Begin<'_, A>],
    marks: &[bool],
) -> Result<Vec<bool>, AllocError>
    requires fits { AllFit A.span_from A.fits_at (map begin_of begins.now) }
    ensures { (es : List (tree.Exp Spot)) → AreSpotted A.span_from (map begin_of begins.now) es
        → IfOk result (λ flags. flags.items ≡ pure.flags_behind
        (known_of (given F.decls F.types here.now) no_others).facts (marked marks.now) []
        (behind_nones params es)) }
{
    let mut flags = vec![in alloc; false; params]?;
    for begin in begins {
        let is_assigned = is_marked(marks, flags.len());
        let front = Here {
            table: here.table,
            facts: here.facts,
            member: here.member,
            start: here.start,
            never_null: &flags,
        };
        let next = next_flag(&front, is_assigned, begin);
        flags.push(next)?;
    }
    Ok(flags)
}
