//! A step that renames: the file is found by its name.
ghost use Rattle.std.specs.Prelude.{ℕ, ◌<◌, ◌↔◌, IsTrue, IfOk, length};
ghost use Rattle.jr_lex.specs.Replacing.{IsName};
ghost use Rattle.jr_names.specs.ReplyView.{outcome_of};
ghost use Rattle.jr_rename.specs.Plans.{Plans};
ghost use Rattle.jr_rename.specs.Steps.{HasName, IsFileOf, IsRename, PlansStep};

use crate::afters::{After, forget};
use crate::plans::plan_at;
use jr_ast::Name;
use jr_bind::View;
use jr_names::{Outcome, Step};
use jr_text::Span;
use std::alloc::{AllocError, Global};

/// Whether the file of a number has the name.
fn has_name<V: View<Span>>(view: &V, number: u32, name: &Name) -> bool
    requires { number < length (V.program view.now).files }
    ensures { IsTrue result ↔ HasName (V.program view.now) name.now number }
{
    view.name(number) == name.as_str()
}

/// The number of the first file that has the name.
fn file_of<V: View<Span>>(view: &V, name: &Name) -> u32
    requires { (number : ℕ) × HasName (V.program view.now) name.now number }
    ensures { IsFileOf (V.program view.now) name.now result }
{
    for number in 0..view.file_count() {
        if has_name(view, number, name) {
            return number;
        }
    }
    unreachable!()
}

/// What a rename at a byte of the file of a name does.
fn plan_in<V: View<Span>>(
    alloc: Global,
    view: &V,
    file: &Name,
    at: u32,
    new: &Name,
) -> Result<Outcome, AllocError>
    requires file { (number : ℕ) × HasName (V.program view.now) file.now number }
    requires name { IsName new.now }
    ensures { IfOk result (λ o. (number : ℕ) × IsFileOf (V.program view.now) file.now number
        × Plans (V.program view.now) number at new.now (outcome_of o)) }
{
    let number = file_of(view, file);
    let mut after = After::Unknown;
    let outcome = plan_at(alloc, view, number, at, new, &mut after);
    forget(after);
    outcome
}

/// What a step that renames does, to the first file of its name: as [`plan_at`]. The file is there,
/// and the new name is an identifier (JLS 3.8).
pub fn plan<V: View<Span>>(alloc: Global, view: &V, step: &Step) -> Result<Outcome, AllocError>
    requires { IsRename (V.program view.now) step.now }
    ensures { IfOk result (λ o. PlansStep (V.program view.now) step.now (outcome_of o)) }
{
    match step {
        Step::Rename { file, at, name } => plan_in(alloc, view, file, *at, name),
        Step::Edit { .. } => unreachable!(),
        Step::ExtractLocal { .. } => unreachable!(),
        Step::ExtractMethod { .. } => unreachable!(),
        Step::InlineLocal { .. } => unreachable!(),
        Step::InlineMethod { .. } => unreachable!(),
        Step::PullUp { .. } => unreachable!(),
        Step::MoveStatic { .. } => unreachable!(),
        Step::MoveInstance { .. } => unreachable!(),
        Step::Show { .. } => unreachable!(),
        Step::Undo => unreachable!(),
        Step::Redo => unreachable!(),
    }
}
