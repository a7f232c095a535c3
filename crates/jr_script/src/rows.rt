//! One place for each row of the table of steps: the words that are built, and how each row's
//! object is read.

ghost use Rattle.std.specs.Prelude.{◌≡◌, codes, IfOk, IfErr};
ghost use Rattle.serde_json.specs.View.{view};
ghost use Rattle.jr_names.specs.declared.steps.Step.TheVariants.{Undo, Redo};
ghost use Rattle.jr_script.specs.Steps.{Means};
ghost use Rattle.jr_script.specs.StepFaults.{HasWord, IsBad, Tells};

use crate::faults::StepFault;
use crate::members::{
    member_fault, offset_member, only_members, shown_member, str_at, text_member,
};
use jr_names::Step;
use serde_json::Value;
use std::alloc::Global;

// The step that a value is.
pub(crate) fn read_step(alloc: Global, element: &Value) -> Result<Step, StepFault>
    ensures ok { IfOk result (Means (view element.now)) }
    ensures fault { IfErr result (Tells (IsBad (view element.now))) }
{
    match str_at(element, "step") {
        Some(word) => read_row(alloc, element, word),
        None => Err(member_fault(alloc, "step")),
    }
}

// The step whose word stands in the object.
fn read_row(alloc: Global, element: &Value, word: &str) -> Result<Step, StepFault>
    requires { HasWord (view element.now) word.now }
    ensures ok { IfOk result (Means (view element.now)) }
    ensures fault { IfErr result (Tells (IsBad (view element.now))) }
{
    if word == "edit" {
        read_edit(alloc, element)
    } else if word == "rename" {
        read_rename(alloc, element)
    } else if word == "show" {
        read_show(alloc, element)
    } else if word == "undo" {
        read_undo(alloc, element)
    } else if word == "redo" {
        read_redo(alloc, element)
    } else if word == "extract_local" {
        read_extract_local(alloc, element)
    } else {
        Err(member_fault(alloc, "step"))
    }
}

fn read_edit(alloc: Global, element: &Value) -> Result<Step, StepFault>
    requires { HasWord (view element.now) (codes "edit") }
    ensures ok { IfOk result (Means (view element.now)) }
    ensures fault { IfErr result (Tells (IsBad (view element.now))) }
{
    let file = text_member(alloc, element, "file")?;
    let from = offset_member(alloc, element, "from")?;
    let to = offset_member(alloc, element, "to")?;
    let text = text_member(alloc, element, "text")?;
    only_members(alloc, element, &["step", "file", "from", "to", "text"])?;
    Ok(Step::Edit {
        file,
        from,
        to,
        text,
    })
}

fn read_rename(alloc: Global, element: &Value) -> Result<Step, StepFault>
    requires { HasWord (view element.now) (codes "rename") }
    ensures ok { IfOk result (Means (view element.now)) }
    ensures fault { IfErr result (Tells (IsBad (view element.now))) }
{
    let file = text_member(alloc, element, "file")?;
    let at = offset_member(alloc, element, "at")?;
    let name = text_member(alloc, element, "name")?;
    only_members(alloc, element, &["step", "file", "at", "name"])?;
    Ok(Step::Rename { file, at, name })
}

fn read_show(alloc: Global, element: &Value) -> Result<Step, StepFault>
    requires { HasWord (view element.now) (codes "show") }
    ensures ok { IfOk result (Means (view element.now)) }
    ensures fault { IfErr result (Tells (IsBad (view element.now))) }
{
    let file = text_member(alloc, element, "file")?;
    let what = shown_member(alloc, element, "what")?;
    only_members(alloc, element, &["step", "file", "what"])?;
    Ok(Step::Show { file, what })
}

fn read_undo(alloc: Global, element: &Value) -> Result<Step, StepFault>
    requires { HasWord (view element.now) (codes "undo") }
    ensures ok { IfOk result (Means (view element.now)) }
    ensures fault { IfErr result (Tells (IsBad (view element.now))) }
{
    only_members(alloc, element, &["step"])?;
    Ok(Step::Undo)
}

fn read_redo(alloc: Global, element: &Value) -> Result<Step, StepFault>
    requires { HasWord (view element.now) (codes "redo") }
    ensures ok { IfOk result (Means (view element.now)) }
    ensures fault { IfErr result (Tells (IsBad (view element.now))) }
{
    only_members(alloc, element, &["step"])?;
    Ok(Step::Redo)
}

fn read_extract_local(alloc: Global, element: &Value) -> Result<Step, StepFault>
    requires { HasWord (view element.now) (codes "extract_local") }
    ensures ok { IfOk result (Means (view element.now)) }
    ensures fault { IfErr result (Tells (IsBad (view element.now))) }
{
    let file = text_member(alloc, element, "file")?;
    let from = offset_member(alloc, element, "from")?;
    let to = offset_member(alloc, element, "to")?;
    let name = text_member(alloc, element, "name")?;
    only_members(alloc, element, &["step", "file", "from", "to", "name"])?;
    Ok(Step::ExtractLocal {
        file,
        from,
        to,
        name,
    })
}
