//! The members of an object, one by one.

ghost use Rattle.std.specs.Prelude.{◌≡◌, ◌↔◌, map, Some, IfOk, IfErr, OnOk, IsTrue, Contains};
ghost use Rattle.std.specs.Prelude.{option_and_then, option_map};
ghost use Rattle.serde_json.specs.Data.{object, string};
ghost use Rattle.serde_json.specs.Find.{get, as_number, as_str, as_u64};
ghost use Rattle.serde_json.specs.View.{view, members_view};
ghost use Rattle.jr_script.specs.Rows.{column, text, offset, shown};
ghost use Rattle.jr_script.specs.Steps.{HasCell, HasOnly, text_at, offset_at, shown_at};
ghost use Rattle.jr_script.specs.StepFaults.{Tells, IsMissing, IsFirstSurplus};

use crate::faults::StepFault;
use jr_ast::Name;
use jr_names::What;
use serde_json::{Map, Value};
use std::alloc::Global;

// The fault that tells the member.
pub(crate) fn member_fault(alloc: Global, name: &str) -> StepFault
    ensures { Tells (λ told. told ≡ name.now) result }
{
    match Name::new(alloc, name) {
        Ok(name) => StepFault::Member(name),
        Err(_) => StepFault::Memory,
    }
}

// The string at the name.
pub(crate) fn str_at<'v>(element: &'v Value, name: &str) -> Option<&'v str>
    ensures { option_map (λ s. s.now) result
        ≡ option_and_then as_str (get name.now (view element.now)) }
{
    match element.get(name) {
        Some(value) => value.as_str(),
        None => None,
    }
}

// A member that takes any string.
pub(crate) fn text_member(alloc: Global, element: &Value, name: &str) -> Result<Name, StepFault>
    ensures ok { IfOk result (λ s. HasCell (view element.now) (text_at name.now s)) }
    ensures fault { IfErr result (Tells (IsMissing (view element.now) (column name.now text))) }
{
    match str_at(element, name) {
        Some(text) => Ok(Name::new(alloc, text)?),
        None => Err(member_fault(alloc, name)),
    }
}

// A member that takes an offset.
pub(crate) fn offset_member(alloc: Global, element: &Value, name: &str) -> Result<u32, StepFault>
    ensures ok { IfOk result (λ n. HasCell (view element.now) (offset_at name.now n)) }
    ensures fault { IfErr result (Tells (IsMissing (view element.now) (column name.now offset))) }
{
    match u64_at(element, name) {
        Some(offset) if offset <= u64::from(u32::MAX) => Ok(offset as u32),
        _ => Err(member_fault(alloc, name)),
    }
}

// The number at the name, where it is whole and not negative.
fn u64_at(element: &Value, name: &str) -> Option<u64>
    ensures { result ≡ option_and_then as_u64 (option_and_then as_number
        (get name.now (view element.now))) }
{
    element.get(name).and_then(Value::as_u64)
}

// A member that takes what is to be shown.
pub(crate) fn shown_member(alloc: Global, element: &Value, name: &str) -> Result<What, StepFault>
    ensures ok { IfOk result (λ what. HasCell (view element.now) (shown_at name.now what)) }
    ensures fault { IfErr result (Tells (IsMissing (view element.now) (column name.now shown))) }
{
    match str_at(element, name) {
        Some(word) => shown_word(alloc, element, name, word),
        None => Err(member_fault(alloc, name)),
    }
}

// The same, by the word that stands there.
fn shown_word(alloc: Global, element: &Value, name: &str, word: &str) -> Result<What, StepFault>
    requires { get name.now (view element.now) ≡ Some (string word.now) }
    ensures ok { IfOk result (λ what. HasCell (view element.now) (shown_at name.now what)) }
    ensures fault { IfErr result (Tells (IsMissing (view element.now) (column name.now shown))) }
{
    if word == "bindings" {
        Ok(What::Bindings)
    } else if word == "dependences" {
        Ok(What::Dependences)
    } else {
        Err(member_fault(alloc, name))
    }
}

// That the object has no member of another name. Else the least name of one is told.
pub(crate) fn only_members(alloc: Global, element: &Value, names: &[&str]) -> Result<(), StepFault>
    ensures ok { OnOk result (HasOnly (view element.now) (map (λ n. n.now) names.now)) }
    ensures fault { IfErr result
        (Tells (IsFirstSurplus (view element.now) (map (λ n. n.now) names.now))) }
{
    match element.as_object() {
        Some(members) => only_names(alloc, members, names),
        None => Ok(()),
    }
}

fn only_names(alloc: Global, members: &Map<String, Value>, names: &[&str]) -> Result<(), StepFault>
    ensures ok { OnOk result (HasOnly (object (members_view members.now.entries))
        (map (λ n. n.now) names.now)) }
    ensures fault { IfErr result (Tells (IsFirstSurplus (object (members_view members.now.entries))
        (map (λ n. n.now) names.now))) }
{
    for (name, _value) in members.iter() {
        if !is_among(name.as_str(), names) {
            return Err(member_fault(alloc, name.as_str()));
        }
    }
    Ok(())
}

fn is_among(name: &str, names: &[&str]) -> bool
    ensures { IsTrue result ↔ Contains (map (λ n. n.now) names.now) name.now }
{
    for other in names {
        if *other == name {
            return true;
        }
    }
    false
}
