//! A member up to its name (JLS 8.3, 8.4, 8.8).
ghost use Rattle.std.specs.Prelude.{◌≡◌, ◌∷◌, ◌++◌, [], true, Some, option_map};
ghost use Rattle.jr_ast.specs.View.{word_of, type_of};
ghost use Rattle.jr_pexpr.specs.Marked.{join};
ghost use Rattle.jr_pexpr.specs.Machine.{marked};
ghost use Rattle.jr_pstmt.specs.CueView.{cue_view};
ghost use Rattle.jr_pstmt.specs.Cues as pure;
ghost use Rattle.jr_pstmt.specs.TypeMachine as types;
ghost use Rattle.jr_pstmt.specs.TypeStateView.{type_state};
ghost use Rattle.jr_punit_members.specs.LeadView.{modifiers_view, lead_view};
ghost use Rattle.jr_punit_members.specs.HeadView.{head_view};
ghost use Rattle.jr_pstmt.specs.OwnMachine as machine;
ghost use Rattle.jr_punit_members.specs.OwnView.{own_state, IsNextOwn};

use crate::heads::{ConstructorHead, Head, MemberHead};
use crate::leads::{Lead, with_modifier};
use crate::own::{OwnState, OwnStepped};
use crate::params::ParamState;
use jr_ast::{Ident, ModWord, Modifier, TypeKind, TypeRef};
use jr_pstmt::{Cue, TypeState, word};
use jr_text::Span;
use std::alloc::Global;

/// One more modifier.
fn modifier(modifiers: Vec<Modifier<Span>>, at: Span, word: ModWord) -> OwnStepped
    ensures { IsNextOwn result (Some (machine.modified
        (modifiers_view modifiers ++ (machine.modifier at word ∷ [])))) }
{
    let modifiers = with_modifier(modifiers, at, word)?;
    Ok(Some(OwnState::Modified(modifiers)))
}

/// The first token of a type.
fn begin_type(alloc: Global, modifiers: Vec<Modifier<Span>>, at: Span, cue: Cue<'_>) -> OwnStepped
    ensures { IsNextOwn result
        (option_map (machine.in_type (machine.lead_of (modifiers_view modifiers) at))
        (types.from_want true at (cue_view cue.entry))) }
{
    match TypeState::begin(alloc, true, at, cue)? {
        Some(ty) => Ok(Some(OwnState::InType(Lead::new(modifiers, at), ty))),
        None => Ok(None),
    }
}

/// A token behind modifiers, if any.
pub fn from_modified(
    alloc: Global,
    modifiers: Vec<Modifier<Span>>,
    at: Span,
    cue: Cue<'_>,
) -> OwnStepped
    ensures { IsNextOwn result
        (machine.from_modified (modifiers_view modifiers) at (cue_view cue.entry)) }
{
    match cue {
        Cue::Modifier(word) => modifier(modifiers, at, word),
        Cue::Void => Ok(Some(OwnState::Voided(Lead::new(modifiers, at)))),
        _ => begin_type(alloc, modifiers, at, cue),
    }
}

/// The name of a field or method; no result is `void`.
fn member_name(
    alloc: Global,
    lead: Lead,
    result_type: Option<TypeRef<Span>>,
    at: Span,
    text: &str,
) -> OwnStepped
    ensures { IsNextOwn result (Some (machine.worded (lead_view lead)
        (option_map type_of result_type) (marked at text.now))) }
{
    match word(alloc, at, text) {
        Ok(name) => {
            let head = MemberHead {
                lead,
                result: result_type,
                name,
            };
            let head = Box::new(alloc, head)?;
            Ok(Some(OwnState::Worded(head)))
        }
        Err(error) => {
            drop(result_type);
            Err(error)
        }
    }
}

/// The parameters are to come.
pub fn begin_params(alloc: Global, head: Head) -> OwnStepped
    ensures { IsNextOwn result (Some (machine.begin_params (head_view head))) }
{
    Ok(Some(OwnState::InParams(head, ParamState::new(alloc))))
}

/// The parameters of a constructor are to come.
fn begin_constructor(alloc: Global, lead: Lead, name: Ident<Span>) -> OwnStepped
    ensures { IsNextOwn result (Some (machine.begin_constructor (lead_view lead) (word_of name))) }
{
    let head = Box::new(alloc, ConstructorHead { lead, name })?;
    begin_params(alloc, Head::Constructor(head))
}

/// The name of a constructor, if the type is the class's own name.
fn own_name(name: &str, ty: TypeRef<Span>) -> Option<Ident<Span>>
    ensures { option_map word_of result ≡ machine.own_name name.now (type_of ty) }
{
    match ty.kind {
        TypeKind::Named(None, own) => {
            if own.name.as_str() == name {
                Some(own)
            } else {
                None
            }
        }
        TypeKind::Named(Some(_), _) => None,
        TypeKind::Int => None,
        TypeKind::Boolean => None,
    }
}

/// An opening parenthesis behind a type.
fn open_type(alloc: Global, name: &str, lead: Lead, ty: TypeRef<Span>) -> OwnStepped
    ensures { IsNextOwn result (option_map (machine.begin_constructor (lead_view lead))
        (machine.own_name name.now (type_of ty))) }
{
    match own_name(name, ty) {
        Some(own) => begin_constructor(alloc, lead, own),
        None => Ok(None),
    }
}

/// An opening parenthesis behind what has been read of a type.
fn open_behind(alloc: Global, name: &str, lead: Lead, ty: TypeState, at: Span) -> OwnStepped
    ensures { IsNextOwn result (machine.from_type join name.now (lead_view lead)
        (type_state ty) at pure.an_open) }
{
    match ty {
        TypeState::Want(_) => Ok(None),
        TypeState::Have(ty) => open_type(alloc, name, lead, ty),
        TypeState::Dotted(_) => Ok(None),
    }
}

/// The type goes on.
fn type_goes_on(alloc: Global, lead: Lead, ty: TypeState, at: Span, cue: Cue<'_>) -> OwnStepped
    ensures { IsNextOwn result (option_map (machine.in_type (lead_view lead))
        (types.cue_step join (type_state ty) at (cue_view cue.entry))) }
{
    match ty.step(alloc, at, cue)? {
        Some(ty) => Ok(Some(OwnState::InType(lead, ty))),
        None => Ok(None),
    }
}

/// A word behind what has been read of a type.
fn word_behind(
    alloc: Global,
    name: &str,
    lead: Lead,
    ty: TypeState,
    at: Span,
    text: &str,
) -> OwnStepped
    ensures { IsNextOwn result (machine.from_type join name.now (lead_view lead)
        (type_state ty) at (pure.a_word text.now)) }
{
    let cue = Cue::Word(text);
    match ty {
        TypeState::Want(primitive) => {
            type_goes_on(alloc, lead, TypeState::Want(primitive), at, cue)
        }
        TypeState::Have(ty) => member_name(alloc, lead, Some(ty), at, text),
        TypeState::Dotted(outer) => type_goes_on(alloc, lead, TypeState::Dotted(outer), at, cue),
    }
}

/// A token behind what has been read of a type, or of the name of a constructor.
pub fn from_type(
    alloc: Global,
    name: &str,
    lead: Lead,
    ty: TypeState,
    at: Span,
    cue: Cue<'_>,
) -> OwnStepped
    ensures { IsNextOwn result (machine.from_type join name.now (lead_view lead)
        (type_state ty) at (cue_view cue.entry)) }
{
    match cue {
        Cue::Word(text) => word_behind(alloc, name, lead, ty, at, text),
        Cue::Open => open_behind(alloc, name, lead, ty, at),
        _ => type_goes_on(alloc, lead, ty, at, cue),
    }
}

/// A token behind `void`.
pub fn from_voided(alloc: Global, lead: Lead, at: Span, cue: Cue<'_>) -> OwnStepped
    ensures { IsNextOwn result (machine.from_voided (lead_view lead) at (cue_view cue.entry)) }
{
    match cue {
        Cue::Word(text) => member_name(alloc, lead, None, at, text),
        _ => Ok(None),
    }
}
