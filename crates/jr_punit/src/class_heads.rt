//! How far a class has been read in front of its members (JLS 8.1), whatever reads these.
ghost use Rattle.std.specs.Prelude.{Some, option_map};
ghost use Rattle.jr_ast.specs.View.{word_of, type_of};
ghost use Rattle.jr_pexpr.specs.Marked.{join};
ghost use Rattle.jr_pexpr.specs.TokenView.{token_view};
ghost use Rattle.jr_pstmt.specs.CueView.{cue_view};
ghost use Rattle.jr_punit_members.specs.LeadView.{modifiers_view, lead_view};
ghost use Rattle.jr_pstmt.specs.TypeStateView.{type_state};
ghost use Rattle.jr_ast.specs.MemberTree as tree;
ghost use Rattle.jr_pstmt.specs.TypeMachine as T;
ghost use Rattle.jr_pstmt.specs.OwnMachine as Own;
ghost use Rattle.jr_punit_laws.specs.ClassMachine as machine;
ghost use Rattle.jr_punit_laws.specs.MemberMachine as Members;
ghost use Rattle.jr_punit_laws.specs.UnitMachine as Units;
ghost use Rattle.jr_punit.specs.ClassView.{class_start, IsBegun, inner_named, top_named};
ghost use Rattle.jr_punit.specs.ClassView.{inner_parent, top_parent};

use jr_ast::{Ident, Modifier, TypeRef};
use jr_pexpr::Token;
use jr_pstmt::{Cue, Made, TypeState, cue_of, word};
use jr_punit_members::leads::{Lead, with_modifier};
use jr_text::Span;
use std::alloc::Global;

/// A class up to its members.
#[derive(Drop)]
pub(crate) struct ClassHead {
    pub(crate) lead: Lead,
    pub(crate) name: Ident<Span>,
    pub(crate) parent: Option<TypeRef<Span>>,
}

/// How far a class has been read in front of its `{`.
#[derive(Drop)]
pub(crate) enum ClassStart {
    /// Behind modifiers, if any.
    Modified(Vec<Modifier<Span>>),
    /// Behind `class`.
    AtClass(Lead),
    /// Behind the class's name.
    Named(Lead, Ident<Span>),
    /// In the name of the superclass.
    InParent(Lead, Ident<Span>, TypeState),
}

/// How far it has been read with one token more.
#[derive(Drop)]
pub(crate) enum BegunClass {
    /// Its `{` is still to come.
    Start(ClassStart),
    /// Behind its `{`.
    Opened(Box<ClassHead>),
}

/// `None` where the token can't stand there.
type Begun = Made<Option<BegunClass>>;

fn from_modified(modifiers: Vec<Modifier<Span>>, at: Span, cue: Cue<'_>) -> Begun
    ensures inner { IsBegun (Own.start {A = Span}) result
        (machine.from_modified (modifiers_view modifiers) at (cue_view cue.entry)) }
    ensures top { IsBegun (Members.start {A = Span}) result
        (machine.from_modified (modifiers_view modifiers) at (cue_view cue.entry)) }
{
    match cue {
        Cue::Modifier(modifier) => {
            let all = with_modifier(modifiers, at, modifier)?;
            Ok(Some(BegunClass::Start(ClassStart::Modified(all))))
        }
        Cue::Class => Ok(Some(BegunClass::Start(ClassStart::AtClass(Lead::new(modifiers, at))))),
        _ => Ok(None),
    }
}

fn from_class(alloc: Global, lead: Lead, at: Span, cue: Cue<'_>) -> Begun
    ensures inner { IsBegun (Own.start {A = Span}) result
        (machine.from_class (lead_view lead) at (cue_view cue.entry)) }
    ensures top { IsBegun (Members.start {A = Span}) result
        (machine.from_class (lead_view lead) at (cue_view cue.entry)) }
{
    match cue {
        Cue::Word(text) => {
            let name = word(alloc, at, text)?;
            Ok(Some(BegunClass::Start(ClassStart::Named(lead, name))))
        }
        _ => Ok(None),
    }
}

/// Behind the `{` of the class.
fn open_class(alloc: Global, lead: Lead, name: Ident<Span>, parent: Option<TypeRef<Span>>) -> Begun
    ensures inner { IsBegun (Own.start {A = Span}) result (Some (machine.in_members
        (machine.head_of (lead_view lead) (word_of name) (option_map type_of parent))
        tree.end Own.start)) }
    ensures top { IsBegun (Members.start {A = Span}) result (Some (machine.in_members
        (machine.head_of (lead_view lead) (word_of name) (option_map type_of parent))
        tree.end Members.start)) }
{
    let head = Box::new(alloc, ClassHead { lead, name, parent })?;
    Ok(Some(BegunClass::Opened(head)))
}

fn from_named(alloc: Global, lead: Lead, name: Ident<Span>, cue: Cue<'_>) -> Begun
    ensures inner { IsBegun (Own.start {A = Span}) result
        (inner_named (lead_view lead) (word_of name) (cue_view cue.entry)) }
    ensures top { IsBegun (Members.start {A = Span}) result
        (top_named (lead_view lead) (word_of name) (cue_view cue.entry)) }
{
    match cue {
        Cue::Extends => Ok(Some(BegunClass::Start(ClassStart::InParent(
            lead,
            name,
            TypeState::Want(false),
        )))),
        Cue::OpenBrace => open_class(alloc, lead, name, None),
        _ => Ok(None),
    }
}

/// Behind the whole name of the superclass.
fn behind_parent(
    alloc: Global,
    lead: Lead,
    name: Ident<Span>,
    parent: Option<TypeRef<Span>>,
) -> Begun
    ensures inner { IsBegun (Own.start {A = Span}) result (option_map (λ t. machine.in_members
        (machine.head_of (lead_view lead) (word_of name) (Some t)) tree.end Own.start)
        (option_map type_of parent)) }
    ensures top { IsBegun (Members.start {A = Span}) result (option_map (λ t. machine.in_members
        (machine.head_of (lead_view lead) (word_of name) (Some t)) tree.end Members.start)
        (option_map type_of parent)) }
{
    match parent {
        Some(ty) => open_class(alloc, lead, name, Some(ty)),
        None => Ok(None),
    }
}

/// The name of the superclass goes on.
fn parent_on(
    alloc: Global,
    lead: Lead,
    name: Ident<Span>,
    ty: TypeState,
    at: Span,
    cue: Cue<'_>,
) -> Begun
    ensures inner { IsBegun (Own.start {A = Span}) result (option_map
        (machine.in_parent (lead_view lead) (word_of name))
        (T.cue_step join (type_state ty) at (cue_view cue.entry))) }
    ensures top { IsBegun (Members.start {A = Span}) result (option_map
        (machine.in_parent (lead_view lead) (word_of name))
        (T.cue_step join (type_state ty) at (cue_view cue.entry))) }
{
    match ty.step(alloc, at, cue)? {
        Some(next) => Ok(Some(BegunClass::Start(ClassStart::InParent(lead, name, next)))),
        None => Ok(None),
    }
}

fn from_parent(
    alloc: Global,
    lead: Lead,
    name: Ident<Span>,
    ty: TypeState,
    at: Span,
    cue: Cue<'_>,
) -> Begun
    ensures inner { IsBegun (Own.start {A = Span}) result
        (inner_parent (lead_view lead) (word_of name) (type_state ty) at (cue_view cue.entry)) }
    ensures top { IsBegun (Members.start {A = Span}) result
        (top_parent (lead_view lead) (word_of name) (type_state ty) at (cue_view cue.entry)) }
{
    match cue {
        Cue::OpenBrace => behind_parent(alloc, lead, name, ty.finish()),
        _ => parent_on(alloc, lead, name, ty, at, cue),
    }
}

impl ClassStart {
    /// The state behind a token at `at`; `None` where no class goes on with it.
    pub(crate) fn step(self, alloc: Global, at: Span, token: Token<'_>) -> Made<Option<BegunClass>>
        ensures inner { IsBegun (Own.start {A = Span}) result
            (Members.inner_step join (class_start self) at (token_view token.entry)) }
        ensures top { IsBegun (Members.start {A = Span}) result
            (Units.class_step join (class_start self) at (token_view token.entry)) }
    {
        let cue = cue_of(token);
        match self {
            ClassStart::Modified(modifiers) => from_modified(modifiers, at, cue),
            ClassStart::AtClass(lead) => from_class(alloc, lead, at, cue),
            ClassStart::Named(lead, name) => from_named(alloc, lead, name, cue),
            ClassStart::InParent(lead, name, ty) => from_parent(alloc, lead, name, ty, at, cue),
        }
    }
}
