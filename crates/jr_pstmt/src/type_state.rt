//! How far a type has been read (JLS 4.2, 4.3, 6.5.5).
ghost use Rattle.std.specs.Prelude.{◌≡◌, Some, false, IfOk, option_map};
ghost use Rattle.std.specs.Option.{is_some};
ghost use Rattle.jr_ast.specs.View.{word_of, type_of};
ghost use Rattle.jr_pexpr.specs.Marked.{join};
ghost use Rattle.jr_pexpr.specs.Machine.{marked};
ghost use Rattle.jr_pstmt.specs.CueView.{primitive_view, cue_view};
ghost use Rattle.jr_pstmt.specs.Cues as pure;
ghost use Rattle.jr_pstmt.specs.TypeMachine as machine;
ghost use Rattle.jr_pstmt.specs.TypeStateView.{type_state, IsNextType};

use crate::cues::{Cue, Primitive};
use crate::made::Made;
use jr_ast::{Ident, Name, TypeKind, TypeRef};
use jr_text::Span;
use std::alloc::Global;

/// How far a type has been read.
#[derive(Drop)]
pub enum TypeState {
    /// A type is to come, and whether it may be `int` or `boolean`.
    Want(bool),
    Have(TypeRef<Span>),
    /// Behind a word and a dot.
    Dotted(Ident<Span>),
}

/// A word at a place.
pub fn word(alloc: Global, at: Span, text: &str) -> Made<Ident<Span>>
    ensures { IfOk result (λ name. word_of name ≡ marked at text.now) }
{
    let name = Name::new(alloc, text)?;
    Ok(Ident { mark: at, name })
}

fn simple(alloc: Global, at: Span, text: &str) -> Made<Option<TypeState>>
    ensures { IsNextType result (machine.from_want false at (pure.a_word text.now)) }
{
    let name = word(alloc, at, text)?;
    Ok(Some(TypeState::Have(TypeRef {
        mark: at,
        kind: TypeKind::Named(None, name),
    })))
}

/// `int` or `boolean` as a type.
pub(crate) fn primitive_type(at: Span, primitive: Primitive) -> TypeRef<Span>
    ensures { type_of result ≡ machine.primitive_type at (primitive_view primitive) }
{
    let kind = match primitive {
        Primitive::Int => TypeKind::Int,
        Primitive::Boolean => TypeKind::Boolean,
    };
    TypeRef { mark: at, kind }
}

fn inner(alloc: Global, outer: Ident<Span>, at: Span, text: &str) -> Made<Option<TypeState>>
    ensures { IsNextType result
        (machine.from_dotted join (word_of outer) at (pure.a_word text.now)) }
{
    let mark = Span {
        from: outer.mark.from,
        to: at.to,
    };
    let name = word(alloc, at, text)?;
    Ok(Some(TypeState::Have(TypeRef {
        mark,
        kind: TypeKind::Named(Some(outer), name),
    })))
}

/// A token behind a word and a dot.
pub(crate) fn behind_dot(
    alloc: Global,
    outer: Ident<Span>,
    at: Span,
    cue: Cue<'_>,
) -> Made<Option<TypeState>>
    ensures { IsNextType result
        (machine.from_dotted join (word_of outer) at (cue_view cue.entry)) }
{
    match cue {
        Cue::Word(text) => inner(alloc, outer, at, text),
        _ => Ok(None),
    }
}

/// A dot behind a type.
pub(crate) fn behind_outer(ty: TypeRef<Span>) -> Option<TypeState>
    ensures { option_map type_state result ≡ machine.dot_behind (type_of ty) }
{
    match ty.kind {
        TypeKind::Named(None, name) => Some(TypeState::Dotted(name)),
        TypeKind::Named(Some(_), _) => None,
        TypeKind::Int => None,
        TypeKind::Boolean => None,
    }
}

/// A token behind a type.
fn behind_type(ty: TypeRef<Span>, cue: Cue<'_>) -> Made<Option<TypeState>>
    ensures { IsNextType result (machine.from_have (type_of ty) (cue_view cue.entry)) }
{
    match cue {
        Cue::Dot => Ok(behind_outer(ty)),
        _ => Ok(None),
    }
}

impl TypeState {
    /// The state behind the first token; `None` where no type begins with it.
    pub fn begin(alloc: Global, primitive: bool, at: Span, cue: Cue<'_>) -> Made<Option<TypeState>>
        ensures { IsNextType result (machine.from_want primitive at (cue_view cue.entry)) }
    {
        match cue {
            Cue::Word(text) => simple(alloc, at, text),
            Cue::Primitive(of) => {
                if primitive {
                    Ok(Some(TypeState::Have(primitive_type(at, of))))
                } else {
                    Ok(None)
                }
            }
            _ => Ok(None),
        }
    }

    /// The state behind a token at `at`; `None` where no type goes on with it.
    pub fn step(self, alloc: Global, at: Span, cue: Cue<'_>) -> Made<Option<TypeState>>
        ensures { IsNextType result
            (machine.cue_step join (type_state self) at (cue_view cue.entry)) }
    {
        match self {
            TypeState::Want(primitive) => TypeState::begin(alloc, primitive, at, cue),
            TypeState::Have(ty) => behind_type(ty, cue),
            TypeState::Dotted(outer) => behind_dot(alloc, outer, at, cue),
        }
    }

    /// Whether what has been read is a type.
    pub fn is_whole(&self) -> bool
        ensures { result ≡ is_some (machine.whole (type_state self.now)) }
    {
        match self {
            TypeState::Want(_) => false,
            TypeState::Have(_) => true,
            TypeState::Dotted(_) => false,
        }
    }

    /// The type that has been read; `None` where it isn't whole.
    pub fn finish(self) -> Option<TypeRef<Span>>
        ensures { option_map type_of result ≡ machine.whole (type_state self) }
    {
        match self {
            TypeState::Want(_) => None,
            TypeState::Have(ty) => Some(ty),
            TypeState::Dotted(_) => None,
        }
    }
}
