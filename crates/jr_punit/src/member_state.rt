//! How far a member of a class has been read (JLS 8.2): a field, method, constructor or class.
ghost use Rattle.std.specs.Prelude.{◌≡◌, Some, IfOk, option_map};
ghost use Rattle.std.specs.Option.{is_some};
ghost use Rattle.jr_ast.specs.View.{class_of, member_of};
ghost use Rattle.jr_pexpr.specs.Marked.{join};
ghost use Rattle.jr_pexpr.specs.TokenView.{token_view};
ghost use Rattle.jr_pstmt.specs.Cues as Cues;
ghost use Rattle.jr_pstmt.specs.OwnMachine as Own;
ghost use Rattle.jr_punit_members.specs.OwnView.{own_state, begun};
ghost use Rattle.jr_punit_laws.specs.ClassMachine as Classes;
ghost use Rattle.jr_punit_laws.specs.MemberMachine as machine;
ghost use Rattle.jr_punit.specs.ClassView.{inner_class, member_state, is_modified as is_pure};
ghost use Rattle.jr_punit.specs.ClassView.{is_class as is_cue, begins_class};
ghost use Rattle.jr_pstmt.specs.InPlace.{GoesTo};

use crate::class_heads::ClassStart;
use crate::inner_class::InnerClass;
use jr_ast::{Class, Member};
use jr_pexpr::Token;
use jr_pstmt::{Cue, Made, cue_of};
use jr_punit_members::own::OwnState;
use jr_text::Span;
use std::alloc::Global;
use std::mem;

/// How far a member has been read.
#[derive(Drop)]
pub(crate) enum MemberState {
    /// A member that is no class, or modifiers alone.
    Own(Box<OwnState>),
    InClass(InnerClass),
}

fn is_class(token: Token<'_>) -> bool
    ensures { result ≡ is_cue (Cues.cue_of (token_view token.entry)) }
{
    match cue_of(token) {
        Cue::Class => true,
        _ => false,
    }
}

/// Whether modifiers alone have been read.
fn is_modified(own: &OwnState) -> bool
    ensures { result ≡ is_pure (own_state own.now) }
{
    match own {
        OwnState::Modified(_) => true,
        _ => false,
    }
}

/// Whether a class begins with the token: no class stands in a member class.
fn begins(nested: bool, own: &OwnState, token: Token<'_>) -> bool
    ensures { result ≡ begins_class nested (own_state own.now) (token_view token.entry) }
{
    !nested & is_modified(own) & is_class(token)
}

/// Behind `class`, which is at `at`. What had been read is taken.
fn class_begun(alloc: Global, own: &mut OwnState, at: Span) -> Option<MemberState>
    ensures { option_map member_state result
        ≡ option_map (λ l. machine.in_class (Classes.at_class l)) (begun (own_state own.old) at) }
{
    match mem::replace(own, OwnState::new(alloc)).into_lead(at) {
        Some(lead) => Some(MemberState::InClass(InnerClass::Start(ClassStart::AtClass(lead)))),
        None => None,
    }
}

/// A class as a member.
fn class_member(class: Class<Span>) -> Member<Span>
    ensures { member_of result ≡ machine.class_member (class_of class) }
{
    let mark = class.mark;
    Member::inner(mark, class)
}

impl MemberState {
    /// Nothing has been read.
    pub(crate) fn new(alloc: Global) -> Made<MemberState>
        ensures { IfOk result (λ s. member_state s ≡ machine.start) }
    {
        let own = Box::new(alloc, OwnState::new(alloc))?;
        Ok(MemberState::Own(own))
    }

    /// Goes on with a token at `at`; `false` exactly where no member of the class that is called
    /// `name` goes on with it. `nested` says whether that class is itself a member class.
    pub(crate) fn step(
        &mut self,
        alloc: Global,
        nested: bool,
        name: &str,
        at: Span,
        token: Token<'_>,
    ) -> Made<bool>
        ensures { GoesTo result (member_state self.new) (machine.step join nested name.now
            (member_state self.old) at (token_view token.entry)) }
    {
        match self {
            MemberState::Own(own) => {
                if begins(nested, own, token) {
                    match class_begun(alloc, own, at) {
                        Some(next) => {
                            drop(mem::replace(self, next));
                            Ok(true)
                        }
                        None => Ok(false),
                    }
                } else {
                    own.step(alloc, name, at, token)
                }
            }
            MemberState::InClass(class) => class.step(alloc, at, token),
        }
    }

    /// Whether nothing has been read.
    pub(crate) fn is_start(&self) -> bool
        ensures { result ≡ machine.is_start (member_state self.now) }
    {
        match self {
            MemberState::Own(own) => own.is_start(),
            MemberState::InClass(_) => false,
        }
    }

    /// Whether what has been read is a member.
    pub(crate) fn is_done(&self) -> bool
        ensures { result ≡ is_some (machine.whole (member_state self.now)) }
    {
        match self {
            MemberState::Own(own) => own.is_done(),
            MemberState::InClass(class) => class.is_done(),
        }
    }

    /// The member that has been read; `None` where it isn't whole.
    pub(crate) fn finish(self) -> Option<Member<Span>>
        ensures { option_map member_of result ≡ machine.whole (member_state self) }
    {
        match self {
            MemberState::Own(own) => Box::into_inner(own).finish(),
            MemberState::InClass(class) => match class.finish() {
                Some(class) => Some(class_member(class)),
                None => None,
            },
        }
    }
}
