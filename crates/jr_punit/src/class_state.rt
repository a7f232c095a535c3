//! How far a top-level class has been read (JLS 7.6, 8.1).
ghost use Rattle.std.specs.Prelude.{◌≡◌, ◌&&◌, Some, false, IfOk, option_map};
ghost use Rattle.std.specs.Option.{is_some};
ghost use Rattle.jr_ast.specs.View.{class_of, member_of, members_of};
ghost use Rattle.jr_pexpr.specs.Marked.{join};
ghost use Rattle.jr_pexpr.specs.TokenView.{token_view};
ghost use Rattle.jr_pstmt.specs.CueTests.{is_close_brace as is_brace};
ghost use Rattle.jr_pstmt.specs.Cues.{cue_of};
ghost use Rattle.jr_punit_laws.specs.ClassMachine as Classes;
ghost use Rattle.jr_punit_laws.specs.MemberMachine as Members;
ghost use Rattle.jr_punit_laws.specs.UnitMachine as machine;
ghost use Rattle.jr_punit.specs.ClassView.{class_head, member_state, class_start, begun_class};
ghost use Rattle.jr_punit.specs.ClassView.{class_state, top_read, closed_at, IsNextClass};
ghost use Rattle.jr_pstmt.specs.InPlace.{GoesTo};

use crate::class_heads::{BegunClass, ClassHead, ClassStart};
use crate::inner_class::{add_member, whole_class};
use crate::member_state::MemberState;
use jr_ast::{Class, Member};
use jr_pexpr::Token;
use jr_pstmt::{Made, is_close_brace};
use jr_text::Span;
use std::alloc::Global;
use std::mem;

/// How far a top-level class has been read.
#[derive(Drop)]
pub(crate) enum ClassState {
    /// In front of its `{`.
    Start(ClassStart),
    /// Behind these members, in one more, of which perhaps nothing has been read.
    Members(Box<ClassHead>, Vec<Member<Span>>, MemberState),
    Done(Box<Class<Span>>),
}

/// The state behind a token; `None` where the token can't stand there.
type ClassStepped = Made<Option<ClassState>>;

/// Behind the first tokens of the class.
fn class_behind(alloc: Global, next: Option<BegunClass>) -> ClassStepped
    ensures { IsNextClass result (option_map (begun_class Members.start) next) }
{
    match next {
        Some(BegunClass::Start(start)) => Ok(Some(ClassState::Start(start))),
        Some(BegunClass::Opened(head)) => {
            let member = MemberState::new(alloc)?;
            Ok(Some(ClassState::Members(head, Vec::new(alloc), member)))
        }
        None => Ok(None),
    }
}

/// The member that has become whole is one of the class, and the next one may come; `false` where
/// it isn't whole.
fn take_member(alloc: Global, all: &mut Vec<Member<Span>>, member: &mut MemberState) -> Made<bool>
    ensures { (h : Classes.Head Span) → GoesTo result
        (Classes.in_members h (members_of all.new.items) (member_state member.new))
        (option_map (λ d. Classes.in_members h (Classes.with_member (members_of all.old.items) d)
        Members.start) (Members.whole (member_state member.old))) }
{
    let fresh = MemberState::new(alloc)?;
    match mem::replace(member, fresh).finish() {
        Some(whole) => {
            add_member(all, whole)?;
            Ok(true)
        }
        None => Ok(false),
    }
}

/// Where the member has become whole, the next one may come.
fn settle(alloc: Global, all: &mut Vec<Member<Span>>, member: &mut MemberState) -> Made<bool>
    ensures { (h : Classes.Head Span) → GoesTo result
        (Classes.in_members h (members_of all.new.items) (member_state member.new))
        (Some (top_read h (members_of all.old.items) (member_state member.old))) }
{
    if member.is_done() {
        take_member(alloc, all, member)
    } else {
        Ok(true)
    }
}

/// Whether the class ends with the token: its `}`, where no member has been begun.
fn ends(member: &MemberState, token: Token<'_>) -> bool
    ensures { result ≡ (Members.is_start (member_state member.now)
        && is_brace (cue_of (token_view token.entry))) }
{
    member.is_start() & is_close_brace(token)
}

/// The member at hand goes on.
fn member_on(
    alloc: Global,
    head: &ClassHead,
    all: &mut Vec<Member<Span>>,
    member: &mut MemberState,
    at: Span,
    token: Token<'_>,
) -> Made<bool>
    ensures { GoesTo result (Classes.in_members (class_head head.now) (members_of all.new.items)
        (member_state member.new)) (option_map
        (top_read (class_head head.now) (members_of all.old.items))
        (Members.step join false (class_head head.now).word.text (member_state member.old) at
        (token_view token.entry))) }
{
    if member.step(alloc, false, head.name.name.as_str(), at, token)? {
        settle(alloc, all, member)
    } else {
        Ok(false)
    }
}

/// In front of the members. What had been read is taken.
fn from_start(alloc: Global, start: &mut ClassStart, at: Span, token: Token<'_>) -> ClassStepped
    ensures { IsNextClass result
        (machine.class_step join (class_start start.old) at (token_view token.entry)) }
{
    let start = mem::replace(start, ClassStart::Modified(Vec::new(alloc)));
    let next = start.step(alloc, at, token)?;
    class_behind(alloc, next)
}

/// Whether nothing has been read.
fn is_unbegun(start: &ClassStart) -> bool
    ensures { result ≡ machine.is_between (class_start start.now) }
{
    match start {
        ClassStart::Modified(modifiers) => modifiers.is_empty(),
        _ => false,
    }
}

impl ClassState {
    /// Nothing has been read.
    pub(crate) fn new(alloc: Global) -> ClassState
        ensures { class_state result ≡ Classes.start }
    {
        ClassState::Start(ClassStart::Modified(Vec::new(alloc)))
    }

    /// The class ends with its `}`, which is at `at`; `false` where it stands at no member.
    fn close(&mut self, alloc: Global, at: Span) -> Made<bool>
        ensures { GoesTo result (class_state self.new) (closed_at (class_state self.old) at) }
    {
        match mem::replace(
            self,
            ClassState::Start(ClassStart::Modified(Vec::new(alloc))),
        ) {
            ClassState::Members(head, all, member) => {
                drop(member);
                let class = whole_class(alloc, head, all, at)?;
                drop(mem::replace(self, ClassState::Done(class)));
                Ok(true)
            }
            ClassState::Start(start) => {
                drop(start);
                Ok(false)
            }
            ClassState::Done(class) => {
                drop(class);
                Ok(false)
            }
        }
    }

    /// Goes on with a token at `at`; `false` exactly where no top-level class goes on with it.
    pub(crate) fn step(&mut self, alloc: Global, at: Span, token: Token<'_>) -> Made<bool>
        ensures { GoesTo result (class_state self.new)
            (machine.class_step join (class_state self.old) at (token_view token.entry)) }
    {
        match self {
            ClassState::Start(start) => match from_start(alloc, start, at, token)? {
                Some(next) => {
                    drop(mem::replace(self, next));
                    Ok(true)
                }
                None => Ok(false),
            },
            ClassState::Members(head, all, member) => {
                if ends(member, token) {
                    self.close(alloc, at)
                } else {
                    member_on(alloc, head, all, member, at, token)
                }
            }
            ClassState::Done(_) => Ok(false),
        }
    }

    /// Whether nothing has been read.
    pub(crate) fn is_between(&self) -> bool
        ensures { result ≡ machine.is_between (class_state self.now) }
    {
        match self {
            ClassState::Start(start) => is_unbegun(start),
            _ => false,
        }
    }

    /// Whether what has been read is a class.
    pub(crate) fn is_done(&self) -> bool
        ensures { result ≡ is_some (Classes.whole (class_state self.now)) }
    {
        match self {
            ClassState::Done(_) => true,
            _ => false,
        }
    }

    /// The class that has been read; `None` where it isn't whole.
    pub(crate) fn finish(self) -> Option<Class<Span>>
        ensures { option_map class_of result ≡ Classes.whole (class_state self) }
    {
        match self {
            ClassState::Done(class) => Some(Box::into_inner(class)),
            other => {
                drop(other);
                None
            }
        }
    }
}
