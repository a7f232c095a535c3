//! How far a member class has been read, which holds no class itself (JLS 8.1, 8.5).
ghost use Rattle.std.specs.Prelude.{◌≡◌, ◌&&◌, Some, IfOk, option_map};
ghost use Rattle.std.specs.Option.{is_some};
ghost use Rattle.jr_ast.specs.View.{class_of, member_of, members_of};
ghost use Rattle.jr_pexpr.specs.Marked.{join};
ghost use Rattle.jr_pexpr.specs.TokenView.{token_view};
ghost use Rattle.jr_pstmt.specs.CueTests.{is_close_brace as is_brace};
ghost use Rattle.jr_pstmt.specs.Cues.{cue_of};
ghost use Rattle.jr_pstmt.specs.OwnMachine as Own;
ghost use Rattle.jr_punit_members.specs.OwnView.{own_state};
ghost use Rattle.jr_punit_laws.specs.ClassMachine as Classes;
ghost use Rattle.jr_punit_laws.specs.MemberMachine as machine;
ghost use Rattle.jr_punit.specs.ClassView.{class_head, class_start, begun_class, inner_class};
ghost use Rattle.jr_punit.specs.ClassView.{inner_read, closed_at, IsNextInner};
ghost use Rattle.jr_pstmt.specs.InPlace.{GoesTo};

use crate::class_heads::{BegunClass, ClassHead, ClassStart};
use jr_ast::{Class, Member};
use jr_pexpr::Token;
use jr_pstmt::{Made, is_close_brace};
use jr_punit_members::leads::Lead;
use jr_punit_members::own::OwnState;
use jr_text::Span;
use std::alloc::Global;
use std::mem;

/// How far a member class has been read.
#[derive(Drop)]
pub(crate) enum InnerClass {
    /// In front of its `{`.
    Start(ClassStart),
    /// Behind these members, in one more, of which perhaps nothing has been read.
    Members(Box<ClassHead>, Vec<Member<Span>>, Box<OwnState>),
    Done(Box<Class<Span>>),
}

/// The state behind a token; `None` where the token can't stand there.
type InnerStepped = Made<Option<InnerClass>>;

/// The members have one more.
pub(crate) fn add_member(all: &mut Vec<Member<Span>>, member: Member<Span>) -> Made<()>
    ensures { IfOk result (λ _. members_of all.new.items
        ≡ Classes.with_member (members_of all.old.items) (member_of member)) }
{
    all.push(member)?;
    Ok(())
}

/// The class, whose `}` is at `at`.
pub(crate) fn whole_class(
    alloc: Global,
    head: Box<ClassHead>,
    all: Vec<Member<Span>>,
    at: Span,
) -> Made<Box<Class<Span>>>
    ensures { IfOk result (λ made. class_of made.value
        ≡ Classes.class_of join (class_head head.value) at (members_of all.items)) }
{
    let ClassHead { lead, name, parent } = Box::into_inner(head);
    let Lead { start, modifiers } = lead;
    let mark = Span {
        from: start.from,
        to: at.to,
    };
    Ok(Box::new(alloc, Class::new(mark, modifiers, name, parent, all))?)
}

/// Behind the first tokens of the class.
fn inner_behind(alloc: Global, next: Option<BegunClass>) -> InnerStepped
    ensures { IsNextInner result (option_map (begun_class Own.start) next) }
{
    match next {
        Some(BegunClass::Start(start)) => Ok(Some(InnerClass::Start(start))),
        Some(BegunClass::Opened(head)) => {
            let member = Box::new(alloc, OwnState::new(alloc))?;
            Ok(Some(InnerClass::Members(head, Vec::new(alloc), member)))
        }
        None => Ok(None),
    }
}

/// The member that has become whole is one of the class, and the next one may come; `false` where
/// it isn't whole.
fn take_member(alloc: Global, all: &mut Vec<Member<Span>>, member: &mut OwnState) -> Made<bool>
    ensures { (h : Classes.Head Span) → GoesTo result
        (Classes.in_members h (members_of all.new.items) (own_state member.new))
        (option_map (λ d. Classes.in_members h (Classes.with_member (members_of all.old.items) d)
        Own.start) (Own.whole (own_state member.old))) }
{
    match mem::replace(member, OwnState::new(alloc)).finish() {
        Some(whole) => {
            add_member(all, whole)?;
            Ok(true)
        }
        None => Ok(false),
    }
}

/// Where the member has become whole, the next one may come.
fn settle(alloc: Global, all: &mut Vec<Member<Span>>, member: &mut OwnState) -> Made<bool>
    ensures { (h : Classes.Head Span) → GoesTo result
        (Classes.in_members h (members_of all.new.items) (own_state member.new))
        (Some (inner_read h (members_of all.old.items) (own_state member.old))) }
{
    if member.is_done() {
        take_member(alloc, all, member)
    } else {
        Ok(true)
    }
}

/// Whether the class ends with the token: its `}`, where no member has been begun.
fn ends(member: &OwnState, token: Token<'_>) -> bool
    ensures { result ≡ (Own.is_start (own_state member.now)
        && is_brace (cue_of (token_view token.entry))) }
{
    member.is_start() & is_close_brace(token)
}

/// The member at hand goes on.
fn member_on(
    alloc: Global,
    head: &ClassHead,
    all: &mut Vec<Member<Span>>,
    member: &mut OwnState,
    at: Span,
    token: Token<'_>,
) -> Made<bool>
    ensures { GoesTo result (Classes.in_members (class_head head.now) (members_of all.new.items)
        (own_state member.new)) (option_map
        (inner_read (class_head head.now) (members_of all.old.items))
        (Own.step join (class_head head.now).word.text (own_state member.old) at
        (token_view token.entry))) }
{
    if member.step(alloc, head.name.name.as_str(), at, token)? {
        settle(alloc, all, member)
    } else {
        Ok(false)
    }
}

/// In front of the members. What had been read is taken.
fn from_start(alloc: Global, start: &mut ClassStart, at: Span, token: Token<'_>) -> InnerStepped
    ensures { IsNextInner result
        (machine.inner_step join (class_start start.old) at (token_view token.entry)) }
{
    let start = mem::replace(start, ClassStart::Modified(Vec::new(alloc)));
    let next = start.step(alloc, at, token)?;
    inner_behind(alloc, next)
}

impl InnerClass {
    /// The class ends with its `}`, which is at `at`; `false` where it stands at no member.
    fn close(&mut self, alloc: Global, at: Span) -> Made<bool>
        ensures { GoesTo result (inner_class self.new) (closed_at (inner_class self.old) at) }
    {
        match mem::replace(
            self,
            InnerClass::Start(ClassStart::Modified(Vec::new(alloc))),
        ) {
            InnerClass::Members(head, all, member) => {
                drop(member);
                let class = whole_class(alloc, head, all, at)?;
                drop(mem::replace(self, InnerClass::Done(class)));
                Ok(true)
            }
            InnerClass::Start(start) => {
                drop(start);
                Ok(false)
            }
            InnerClass::Done(class) => {
                drop(class);
                Ok(false)
            }
        }
    }

    /// Goes on with a token at `at`; `false` exactly where no member class goes on with it.
    pub(crate) fn step(&mut self, alloc: Global, at: Span, token: Token<'_>) -> Made<bool>
        ensures { GoesTo result (inner_class self.new)
            (machine.inner_step join (inner_class self.old) at (token_view token.entry)) }
    {
        match self {
            InnerClass::Start(start) => match from_start(alloc, start, at, token)? {
                Some(next) => {
                    drop(mem::replace(self, next));
                    Ok(true)
                }
                None => Ok(false),
            },
            InnerClass::Members(head, all, member) => {
                if ends(member, token) {
                    self.close(alloc, at)
                } else {
                    member_on(alloc, head, all, member, at, token)
                }
            }
            InnerClass::Done(_) => Ok(false),
        }
    }

    /// Whether what has been read is a class.
    pub(crate) fn is_done(&self) -> bool
        ensures { result ≡ is_some (Classes.whole (inner_class self.now)) }
    {
        match self {
            InnerClass::Done(_) => true,
            _ => false,
        }
    }

    /// The class that has been read; `None` where it isn't whole.
    pub(crate) fn finish(self) -> Option<Class<Span>>
        ensures { option_map class_of result ≡ Classes.whole (inner_class self) }
    {
        match self {
            InnerClass::Done(class) => Some(Box::into_inner(class)),
            other => {
                drop(other);
                None
            }
        }
    }
}
