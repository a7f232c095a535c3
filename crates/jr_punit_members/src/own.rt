//! How far a member that is no class has been read (JLS 8.3, 8.4, 8.8).
ghost use Rattle.std.specs.Prelude.{◌≡◌, IfOk, option_map};
ghost use Rattle.std.specs.Option.{is_some};
ghost use Rattle.jr_ast.specs.View.{member_of};
ghost use Rattle.jr_pexpr.specs.Marked.{join};
ghost use Rattle.jr_pexpr.specs.TokenView.{token_view};
ghost use Rattle.jr_pstmt.specs.InPlace.{GoesTo};
ghost use Rattle.jr_punit_members.specs.LeadView.{lead_view};
ghost use Rattle.jr_pstmt.specs.OwnMachine as machine;
ghost use Rattle.jr_punit_members.specs.OwnView.{own_state, IsNextOwn, begun};

use crate::args::ArgState;
use crate::beginnings::{from_modified, from_type, from_voided};
use crate::bodies::{ends_body, from_body, from_headed, from_params};
use crate::constructors::{behind_super, from_arguments, from_constructor, from_super};
use crate::fields::{from_value, from_worded};
use crate::heads::{Body, Constructor, FieldHead, Head, MemberHead};
use crate::leads::Lead;
use crate::params::ParamState;
use jr_ast::{Expr, Member, Modifier, Param};
use jr_pexpr::{State, Token};
use jr_pstmt::{ListState, Made, TypeState, cue_of};
use jr_text::Span;
use std::alloc::Global;
use std::mem;

/// How far a member that is no class has been read.
#[derive(Drop)]
pub enum OwnState {
    /// Behind modifiers, if any.
    Modified(Vec<Modifier<Span>>),
    /// In a type, or the name of a constructor.
    InType(Lead, TypeState),
    /// Behind `void`.
    Voided(Lead),
    /// Behind the name of a field or method.
    Worded(Box<MemberHead>),
    /// In the value of a field.
    InValue(Box<FieldHead>, State),
    /// Between the parentheses.
    InParams(Head, ParamState),
    /// And behind them.
    Headed(Head, Vec<Param<Span>>),
    /// First in a constructor's body.
    InConstructor(Box<Constructor>),
    /// Behind `super` there, which is at the place.
    AtSuper(Box<Constructor>, Span),
    /// In its arguments, and behind them.
    InSuper(Box<Constructor>, ArgState),
    BehindSuper(Box<Constructor>, Vec<Expr<Span>>),
    /// Among the statements of a body.
    InBody(Box<Body>, Box<ListState>),
    Done(Box<Member<Span>>),
}

/// The state behind a token; `None` where the token can't stand there.
pub type OwnStepped = Made<Option<OwnState>>;

impl OwnState {
    /// Nothing has been read.
    pub fn new(alloc: Global) -> OwnState
        ensures { own_state result ≡ machine.start }
    {
        OwnState::Modified(Vec::new(alloc))
    }

    /// The state behind a token at `at`; `None` exactly where no member of the class that is called
    /// `name` goes on with it.
    fn behind(self, alloc: Global, name: &str, at: Span, token: Token<'_>) -> OwnStepped
        ensures { IsNextOwn result
            (machine.step join name.now (own_state self) at (token_view token.entry)) }
    {
        match self {
            OwnState::Modified(modifiers) => from_modified(alloc, modifiers, at, cue_of(token)),
            OwnState::InType(lead, ty) => from_type(alloc, name, lead, ty, at, cue_of(token)),
            OwnState::Voided(lead) => from_voided(alloc, lead, at, cue_of(token)),
            OwnState::Worded(head) => from_worded(alloc, head, at, cue_of(token)),
            OwnState::InValue(head, value) => from_value(alloc, head, value, at, token),
            OwnState::InParams(head, ps) => from_params(alloc, head, ps, at, cue_of(token)),
            OwnState::Headed(head, params) => from_headed(alloc, head, params, cue_of(token)),
            OwnState::InConstructor(of) => from_constructor(alloc, of, at, token),
            OwnState::AtSuper(of, start) => from_super(alloc, of, start, at, token),
            OwnState::InSuper(of, args) => from_arguments(alloc, of, args, at, token),
            OwnState::BehindSuper(of, args) => behind_super(alloc, of, args, cue_of(token)),
            OwnState::InBody(body, items) => from_body(alloc, body, items, at, token),
            OwnState::Done(member) => {
                drop(member);
                Ok(None)
            }
        }
    }

    /// Goes on as `behind` does, with a state that is moved out and in.
    fn replace(&mut self, alloc: Global, name: &str, at: Span, token: Token<'_>) -> Made<bool>
        ensures { GoesTo result (own_state self.new)
            (machine.step join name.now (own_state self.old) at (token_view token.entry)) }
    {
        let own = mem::replace(self, OwnState::new(alloc));
        match own.behind(alloc, name, at, token)? {
            Some(next) => {
                drop(mem::replace(self, next));
                Ok(true)
            }
            None => Ok(false),
        }
    }

    /// Goes on with a token at `at`; `false` exactly where no member of the class that is called
    /// `name` goes on with it. Most tokens stand in bodies, where nothing is moved but the list.
    pub fn step(&mut self, alloc: Global, name: &str, at: Span, token: Token<'_>) -> Made<bool>
        ensures { GoesTo result (own_state self.new)
            (machine.step join name.now (own_state self.old) at (token_view token.entry)) }
    {
        match self {
            OwnState::InBody(_, items) => {
                if ends_body(items, token) {
                    self.replace(alloc, name, at, token)
                } else {
                    items.step(alloc, at, token)
                }
            }
            _ => self.replace(alloc, name, at, token),
        }
    }

    /// Whether nothing has been read.
    pub fn is_start(&self) -> bool
        ensures { result ≡ machine.is_start (own_state self.now) }
    {
        match self {
            OwnState::Modified(modifiers) => modifiers.is_empty(),
            _ => false,
        }
    }

    /// Whether what has been read is a member.
    pub fn is_done(&self) -> bool
        ensures { result ≡ is_some (machine.whole (own_state self.now)) }
    {
        match self {
            OwnState::Done(_) => true,
            _ => false,
        }
    }

    /// The member that has been read; `None` where it isn't whole.
    pub fn finish(self) -> Option<Member<Span>>
        ensures { option_map member_of result ≡ machine.whole (own_state self) }
    {
        match self {
            OwnState::Done(member) => Some(Box::into_inner(member)),
            other => {
                drop(other);
                None
            }
        }
    }

    /// The modifiers of what the token at `at` begins; `None` where more than modifiers have been
    /// read.
    pub fn into_lead(self, at: Span) -> Option<Lead>
        ensures { option_map lead_view result ≡ begun (own_state self) at }
    {
        match self {
            OwnState::Modified(modifiers) => Some(Lead::new(modifiers, at)),
            other => {
                drop(other);
                None
            }
        }
    }
}
