//! How far an expression has been read.
ghost use Rattle.std.specs.Prelude.{◌≡◌, ◌∷◌, [], Some, IfOk, option_map};
ghost use Rattle.std.specs.Result.{IsOkAnd};
ghost use Rattle.jr_pexpr.specs.Machine as machine;
ghost use Rattle.jr_pexpr.specs.FrameView.{frame_view};
ghost use Rattle.jr_pexpr.specs.StackView.{stack};
ghost use Rattle.jr_pexpr.specs.StateView.{mode_view, state_view};
ghost use Rattle.jr_pexpr.specs.ExpView.{exp_in};
ghost use Rattle.jr_pexpr.specs.Answers.{IsNext};

use crate::frames::Frame;
use crate::made::Made;
use crate::stack::Stack;
use jr_ast::{Expr, Ident, TypeRef};
use jr_text::Span;

/// What may come next.
#[derive(Drop)]
pub(crate) enum Mode {
    /// An expression is to come.
    Want,
    /// One that can be extended stands there.
    Have(Box<Expr<Span>>),
    /// And a dot behind it.
    Dotted(Box<Expr<Span>>),
    /// Behind `super`, and behind its dot.
    AtSuper(Span),
    SuperDotted(Span),
    /// Behind `new`, behind a class's name there, and behind a dot there.
    AtNew(Span),
    NewNamed(Span, TypeRef<Span>),
    NewDotted(Span, Ident<Span>),
}

/// What has been read of an expression: what has been begun, and what may come next.
#[derive(Drop)]
pub struct State {
    pub(crate) on: Stack,
    pub(crate) mode: Mode,
}

/// The state behind a token; `None` where the token can't stand there.
pub(crate) type Stepped = Made<Option<State>>;

pub(crate) fn to(on: Stack, mode: Mode) -> Stepped
    ensures { IsNext result (Some (mode_view (stack on) mode)) }
{
    Ok(Some(State { on, mode }))
}

/// An expression is to come for the frame.
pub(crate) fn want(mut on: Stack, frame: Frame) -> Stepped
    ensures { IsNext result (Some (machine.want (frame_view frame ∷ stack on))) }
{
    on.push(frame)?;
    to(on, Mode::Want)
}

/// The expression that was made stands there.
pub(crate) fn have(on: Stack, made: Made<Box<Expr<Span>>>) -> Stepped
    ensures { IfOk result (λ next. IsOkAnd made (λ e.
        option_map state_view next ≡ Some (machine.have (stack on) (exp_in e)))) }
{
    to(on, Mode::Have(made?))
}
