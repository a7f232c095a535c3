//! The frames that an expression is to come for, the innermost last.
ghost use Rattle.std.specs.Prelude.{◌≡◌, ◌≤◌, ◌∷◌, [], false, IfOk, MatchOption};
ghost use Rattle.jr_pexpr.specs.Machine as machine;
ghost use Rattle.jr_pexpr.specs.FrameView.{operand_view, bracket_view, frame_view};
ghost use Rattle.jr_pexpr.specs.Stacks.{top_binds, IsEnded, has_bracket, is_nil, ends, is_form};
ghost use Rattle.std.specs.List.{count_by};
ghost use Rattle.jr_pexpr.specs.Waiting.{waits};

use crate::frames::{Bracket, Frame, Operand};
use crate::made::Made;
use std::alloc::Global;

/// What has been begun, the innermost last.
#[derive(Drop)]
pub(crate) struct Stack {
    frames: Vec<Frame>,
    /// How many of them don't end with what is no target in them.
    waiting: usize,
    ghost counted: { waiting ≡ count_by waits frames.items },
}

impl Stack {
    ghost use Rattle.jr_pexpr.specs.StackView.{stack};

    pub(crate) fn new(alloc: Global) -> Stack
        ensures { stack result ≡ [] }
    {
        Stack {
            frames: Vec::new(alloc),
            waiting: 0,
        }
    }

    pub(crate) fn push(&mut self, frame: Frame) -> Made<()>
        ensures { IfOk result (λ _. stack self.new ≡ frame_view frame ∷ stack self.old) }
    {
        let waits = !frame.ends_when(false);
        self.frames.push(frame)?;
        if waits {
            self.waiting += 1;
        }
        Ok(())
    }

    fn pop(&mut self) -> Option<Frame>
        ensures { MatchOption result ((stack self.old ≡ []) × (stack self.new ≡ [])) (λ f.
            stack self.old ≡ frame_view f ∷ stack self.new) }
    {
        match self.frames.pop() {
            Some(frame) => {
                if frame.ends_when(false) {
                    Some(frame)
                } else {
                    self.waiting -= 1;
                    Some(frame)
                }
            }
            None => None,
        }
    }

    /// How tightly the innermost binds; 0 where there is none.
    fn binds(&self) -> u32
        ensures { result ≡ top_binds (stack self.now) }
    {
        match self.frames.last() {
            Some(frame) => frame.binds(),
            None => 0,
        }
    }

    /// Takes the innermost where it waits for an operand and binds at least so tightly.
    pub(crate) fn pop_operand(&mut self, level: u32) -> Option<Operand>
        requires { 1 ≤ level }
        ensures { MatchOption result (IsEnded level (stack self.old) × (stack self.new
            ≡ stack self.old)) (λ o. (stack self.old ≡ operand_view o ∷ stack self.new)
            × (level ≤ machine.binds (operand_view o))) }
    {
        if self.binds() < level {
            return None;
        }
        match self.pop() {
            Some(Frame::Operand(operand)) => Some(operand),
            Some(Frame::Bracket(_)) => unreachable!(),
            None => unreachable!(),
        }
    }

    /// Takes the innermost where it waits for its closing token.
    pub(crate) fn pop_bracket(&mut self) -> Option<Bracket>
        ensures { MatchOption result (has_bracket (stack self.old) ≡ false) (λ b.
            stack self.old ≡ bracket_view b ∷ stack self.new) }
    {
        match self.pop() {
            Some(Frame::Bracket(bracket)) => Some(bracket),
            Some(Frame::Operand(_)) => None,
            None => None,
        }
    }

    /// The least level of what may stand there.
    pub(crate) fn least_level(&self) -> u32
        ensures { result ≡ machine.needed (stack self.now) }
    {
        match self.frames.last() {
            Some(frame) => frame.needs(),
            None => 1,
        }
    }

    /// Whether the innermost is a unary minus.
    pub(crate) fn is_behind_minus(&self) -> bool
        ensures { result ≡ machine.behind_minus (stack self.now) }
    {
        match self.frames.last() {
            Some(frame) => frame.is_minus(),
            None => false,
        }
    }

    /// Whether a statement expression can still come of it.
    pub(crate) fn is_open(&self) -> bool
        ensures { result ≡ machine.is_open (stack self.now) }
    {
        match self.frames.first() {
            Some(frame) => frame.is_bottom(),
            None => true,
        }
    }

    /// Whether nothing has been begun.
    pub(crate) fn is_empty(&self) -> bool
        ensures { result ≡ is_nil (stack self.now) }
    {
        self.frames.is_empty()
    }

    /// Whether what ends here is a statement expression, where the expression itself is one or
    /// isn't.
    pub(crate) fn is_form(&self, is_statement: bool) -> bool
        ensures { result ≡ is_form is_statement (stack self.now) }
    {
        match self.frames.first() {
            Some(frame) => frame.is_bottom(),
            None => is_statement,
        }
    }

    /// Whether an expression can end here, where what stands there is a target or not.
    pub(crate) fn ends(&self, is_target: bool) -> bool
        ensures { result ≡ ends is_target (stack self.now) }
    {
        match self.frames.last() {
            Some(frame) => {
                if frame.ends_when(false) {
                    self.waiting == 0
                } else {
                    frame.ends_when(is_target) & (self.waiting == 1)
                }
            }
            None => true,
        }
    }
}
