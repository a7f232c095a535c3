//! What has been begun, and waits for an expression.
ghost use Rattle.std.specs.Prelude.{◌≡◌};
ghost use Rattle.jr_grammar.specs.Shape.{is_minus};
ghost use Rattle.jr_pexpr.specs.Machine as machine;
ghost use Rattle.jr_pexpr.specs.FrameView.{operand_view, frame_view};
ghost use Rattle.jr_pexpr.specs.Stacks.{ends_when};

use crate::pieces::Way;
use crate::ranks::{ASSIGNMENT_LEVEL, PRIMARY_LEVEL, SIGN_LEVEL, UNSIGNED_LEVEL, rank, unary_rank};
use jr_ast::{BinOp, Expr, Ident, TypeRef, UnOp};
use jr_text::Span;

/// What waits for an operand, and ends with it.
#[derive(Drop)]
pub(crate) enum Operand {
    Unary(Span, UnOp),
    Bump(Span, Way),
    Binary(BinOp, Box<Expr<Span>>),
    Assign(Box<Expr<Span>>),
    Compound(BinOp, Box<Expr<Span>>),
    Cast(Span, TypeRef<Span>),
}

/// What stands before the arguments of a call or of `new`, with where it begins.
#[derive(Drop)]
pub(crate) enum Head {
    Call(Span, Option<Box<Expr<Span>>>, Ident<Span>),
    SuperCall(Span, Ident<Span>),
    Create(Span, TypeRef<Span>),
}

/// What waits for its closing token.
#[derive(Drop)]
pub(crate) enum Bracket {
    Paren(Span),
    Args(Head, Vec<Expr<Span>>),
}

/// What has been begun, and waits for an expression.
#[derive(Drop)]
pub(crate) enum Frame {
    Operand(Operand),
    Bracket(Bracket),
}

impl Operand {
    /// How tightly it binds.
    fn binds(&self) -> u32
        ensures { result ≡ machine.binds (operand_view self.now) }
    {
        match self {
            Operand::Unary(_, op) => unary_rank(*op),
            Operand::Bump(_, _) => SIGN_LEVEL,
            Operand::Binary(op, _) => rank(*op),
            Operand::Assign(_) => ASSIGNMENT_LEVEL,
            Operand::Compound(_, _) => ASSIGNMENT_LEVEL,
            Operand::Cast(_, _) => UNSIGNED_LEVEL,
        }
    }

    /// The least level of what may stand in it.
    fn needs(&self) -> u32
        ensures { result ≡ machine.needs (operand_view self.now) }
    {
        match self {
            Operand::Unary(_, _) => SIGN_LEVEL,
            Operand::Bump(_, _) => PRIMARY_LEVEL,
            Operand::Binary(op, _) => rank(*op) + 1,
            Operand::Assign(_) => ASSIGNMENT_LEVEL,
            Operand::Compound(_, _) => ASSIGNMENT_LEVEL,
            Operand::Cast(_, _) => UNSIGNED_LEVEL,
        }
    }

    /// Whether it is a unary minus.
    fn is_minus(&self) -> bool
        ensures { result ≡ machine.is_behind_minus (operand_view self.now) }
    {
        match self {
            Operand::Unary(_, op) => is_minus_sign(*op),
            Operand::Bump(_, _) => false,
            Operand::Binary(_, _) => false,
            Operand::Assign(_) => false,
            Operand::Compound(_, _) => false,
            Operand::Cast(_, _) => false,
        }
    }

    /// Whether a statement expression may begin with it: an assignment, or `++` or `--`.
    fn is_bottom(&self) -> bool
        ensures { result ≡ machine.is_bottom (operand_view self.now) }
    {
        match self {
            Operand::Unary(_, _) => false,
            Operand::Bump(_, _) => true,
            Operand::Binary(_, _) => false,
            Operand::Assign(_) => true,
            Operand::Compound(_, _) => true,
            Operand::Cast(_, _) => false,
        }
    }

    /// Whether it ends with a target in it, or with what is none.
    fn ends_when(&self, is_target: bool) -> bool
        ensures { result ≡ ends_when is_target (operand_view self.now) }
    {
        match self {
            Operand::Unary(_, _) => true,
            Operand::Bump(_, _) => is_target,
            Operand::Binary(_, _) => true,
            Operand::Assign(_) => true,
            Operand::Compound(_, _) => true,
            Operand::Cast(_, _) => true,
        }
    }
}

fn is_minus_sign(op: UnOp) -> bool
    ensures { result ≡ is_minus op }
{
    match op {
        UnOp::Minus => true,
        UnOp::Plus | UnOp::Not => false,
    }
}

impl Frame {
    /// How tightly it binds; a bracket, which waits for its end, has 0.
    pub(crate) fn binds(&self) -> u32
        ensures { result ≡ machine.binds (frame_view self.now) }
    {
        match self {
            Frame::Operand(operand) => operand.binds(),
            Frame::Bracket(Bracket::Paren(_)) => 0,
            Frame::Bracket(Bracket::Args(_, _)) => 0,
        }
    }

    /// The least level of what may stand in it.
    pub(crate) fn needs(&self) -> u32
        ensures { result ≡ machine.needs (frame_view self.now) }
    {
        match self {
            Frame::Operand(operand) => operand.needs(),
            Frame::Bracket(Bracket::Paren(_)) => ASSIGNMENT_LEVEL,
            Frame::Bracket(Bracket::Args(_, _)) => ASSIGNMENT_LEVEL,
        }
    }

    /// Whether it is a unary minus.
    pub(crate) fn is_minus(&self) -> bool
        ensures { result ≡ machine.is_behind_minus (frame_view self.now) }
    {
        match self {
            Frame::Operand(operand) => operand.is_minus(),
            Frame::Bracket(Bracket::Paren(_)) => false,
            Frame::Bracket(Bracket::Args(_, _)) => false,
        }
    }

    /// Whether a statement expression may begin with it: no operator, sign, `!` or cast.
    pub(crate) fn is_bottom(&self) -> bool
        ensures { result ≡ machine.is_bottom (frame_view self.now) }
    {
        match self {
            Frame::Operand(operand) => operand.is_bottom(),
            Frame::Bracket(Bracket::Paren(_)) => true,
            Frame::Bracket(Bracket::Args(_, _)) => true,
        }
    }

    /// Whether it ends with a target in it, or with what is none; a bracket waits for its closing
    /// token.
    pub(crate) fn ends_when(&self, is_target: bool) -> bool
        ensures { result ≡ ends_when is_target (frame_view self.now) }
    {
        match self {
            Frame::Operand(operand) => operand.ends_when(is_target),
            Frame::Bracket(Bracket::Paren(_)) => false,
            Frame::Bracket(Bracket::Args(_, _)) => false,
        }
    }
}
