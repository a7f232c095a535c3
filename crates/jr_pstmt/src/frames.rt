//! What has been begun, and waits for a statement or its closing brace.
ghost use Rattle.std.specs.Prelude.{◌≡◌, true, false};
ghost use Rattle.jr_pstmt.specs.FrameView.{frame_view};
ghost use Rattle.jr_pstmt.specs.Blocks.{is_list};

use jr_ast::{Expr, Ident, Stmt, TypeRef};
use jr_text::Span;

/// What an expression in parentheses stands behind.
#[derive(Clone, Copy)]
pub(crate) enum Head {
    If,
    While,
    Sync,
}

/// What an expression is to become a part of.
#[derive(Drop)]
pub(crate) enum Slot {
    Local(Span, bool, TypeRef<Span>, Ident<Span>),
    Return(Span),
    Head(Span, Head),
}

/// What ends with the statement that it waits for.
#[derive(Drop)]
pub(crate) enum Branch {
    Then(Span, Box<Expr<Span>>),
    Else(Span, Box<Expr<Span>>, Box<Stmt<Span>>),
    Loop(Span, Box<Expr<Span>>),
}

/// What waits for its closing brace, with the statements so far.
#[derive(Drop)]
pub(crate) enum Block {
    Plain(Span, Vec<Stmt<Span>>),
    Sync(Span, Box<Expr<Span>>, Vec<Stmt<Span>>),
}

/// What has been begun.
#[derive(Drop)]
pub(crate) enum Frame {
    Branch(Branch),
    Block(Block),
}

impl Frame {
    /// Whether statements stand in it as in a list.
    pub(crate) fn is_list(&self) -> bool
        ensures { result ≡ is_list (frame_view self.now) }
    {
        match self {
            Frame::Branch(_) => false,
            Frame::Block(_) => true,
        }
    }
}
