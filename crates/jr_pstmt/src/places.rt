//! Where a statement stands: in what has been begun, the innermost last, and the list below it.
ghost use Rattle.std.specs.Prelude.{◌≡◌, [], ◌∷◌, IfOk, MatchOption, option_map};
ghost use Rattle.std.specs.List.{count_by};
ghost use Rattle.std.specs.Option.{is_some};
ghost use Rattle.jr_ast.specs.StatementTree as tree;
ghost use Rattle.jr_pstmt.specs.StatementMachine as machine;
ghost use Rattle.jr_pstmt.specs.FrameView.{frame_view};
ghost use Rattle.jr_pstmt.specs.Blocks.{holds, has_no_list};
ghost use Rattle.jr_pstmt.specs.StatementView.{stmt_in, stmts_in};

use crate::frames::Frame;
use crate::made::Made;
use jr_ast::Stmt;
use jr_text::Span;
use std::alloc::Global;

/// What has been begun, the innermost last, and the list of statements below it.
#[derive(Drop)]
pub(crate) struct Place {
    frames: Vec<Frame>,
    /// How many of them are lists.
    lists: usize,
    stmts: Vec<Stmt<Span>>,
    ghost counted: { lists ≡ count_by holds frames.items },
}

impl Place {
    ghost use Rattle.jr_pstmt.specs.PlaceView.{on, all, place_view};

    pub(crate) fn new(alloc: Global) -> Place
        ensures { place_view result ≡ machine.place [] tree.end }
    {
        Place {
            frames: Vec::new(alloc),
            lists: 0,
            stmts: Vec::new(alloc),
        }
    }

    pub(crate) fn push(&mut self, frame: Frame) -> Made<()>
        ensures on { IfOk result (λ _. on self.new ≡ frame_view frame ∷ on self.old) }
        ensures all { IfOk result (λ _. all self.new ≡ all self.old) }
    {
        let is_list = frame.is_list();
        self.frames.push(frame)?;
        if is_list {
            self.lists += 1;
        }
        Ok(())
    }

    pub(crate) fn pop(&mut self) -> Option<Frame>
        ensures on { MatchOption result ((on self.old ≡ []) × (on self.new ≡ [])) (λ f.
            on self.old ≡ frame_view f ∷ on self.new) }
        ensures all { all self.new ≡ all self.old }
    {
        match self.frames.pop() {
            Some(frame) => {
                if frame.is_list() {
                    self.lists -= 1;
                    Some(frame)
                } else {
                    Some(frame)
                }
            }
            None => None,
        }
    }

    /// The list below gets one more statement.
    pub(crate) fn add(&mut self, stmt: Box<Stmt<Span>>) -> Made<()>
        ensures on { IfOk result (λ _. on self.new ≡ on self.old) }
        ensures all { IfOk result (λ _. all self.new
            ≡ machine.with_stmt (all self.old) (stmt_in stmt)) }
    {
        self.stmts.push(Box::into_inner(stmt))?;
        Ok(())
    }

    /// Whether a statement here stands in a list, so that a local may be declared.
    pub(crate) fn may_declare(&self) -> bool
        ensures { result ≡ machine.may_declare (on self.now) }
    {
        match self.frames.last() {
            Some(frame) => frame.is_list(),
            None => true,
        }
    }

    /// Whether nothing has been begun.
    pub(crate) fn is_empty(&self) -> bool
        ensures { result ≡ is_some (machine.whole_at (place_view self.now)) }
    {
        self.frames.is_empty()
    }

    /// Whether no list has been begun.
    pub(crate) fn has_no_list(&self) -> bool
        ensures { result ≡ has_no_list (on self.now) }
    {
        self.lists == 0
    }

    /// The list below; `None` where anything has been begun.
    pub(crate) fn into_stmts(self) -> Option<Vec<Stmt<Span>>>
        ensures { option_map stmts_in result ≡ machine.whole_at (place_view self) }
    {
        if self.frames.is_empty() {
            Some(self.stmts)
        } else {
            None
        }
    }
}
