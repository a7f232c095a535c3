//! Statements (JLS 14).
ghost use Rattle.std.specs.Prelude.{◌≡◌, option_map};
ghost use Rattle.jr_ast.specs.StatementTree as tree;
ghost use Rattle.jr_ast.specs.View.{word_of, type_of, expr_of, stmt_of, stmts_of};

use crate::exprs::Expr;
use crate::names::Ident;
use crate::parts::TypeRef;

/// A statement (JLS 14).
#[cycle(stmt)]
#[derive(Drop)]
pub struct Stmt<A> {
    pub mark: A,
    pub kind: StmtKind<A>,
}

/// The kinds of statements.
#[cycle(stmt)]
pub enum StmtKind<A> {
    Local {
        is_final: bool,
        ty: TypeRef<A>,
        name: Ident<A>,
        init: Expr<A>,
    },
    Eval(Expr<A>),
    If(Expr<A>, Box<Stmt<A>>, Option<Box<Stmt<A>>>),
    While(Expr<A>, Box<Stmt<A>>),
    Return(Option<Expr<A>>),
    Block(Vec<Stmt<A>>),
    Sync(Expr<A>, Vec<Stmt<A>>),
    Empty,
}

impl<A: Drop> Drop for StmtKind<A> {
    // The last statement that this one holds is dropped by the loop: a call would take stack for
    // each of the thousands of `if` and `while` that a text may nest. What holds an enum goes by
    // `drop`: let go at a scope's end it would split each way out by its variants.
    #[cycle(stmt_drop)]
    fn drop(mut self) {
        loop {
            match self {
                StmtKind::Local {
                    is_final: _,
                    ty,
                    name: _name,
                    init,
                } => {
                    drop(ty);
                    return drop(init);
                }
                StmtKind::Eval(of) => return drop(of),
                StmtKind::If(condition, yes, no) => {
                    drop(condition);
                    let last = match no {
                        None => yes,
                        Some(no) => no,
                    };
                    let Stmt { mark: _mark, kind } = Box::into_inner(last);
                    self = kind;
                }
                StmtKind::While(condition, body) => {
                    drop(condition);
                    let Stmt { mark: _mark, kind } = Box::into_inner(body);
                    self = kind;
                }
                StmtKind::Return(value) => return drop(value),
                StmtKind::Block(_body) => return,
                StmtKind::Sync(lock, _body) => return drop(lock),
                StmtKind::Empty => return,
            }
        }
    }
}

impl<A> Stmt<A> {
    /// `ty name = init;`, perhaps `final` (JLS 14.4).
    #[tactic(auto, unfolding(crate::specs::View::stmt_kind))]
    pub fn local(mark: A, is_final: bool, ty: TypeRef<A>, name: Ident<A>, init: Expr<A>) -> Stmt<A>
        ensures { stmt_of result ≡ tree.local mark is_final (type_of ty) (word_of name)
            (expr_of init) }
    {
        Stmt {
            mark,
            kind: StmtKind::Local {
                is_final,
                ty,
                name,
                init,
            },
        }
    }

    /// `of;` (JLS 14.8).
    #[tactic(auto, unfolding(crate::specs::View::stmt_kind))]
    pub fn eval(mark: A, of: Expr<A>) -> Stmt<A>
        ensures { stmt_of result ≡ tree.eval mark (expr_of of) }
    {
        Stmt {
            mark,
            kind: StmtKind::Eval(of),
        }
    }

    /// `if (condition) yes` (JLS 14.9.1).
    #[tactic(auto, unfolding(crate::specs::View::stmt_kind))]
    pub fn if_then(mark: A, condition: Expr<A>, yes: Box<Stmt<A>>) -> Stmt<A>
        ensures { stmt_of result ≡ tree.branch mark (expr_of condition)
            (stmt_of yes.value) tree.no_else }
    {
        Stmt {
            mark,
            kind: StmtKind::If(condition, yes, None),
        }
    }

    /// `if (condition) yes else no` (JLS 14.9.2).
    #[tactic(auto, unfolding(crate::specs::View::stmt_kind))]
    pub fn if_else(mark: A, condition: Expr<A>, yes: Box<Stmt<A>>, no: Box<Stmt<A>>) -> Stmt<A>
        ensures { stmt_of result ≡ tree.branch mark (expr_of condition) (stmt_of yes.value)
            (tree.otherwise (stmt_of no.value)) }
    {
        Stmt {
            mark,
            kind: StmtKind::If(condition, yes, Some(no)),
        }
    }

    /// `while (condition) body` (JLS 14.12).
    #[tactic(auto, unfolding(crate::specs::View::stmt_kind))]
    pub fn while_loop(mark: A, condition: Expr<A>, body: Box<Stmt<A>>) -> Stmt<A>
        ensures { stmt_of result ≡ tree.loop mark (expr_of condition) (stmt_of body.value) }
    {
        Stmt {
            mark,
            kind: StmtKind::While(condition, body),
        }
    }

    /// `return value;` or `return;` (JLS 14.17).
    #[tactic(auto, unfolding(crate::specs::View::stmt_kind))]
    pub fn return_value(mark: A, value: Option<Expr<A>>) -> Stmt<A>
        ensures { stmt_of result ≡ tree.«return» mark (option_map expr_of value) }
    {
        Stmt {
            mark,
            kind: StmtKind::Return(value),
        }
    }

    /// `{ body }` (JLS 14.2).
    #[tactic(auto, unfolding(crate::specs::View::stmt_kind))]
    pub fn block(mark: A, body: Vec<Stmt<A>>) -> Stmt<A>
        ensures { stmt_of result ≡ tree.block mark (stmts_of body.items) }
    {
        Stmt {
            mark,
            kind: StmtKind::Block(body),
        }
    }

    /// `synchronized (lock) { body }` (JLS 14.19).
    #[tactic(auto, unfolding(crate::specs::View::stmt_kind))]
    pub fn sync(mark: A, lock: Expr<A>, body: Vec<Stmt<A>>) -> Stmt<A>
        ensures { stmt_of result ≡ tree.sync mark (expr_of lock) (stmts_of body.items) }
    {
        Stmt {
            mark,
            kind: StmtKind::Sync(lock, body),
        }
    }

    /// `;` (JLS 14.6).
    #[tactic(auto, unfolding(crate::specs::View::stmt_kind))]
    pub fn empty(mark: A) -> Stmt<A>
        ensures { stmt_of result ≡ tree.empty mark }
    {
        Stmt {
            mark,
            kind: StmtKind::Empty,
        }
    }
}
