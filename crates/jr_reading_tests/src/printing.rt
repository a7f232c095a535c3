//! Trees made by hand, and their texts: those that the rules of layout in docs/DEFINITIONS.md give.
use crate::rows::assert_same;
use crate::trees::{
    Numbered, body_of, boxed_stmt, class_type, field, in_box, literal, member_type, param, plus,
    put_arg, put_member, simple, statics, unary, word,
};
use jr_ast::{BumpOp, Class, Expr, Member, Name, Stmt, TypeKind, TypeRef, UnOp};
use jr_print::{expr_text, member_text, stmt_text};
use std::alloc::Global;
use std::process::Abort;

// `-(-a) + 1`
fn sum<A: Numbered>(rt: &impl Abort, alloc: Global) -> Box<Expr<A>> {
    let inner = unary(rt, alloc, UnOp::Minus, simple(rt, alloc, 0, "a"));
    let inner = in_box(rt, alloc, Expr::paren(A::of(0), inner));
    let left = unary(rt, alloc, UnOp::Minus, inner);
    plus(rt, alloc, 0, left, literal(rt, alloc, 0, 1))
}

// `return -(-a) + 1;`
fn return_of_the_sum<A: Numbered>(rt: &impl Abort, alloc: Global) -> Box<Stmt<A>> {
    let value = Box::into_inner(sum(rt, alloc));
    boxed_stmt(rt, alloc, Stmt::return_value(A::of(0), Some(value)))
}

// `int m(int a) { return -(-a) + 1; }`
fn method<A: Numbered>(rt: &impl Abort, alloc: Global) -> Member<A> {
    let body = body_of(rt, alloc, return_of_the_sum(rt, alloc));
    let params = param(rt, alloc, 0, TypeKind::Int, "a");
    let name = word(rt, alloc, 0, "m");
    let int = TypeRef {
        mark: A::of(0),
        kind: TypeKind::Int,
    };
    Member::method(A::of(0), Vec::new(alloc), Some(int), name, params, body)
}

// `K(int a) { super(a); }`
fn constructor<A: Numbered>(rt: &impl Abort, alloc: Global) -> Member<A> {
    let mut args = Vec::new(alloc);
    put_arg(rt, &mut args, simple(rt, alloc, 0, "a"));
    let params = param(rt, alloc, 0, TypeKind::Int, "a");
    let name = word(rt, alloc, 0, "K");
    let body = Vec::new(alloc);
    Member::ctor(A::of(0), Vec::new(alloc), name, params, Some(args), body)
}

// `static class K extends O.B { K(int a) { super(a); } int m(int a) { return -(-a) + 1; } }`
fn class<A: Numbered>(rt: &impl Abort, alloc: Global) -> Member<A> {
    let mut members = Vec::new(alloc);
    put_member(rt, &mut members, constructor(rt, alloc));
    put_member(rt, &mut members, method(rt, alloc));
    let modifiers = statics(rt, alloc, 0);
    let parent = member_type(rt, alloc, "B");
    let name = word(rt, alloc, 0, "K");
    Member::inner(
        A::of(0),
        Class::new(A::of(0), modifiers, name, Some(parent), members),
    )
}

// `- --a`
fn minus_of_a_decrement<A: Numbered>(rt: &impl Abort, alloc: Global) -> Box<Expr<A>> {
    let decrement = Expr::bump(A::of(0), BumpOp::PreDec, simple(rt, alloc, 0, "a"));
    unary(rt, alloc, UnOp::Minus, in_box(rt, alloc, decrement))
}

// `new O.K(1, 2).f`
fn field_of_what_was_made<A: Numbered>(rt: &impl Abort, alloc: Global) -> Box<Expr<A>> {
    let mut args = Vec::new(alloc);
    put_arg(rt, &mut args, literal(rt, alloc, 0, 1));
    put_arg(rt, &mut args, literal(rt, alloc, 0, 2));
    let ty = Box::new(alloc, member_type(rt, alloc, "K")).expect(rt, "memory");
    let made = in_box(rt, alloc, Expr::create(A::of(0), ty, args));
    field(rt, alloc, made, "f")
}

// `(K) !a`
fn cast<A: Numbered>(rt: &impl Abort, alloc: Global) -> Box<Expr<A>> {
    let not = unary(rt, alloc, UnOp::Not, simple(rt, alloc, 0, "a"));
    let ty = Box::new(alloc, class_type(rt, alloc, 0, "K")).expect(rt, "memory");
    in_box(rt, alloc, Expr::cast(A::of(0), ty, not))
}

// `"a\n"`
fn string<A: Numbered>(rt: &impl Abort, alloc: Global) -> Box<Expr<A>> {
    let text = Name::new(alloc, "a\\n").expect(rt, "memory");
    in_box(rt, alloc, Expr::string(A::of(0), text))
}

fn assert_expr<A: Numbered>(rt: &impl Abort, alloc: Global, expr: Box<Expr<A>>, expected: &str) {
    let text = expr_text(alloc, &expr).expect(rt, "memory");
    assert_same(rt, text.as_str(), expected);
}

fn assert_exprs<A: Numbered>(rt: &impl Abort, alloc: Global) {
    assert_expr::<A>(rt, alloc, sum(rt, alloc), "-(-a) + 1");
    assert_expr::<A>(rt, alloc, minus_of_a_decrement(rt, alloc), "- --a");
    assert_expr::<A>(
        rt,
        alloc,
        field_of_what_was_made(rt, alloc),
        "new O.K(1, 2).f",
    );
    assert_expr::<A>(rt, alloc, cast(rt, alloc), "(K) !a");
    assert_expr::<A>(
        rt,
        alloc,
        field(rt, alloc, literal(rt, alloc, 0, 1), "x"),
        "1 .x",
    );
    assert_expr::<A>(rt, alloc, string(rt, alloc), "\"a\\n\"");
}

// `if (a) return -(-a) + 1; else { }`
fn branches<A: Numbered>(rt: &impl Abort, alloc: Global) -> Box<Stmt<A>> {
    let condition = Box::into_inner(simple(rt, alloc, 0, "a"));
    let yes = return_of_the_sum(rt, alloc);
    let no = boxed_stmt(rt, alloc, Stmt::block(A::of(0), Vec::new(alloc)));
    boxed_stmt(rt, alloc, Stmt::if_else(A::of(0), condition, yes, no))
}

fn stmt_shown<A: Numbered>(rt: &impl Abort, alloc: Global, stmt: Box<Stmt<A>>) -> String {
    stmt_text(alloc, &stmt).expect(rt, "memory")
}

fn assert_stmts<A: Numbered>(rt: &impl Abort, alloc: Global) {
    let first = stmt_shown::<A>(rt, alloc, return_of_the_sum(rt, alloc));
    assert_same(rt, first.as_str(), "return -(-a) + 1;");
    let second = stmt_shown::<A>(rt, alloc, branches(rt, alloc));
    assert_same(rt, second.as_str(), "if (a) return -(-a) + 1; else { }");
}

fn member_shown<A: Numbered>(rt: &impl Abort, alloc: Global, member: Member<A>) -> String {
    member_text(alloc, &member).expect(rt, "memory")
}

fn assert_members<A: Numbered>(rt: &impl Abort, alloc: Global) {
    let first = member_shown::<A>(rt, alloc, method(rt, alloc));
    assert_same(rt, first.as_str(), "int m(int a) { return -(-a) + 1; }");
    let second = member_shown::<A>(rt, alloc, class(rt, alloc));
    let expected =
        "static class K extends O.B { K(int a) { super(a); } int m(int a) { return -(-a) + 1; } }";
    assert_same(rt, second.as_str(), expected);
}

// `while (x) while (x) .. ;`, as many times
fn deep<A: Numbered>(rt: &impl Abort, alloc: Global, levels: u32) -> Box<Stmt<A>> {
    let mut stmt = boxed_stmt(rt, alloc, Stmt::empty(A::of(0)));
    for _ in 0..levels {
        let condition = Box::into_inner(simple(rt, alloc, 0, "x"));
        stmt = boxed_stmt(rt, alloc, Stmt::while_loop(A::of(0), condition, stmt));
    }
    stmt
}

// The last are as deep as statements nest in a text within the limits.
fn assert_texts<A: Numbered>(rt: &impl Abort, alloc: Global) {
    assert_exprs::<A>(rt, alloc);
    assert_stmts::<A>(rt, alloc);
    assert_members::<A>(rt, alloc);
    let long = stmt_shown::<A>(rt, alloc, deep(rt, alloc, 8000));
    assert!(rt; long.len() == 80_001);
}

#[test]
fn trees_have_the_texts_of_the_layout(rt: HostRuntime) {
    assert_texts::<u32>(&rt, rt.alloc());
}
