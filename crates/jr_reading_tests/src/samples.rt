//! Trees made by hand.
use crate::trees::{
    Numbered, body_of, boxed_stmt, class_type, file, literal, param, plus, put_arg, put_member,
    simple, statics, word,
};
use jr_ast::{Class, Expr, Member, Stmt, TypeKind, Unit};
use std::alloc::Global;
use std::process::Abort;

// `x + 1`
pub(crate) fn sum<A: Numbered>(rt: &impl Abort, alloc: Global) -> Box<Expr<A>> {
    let left = simple(rt, alloc, 31, "x");
    let right = literal(rt, alloc, 33, 1);
    plus(rt, alloc, 30, left, right)
}

// `m(x + 1);`
pub(crate) fn call<A: Numbered>(rt: &impl Abort, alloc: Global) -> Box<Stmt<A>> {
    let mut args = Vec::new(alloc);
    put_arg(rt, &mut args, sum(rt, alloc));
    let name = word(rt, alloc, 29, "m");
    let call = Expr::call(A::of(28), name, args);
    boxed_stmt(rt, alloc, Stmt::eval(A::of(27), call))
}

// `static void m(boolean b) { m(x + 1); }`
pub(crate) fn method<A: Numbered>(rt: &impl Abort, alloc: Global) -> Member<A> {
    let name = word(rt, alloc, 22, "m");
    let modifiers = statics(rt, alloc, 21);
    let params = param(rt, alloc, 23, TypeKind::Boolean, "b");
    let body = body_of(rt, alloc, call(rt, alloc));
    Member::method(A::of(20), modifiers, None, name, params, body)
}

// `package p; class A extends B { static void m(boolean b) { m(x + 1); } }`
pub(crate) fn unit<A: Numbered>(rt: &impl Abort, alloc: Global) -> Unit<A> {
    let mut members = Vec::new(alloc);
    put_member(rt, &mut members, method(rt, alloc));
    let name = word(rt, alloc, 11, "A");
    let parent = class_type(rt, alloc, 12, "B");
    let class = Class::new(A::of(10), Vec::new(alloc), name, Some(parent), members);
    let mut package = Vec::new(alloc);
    package.push(word(rt, alloc, 2, "p")).expect(rt, "memory");
    file(rt, alloc, 1, package, class)
}
