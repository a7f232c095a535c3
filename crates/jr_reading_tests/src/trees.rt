//! Nodes made by hand.
use jr_ast::{
    BinOp, Class, Expr, Ident, Member, ModWord, Modifier, Name, Param, Stmt, TypeKind, TypeRef,
    UnOp, Unit,
};
use std::alloc::Global;
use std::process::Abort;

// A mark that is a number. What handles trees takes any such mark, since a tree of one type costs
// its proof more than a tree of a type parameter.
pub(crate) trait Numbered: Drop {
    fn of(number: u32) -> Self;

    fn number(&self) -> u32;
}

impl Numbered for u32 {
    fn of(number: u32) -> u32 {
        number
    }

    fn number(&self) -> u32 {
        *self
    }
}

pub(crate) fn word<A: Numbered>(rt: &impl Abort, alloc: Global, mark: u32, text: &str) -> Ident<A> {
    let name = Name::new(alloc, text).expect(rt, "memory");
    let mark = A::of(mark);
    Ident { mark, name }
}

// A class as a type, with the marks from this one on.
pub(crate) fn class_type<A: Numbered>(
    rt: &impl Abort,
    alloc: Global,
    mark: u32,
    text: &str,
) -> TypeRef<A> {
    let name = word(rt, alloc, mark.wrapping_add(1), text);
    let mark = A::of(mark);
    let kind = TypeKind::Named(None, name);
    TypeRef { mark, kind }
}

// `O.` and a class, as a type.
pub(crate) fn member_type<A: Numbered>(rt: &impl Abort, alloc: Global, text: &str) -> TypeRef<A> {
    let outer = word(rt, alloc, 0, "O");
    let name = word(rt, alloc, 0, text);
    let mark = A::of(0);
    let kind = TypeKind::Named(Some(outer), name);
    TypeRef { mark, kind }
}

pub(crate) fn in_box<A: Numbered>(rt: &impl Abort, alloc: Global, expr: Expr<A>) -> Box<Expr<A>> {
    Box::new(alloc, expr).expect(rt, "memory")
}

// A name as an expression, with the marks from this one on.
pub(crate) fn simple<A: Numbered>(
    rt: &impl Abort,
    alloc: Global,
    mark: u32,
    text: &str,
) -> Box<Expr<A>> {
    let name = word(rt, alloc, mark.wrapping_add(1), text);
    in_box(rt, alloc, Expr::simple(A::of(mark), name))
}

pub(crate) fn literal<A: Numbered>(
    rt: &impl Abort,
    alloc: Global,
    mark: u32,
    value: u32,
) -> Box<Expr<A>> {
    in_box(rt, alloc, Expr::number(A::of(mark), value))
}

pub(crate) fn unary<A: Numbered>(
    rt: &impl Abort,
    alloc: Global,
    op: UnOp,
    of: Box<Expr<A>>,
) -> Box<Expr<A>> {
    in_box(rt, alloc, Expr::unary(A::of(0), op, of))
}

pub(crate) fn plus<A: Numbered>(
    rt: &impl Abort,
    alloc: Global,
    mark: u32,
    left: Box<Expr<A>>,
    right: Box<Expr<A>>,
) -> Box<Expr<A>> {
    in_box(
        rt,
        alloc,
        Expr::binary(A::of(mark), BinOp::Add, left, right),
    )
}

pub(crate) fn field<A: Numbered>(
    rt: &impl Abort,
    alloc: Global,
    of: Box<Expr<A>>,
    text: &str,
) -> Box<Expr<A>> {
    let name = word(rt, alloc, 0, text);
    in_box(rt, alloc, Expr::field(A::of(0), of, name))
}

pub(crate) fn put_arg<A: Numbered>(rt: &impl Abort, args: &mut Vec<Expr<A>>, arg: Box<Expr<A>>) {
    args.push(Box::into_inner(arg)).expect(rt, "memory");
}

pub(crate) fn boxed_stmt<A: Numbered>(
    rt: &impl Abort,
    alloc: Global,
    stmt: Stmt<A>,
) -> Box<Stmt<A>> {
    Box::new(alloc, stmt).expect(rt, "memory")
}

pub(crate) fn put_stmt<A: Numbered>(rt: &impl Abort, body: &mut Vec<Stmt<A>>, stmt: Box<Stmt<A>>) {
    body.push(Box::into_inner(stmt)).expect(rt, "memory");
}

// A block's statements, of which there is one.
pub(crate) fn body_of<A: Numbered>(
    rt: &impl Abort,
    alloc: Global,
    stmt: Box<Stmt<A>>,
) -> Vec<Stmt<A>> {
    let mut body = Vec::new(alloc);
    put_stmt(rt, &mut body, stmt);
    body
}

pub(crate) fn put_member<A: Numbered>(
    rt: &impl Abort,
    members: &mut Vec<Member<A>>,
    member: Member<A>,
) {
    members.push(member).expect(rt, "memory");
}

// `static`
pub(crate) fn statics<A: Numbered>(rt: &impl Abort, alloc: Global, mark: u32) -> Vec<Modifier<A>> {
    let mark = A::of(mark);
    let word = ModWord::Static;
    let mut modifiers = Vec::new(alloc);
    modifiers.push(Modifier { mark, word }).expect(rt, "memory");
    modifiers
}

// One parameter, with the marks from this one on.
pub(crate) fn param<A: Numbered>(
    rt: &impl Abort,
    alloc: Global,
    mark: u32,
    kind: TypeKind<A>,
    text: &str,
) -> Vec<Param<A>> {
    let name = word(rt, alloc, mark.wrapping_add(2), text);
    let ty = TypeRef {
        mark: A::of(mark.wrapping_add(1)),
        kind,
    };
    let param = Param {
        mark: A::of(mark),
        is_final: false,
        ty,
        name,
    };
    let mut params = Vec::new(alloc);
    params.push(param).expect(rt, "memory");
    params
}

// A file of one class.
pub(crate) fn file<A: Numbered>(
    rt: &impl Abort,
    alloc: Global,
    mark: u32,
    package: Vec<Ident<A>>,
    class: Class<A>,
) -> Unit<A> {
    let mut classes = Vec::new(alloc);
    classes.push(class).expect(rt, "memory");
    Unit::new(A::of(mark), package, classes)
}

// `class A { m() { body } }`, with the marks 0 to 4.
pub(crate) fn unit_of<A: Numbered>(rt: &impl Abort, alloc: Global, body: Vec<Stmt<A>>) -> Unit<A> {
    let name = word(rt, alloc, 4, "m");
    let method = Member::method(A::of(3), Vec::new(alloc), None, name, Vec::new(alloc), body);
    let mut members = Vec::new(alloc);
    put_member(rt, &mut members, method);
    let name = word(rt, alloc, 2, "A");
    let class = Class::new(A::of(1), Vec::new(alloc), name, None, members);
    file(rt, alloc, 0, Vec::new(alloc), class)
}
