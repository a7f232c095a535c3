//! Keys, declarations and types from their texts.
use jr_ast::Name;
use jr_table::{ClassKey, CtorKey, Decl, FieldKey, LocalKey, MemberKey, MethodKey, Ty, Tys};
use std::alloc::Global;
use std::process::Abort;

pub(crate) fn name_of(rt: &impl Abort, alloc: Global, text: &str) -> Name {
    Name::new(alloc, text).expect(rt, "memory")
}

/// A class: `K`, or `O.K` where K is a member of O.
pub(crate) fn class_key(rt: &impl Abort, alloc: Global, text: &str) -> ClassKey {
    match text.split_once(".") {
        None => ClassKey {
            outer: None,
            name: name_of(rt, alloc, text),
        },
        Some((outer, name)) => ClassKey {
            outer: Some(name_of(rt, alloc, outer)),
            name: name_of(rt, alloc, name),
        },
    }
}

/// A type.
pub(crate) fn ty(rt: &impl Abort, alloc: Global, text: &str) -> Ty {
    match text {
        "int" => Ty::Int,
        "boolean" => Ty::Boolean,
        "null" => Ty::Null,
        _ => Ty::Class(class_key(rt, alloc, text)),
    }
}

/// The types that spaces part.
pub(crate) fn tys(rt: &impl Abort, alloc: Global, texts: &str) -> Tys {
    let mut tys = Vec::new(alloc);
    for text in texts.split(' ') {
        if !text.is_empty() {
            tys.push(ty(rt, alloc, text)).expect(rt, "memory");
        }
    }
    Tys::from_vec(tys).expect(rt, "memory")
}

/// A field of a class.
pub(crate) fn field_key(rt: &impl Abort, alloc: Global, class: &str, name: &str) -> FieldKey {
    let class = class_key(rt, alloc, class);
    let name = name_of(rt, alloc, name);
    FieldKey { class, name }
}

/// A method of a class, with parameters of these types.
pub(crate) fn method_key(
    rt: &impl Abort,
    alloc: Global,
    class: &str,
    name: &str,
    params: &str,
) -> MethodKey {
    let class = class_key(rt, alloc, class);
    let name = name_of(rt, alloc, name);
    let params = tys(rt, alloc, params);
    MethodKey {
        class,
        name,
        params,
    }
}

/// A constructor of a class, with parameters of these types.
pub(crate) fn ctor_key(rt: &impl Abort, alloc: Global, class: &str, params: &str) -> CtorKey {
    let class = class_key(rt, alloc, class);
    let params = tys(rt, alloc, params);
    CtorKey { class, params }
}

/// A local of the class's head.
pub(crate) fn local_key(rt: &impl Abort, alloc: Global, class: &str, number: u32) -> LocalKey {
    let member = MemberKey::Head(class_key(rt, alloc, class));
    LocalKey { member, number }
}

/// A declaration of a class, of the kind that the first word tells; of locals the first one of the
/// class's head, of a method or of a constructor.
pub(crate) fn decl(
    rt: &impl Abort,
    alloc: Global,
    kind: &str,
    class: &str,
    name: &str,
    params: &str,
) -> Box<Decl> {
    let decl = match kind {
        "class" => Decl::Class(class_key(rt, alloc, class)),
        "field" => Decl::Field(field_key(rt, alloc, class, name)),
        "method" => Decl::Method(method_key(rt, alloc, class, name, params)),
        "ctor" => Decl::Ctor(ctor_key(rt, alloc, class, params)),
        _ => Decl::Local(local_key(rt, alloc, class, 0)),
    };
    Box::new(alloc, decl).expect(rt, "memory")
}
