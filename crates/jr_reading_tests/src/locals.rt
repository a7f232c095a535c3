//! Which locals are found while scopes are entered and left.
use crate::keys::name_of;
use jr_ast::Name;
use jr_scopes::{Held, HeldType, Locals};
use jr_table::Kind;

fn local<'a>(name: &'a Name, number: u32) -> Held<'a> {
    Held {
        name,
        number,
        is_final: false,
        ty: HeldType::Int,
        has_init: true,
        kind: Some(Kind::Int),
    }
}

#[test]
fn the_one_before_is_found_again(rt: HostRuntime) {
    let a = name_of(&rt, rt.alloc(), "a");
    let b = name_of(&rt, rt.alloc(), "b");
    let mut locals = Locals::new(rt.alloc());
    locals.push(local(&a, 0)).expect(&rt, "memory");
    locals.push(local(&b, 1)).expect(&rt, "memory");
    locals.push(local(&a, 2)).expect(&rt, "memory");
    assert!(rt; locals.number_named(&a) == Some(2));
    locals.truncate(2).expect(&rt, "memory");
    assert!(rt; locals.number_named(&a) == Some(0));
    assert!(rt; locals.number_named(&b) == Some(1));
    assert!(rt; locals.held_numbered(2).is_none());
    locals.truncate(1).expect(&rt, "memory");
    assert!(rt; locals.number_named(&b) == None);
}
