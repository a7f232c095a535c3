//! What a place of a class sees.
use crate::keys::{class_key, local_key, name_of};
use jr_lookup::{Scope, ScopeLocal, ScopeLocals};
use std::alloc::Global;
use std::process::Abort;

/// A place of a class where locals of these names, which spaces part, are in scope, numbered from
/// 0.
pub(crate) fn scope(
    rt: &impl Abort,
    alloc: Global,
    class: &str,
    is_static: bool,
    names: &str,
) -> Scope {
    let mut locals = Vec::new(alloc);
    let mut number = 0u32;
    for name in names.split(' ') {
        if !name.is_empty() {
            let name = name_of(rt, alloc, name);
            let key = local_key(rt, alloc, class, number);
            locals.push(ScopeLocal { name, key }).expect(rt, "memory");
            number = number.wrapping_add(1);
        }
    }
    Scope {
        class: class_key(rt, alloc, class),
        is_static,
        locals: ScopeLocals::from_vec(locals),
    }
}
