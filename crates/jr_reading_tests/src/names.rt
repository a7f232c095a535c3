//! How declarations are written, and what is needed at a place.
use crate::keys::{ctor_key, decl, method_key};
use crate::rows::{assert_same, cut_at};
use jr_names::{Need, decl_text};
use jr_table::{Decl, LocalKey, MemberKey};
use std::alloc::Global;
use std::process::Abort;

/// A declaration's kind, class, name and parameters, and how the formats write it out.
pub(crate) const ROWS: &'static str = "
~text class K - => K
~text class O.K - => O.K
~text field K x => K.x
~text method K m => K.m()
~text method K m int B => K.m(int,B)
~text method K n boolean O.K int => K.n(boolean,O.K,int)
~text ctor K - int => K.new(int)
";

/// How a declaration is written.
pub(crate) fn write_name(rt: &impl Abort, alloc: Global, asked: &str) -> String {
    let (kind, rest) = cut_at(asked, " ");
    let (class, rest) = cut_at(rest, " ");
    let (name, params) = cut_at(rest, " ");
    let decl = decl(rt, alloc, kind, class, name, params);
    let text = decl_text(alloc, &decl).expect(rt, "memory");
    String::from_str(alloc, text.as_str()).expect(rt, "memory")
}

fn assert_local(rt: &impl Abort, alloc: Global, member: MemberKey, number: u32, expected: &str) {
    let decl = Box::new(alloc, Decl::Local(LocalKey { member, number })).expect(rt, "memory");
    let text = decl_text(alloc, &decl).expect(rt, "memory");
    assert_same(rt, text.as_str(), expected);
}

#[test]
fn texts_of_locals(rt: HostRuntime) {
    let alloc = rt.alloc();
    let method = MemberKey::Method(method_key(&rt, alloc, "K", "m", ""));
    assert_local(&rt, alloc, method, 0, "K.m()#0");
    let ctor = MemberKey::Ctor(ctor_key(&rt, alloc, "O.K", ""));
    assert_local(&rt, alloc, ctor, 12, "O.K.new()#12");
    assert_same(&rt, Need::OneUse.name(), "OneUse");
}
