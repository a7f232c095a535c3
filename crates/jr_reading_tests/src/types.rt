//! A tree of three levels: `a`, and `b` within a part that has no type.
use jr_ast::Path;
use jr_expr_types::Types;
use jr_table::Ty;
use std::alloc::Global;
use std::process::Abort;

/// The type that is found, if any.
fn find_type(rt: &impl Abort, alloc: Global, types: &Types, steps: &[u32]) -> &'static str {
    let steps = steps.to_vec(alloc).expect(rt, "memory");
    match types.ty(&Path { steps }) {
        None => "none",
        Some(Ty::Null) => "null",
        Some(Ty::Boolean) => "boolean",
        Some(_) => "another",
    }
}

#[test]
fn finds_types_by_paths(rt: HostRuntime) {
    let mut types = Types::new(rt.alloc());
    types.close(0, 0, Some(Ty::Int)).expect(&rt, "memory");
    types.close(1, 0, Some(Ty::Boolean)).expect(&rt, "memory");
    types.close(1, 1, None).expect(&rt, "memory");
    types.close(0, 2, Some(Ty::Null)).expect(&rt, "memory");
    assert!(rt; types.count() == 4);
    assert!(rt; find_type(&rt, rt.alloc(), &types, &[]) == "null");
    assert!(rt; find_type(&rt, rt.alloc(), &types, &[1]) == "none");
    assert!(rt; find_type(&rt, rt.alloc(), &types, &[1, 0]) == "boolean");
    assert!(rt; find_type(&rt, rt.alloc(), &types, &[2]) == "none");
}
