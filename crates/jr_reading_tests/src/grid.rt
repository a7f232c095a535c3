//! The reordering grid, as the "Can Reorder" table of the JSR-133 Cookbook has it.
use jr_sync::{Kind, allowed};
use std::alloc::Global;
use std::process::Abort;

/// A kind, and behind which kinds it may move.
pub(crate) const ROWS: &'static str = "
~grid Load => behind Load Store VolatileLoad Enter
~grid Store => behind Load Store VolatileLoad Enter
~grid VolatileLoad => behind
~grid Enter => behind
~grid VolatileStore => behind Load Store
~grid Exit => behind Load Store
~grid Still => behind
";

/// The kind of this name; any other is `Still`.
pub(crate) fn kind_of(name: &str) -> Kind {
    match name {
        "Load" => Kind::Load,
        "Store" => Kind::Store,
        "VolatileLoad" => Kind::VolatileLoad,
        "Enter" => Kind::Enter,
        "VolatileStore" => Kind::VolatileStore,
        "Exit" => Kind::Exit,
        _ => Kind::Still,
    }
}

/// The kinds behind which this one may move.
pub(crate) fn moves_behind(rt: &impl Abort, alloc: Global, name: &str) -> String {
    let first = kind_of(name);
    let mut told = String::new(alloc);
    told.push_str("behind").expect(rt, "memory");
    for second in [
        Kind::Load,
        Kind::Store,
        Kind::VolatileLoad,
        Kind::Enter,
        Kind::VolatileStore,
        Kind::Exit,
        Kind::Still,
    ] {
        if allowed(first, second) {
            write!(&mut told, " {second:?}").expect(rt, "memory");
        }
    }
    told
}
