//! How kinds of dependences are told.
ghost use Rattle.std.specs.Prelude.{◌≡◌};
ghost use Rattle.jr_dependences.specs.KindNames as pure;

use jr_sync::DepKind;

/// The name of a kind.
pub fn kind_name(kind: DepKind) -> &'static str
    ensures { result.now ≡ pure.kind_name kind }
{
    match kind {
        DepKind::Order => "Order",
        DepKind::Field => "Field",
        DepKind::Sync => "Sync",
        DepKind::Flow => "Flow",
        DepKind::Anti => "Anti",
        DepKind::Output => "Output",
    }
}
