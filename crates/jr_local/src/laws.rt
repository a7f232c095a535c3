//! What holds of regions.
ghost use Rattle.jr_local.specs.Soundness.{RegionsAreSound};

/// Where a local is made or goes, old declarations have their images among the rows, and places
/// what stands for them: the scope, locals with their images, types (JLS 6.3).
pub fn regions_are_sound()
    ensures { RegionsAreSound }
{}
