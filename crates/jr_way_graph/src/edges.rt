//! Edges from some sites to others.
ghost use Rattle.std.specs.Prelude.{◌≡◌, ◌++◌, ◌∷◌, [], OnOk};
ghost use Rattle.jr_cover.specs.Flows.{fan, product, when};

use std::alloc::AllocError;

/// Puts a row behind another, if it is to be.
pub(crate) fn extend_when(is: bool, more: &[u32], row: &mut Vec<u32>) -> Result<(), AllocError>
    ensures { OnOk result (row.new.items ≡ row.old.items ++ when is more.now) }
{
    if is {
        row.extend_from_slice(more)
    } else {
        Ok(())
    }
}

/// Puts an edge.
pub(crate) fn put_edge(from: u32, to: u32, edges: &mut Vec<(u32, u32)>) -> Result<(), AllocError>
    ensures { OnOk result (edges.new.items ≡ edges.old.items ++ (from, to) ∷ []) }
{
    edges.push((from, to))?;
    Ok(())
}

/// Puts the edges from one site to each of some.
pub(crate) fn put_fan(from: u32, to: &[u32], edges: &mut Vec<(u32, u32)>) -> Result<(), AllocError>
    ensures { OnOk result (edges.new.items ≡ edges.old.items ++ fan from to.now) }
{
    for number in 0..to.len() {
        put_edge(from, to[number], edges)?;
    }
    Ok(())
}

/// Puts the edges from each of some sites to each of others.
pub(crate) fn put_product(
    from: &[u32],
    to: &[u32],
    edges: &mut Vec<(u32, u32)>,
) -> Result<(), AllocError>
    ensures { OnOk result (edges.new.items ≡ edges.old.items ++ product from.now to.now) }
{
    for number in 0..from.len() {
        put_fan(from[number], to, edges)?;
    }
    Ok(())
}
