//! A machine for tests.

ghost use Rattle.std.specs.Prelude.{◌≡◌, [], ◌∷◌, IfOk};
ghost use Rattle.nm_types.specs.Layout.{frame_count};

use nm_refusing_alloc::Refusing;
use nm_types::Geometry;
use std::alloc::Global;
use std::test::Fail;

/// Three nodes of four, four and one frames, the last of which is nearest to both others.
pub(crate) fn three_nodes(heap: &Refusing<Global>) -> Result<Geometry<&Refusing<Global>>, Fail>
    ensures sizes { IfOk result (λ geometry. geometry.sizes ≡ 4 ∷ 4 ∷ 1 ∷ []) }
    ensures frames { IfOk result (λ geometry. frame_count geometry ≡ 9) }
{
    let mut distances = Vec::with_capacity(heap, 3)?;
    for row in [[10u8, 30, 20], [30, 10, 20], [20, 20, 10]] {
        distances.push(Vec::from_slice(heap, row.as_slice())?)?;
    }
    let sizes = Vec::from_slice(heap, [4u32, 4, 1].as_slice())?;
    Ok(Geometry::new(sizes, distances)?)
}
